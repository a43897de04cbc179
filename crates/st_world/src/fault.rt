use st_rules::WorldRefusal;
use thiserror::Error;

/// Why a step of the world returned no observations. After `Memory` nothing is known of the world:
/// discard it.
#[derive(Clone, Copy, Debug, PartialEq, Eq, Error)]
pub enum WorldFault {
    #[error("refused: {0}")]
    Refused(WorldRefusal),
    #[error("out of memory")]
    Memory,
}
