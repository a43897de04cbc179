use st_rules::WorldRefusal;
use st_schedule::ScheduleRefusal;
use thiserror::Error;

/// Why a line is refused: it can't be read, or its event isn't allowed.
#[derive(Debug, Drop, Error)]
pub enum LineRefusal {
    /// It is never `ScheduleRefusal::Memory`.
    #[error("{0}")]
    Schedule(ScheduleRefusal),
    #[error("{0}")]
    World(WorldRefusal),
}
