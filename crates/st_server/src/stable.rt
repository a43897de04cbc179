use st_base::Epoch;
use st_extents::Extents;
use st_namespace::Names;

/// What outlives a crash of a server.
#[derive(Drop)]
pub struct ServerStable {
    pub epoch: Epoch,
    pub names: Names,
    pub extents: Extents,
}
