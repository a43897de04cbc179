//! Images of a container: a volume of pages that can be written while its images show each page as
//! it was when they were taken. `docs/PROTOCOL.md`, "Images of a container".
#![tactic(auto)]

mod refusal;
mod slots;
mod versions;
mod volume;

pub use refusal::SnapRefusal;
pub use volume::Volume;
