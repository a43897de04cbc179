//! Laws over all histories of the protocol's additions: a journal whose store may crash, images of
//! a container, containers that move between servers which crash and start, and a file that is
//! shared without caches. `docs/PROTOCOL.md`, "A metadata journal", "Images of a container", "A
//! container moves by order" and "Shared writing without caches".
#![tactic(auto)]

mod laws;

pub use laws::{
    every_answer_of_a_shared_file_has_its_cause, every_history_of_images_reads_right,
    every_history_of_journals_is_kept, every_history_of_moves_is_kept,
};
