//! Worked rows of whole runs of the world, of the texts of a report and of generated schedules:
//! equations that hold by computation. A wrong definition breaks one.
#![tactic(auto)]

pub mod generated_candidates;
pub mod generated_choices;
pub mod generated_draws;
pub mod generated_texts;
pub mod world_asks;
pub mod world_checks;
pub mod world_clocks;
pub mod world_commands;
pub mod world_cuts;
pub mod world_disks;
pub mod world_epochs;
pub mod world_failures;
pub mod world_leases;
pub mod world_lives;
pub mod world_locks;
pub mod world_names;
pub mod world_reads;
pub mod world_reassertion;
pub mod world_refusals;
pub mod world_restarts;
pub mod world_texts;
pub mod world_theft;
