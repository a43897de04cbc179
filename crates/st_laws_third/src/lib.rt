//! Laws of the third form: its definitions leave the first two forms as they are. Its clients keep
//! every association, with what is beside it, and their rules are lists of small changes.
#![tactic(auto)]

mod law;

pub use law::{
    clients_stay_paired, every_allocation_is_short, every_client_fits,
    every_client_has_few_dirty_pages, every_client_has_few_locks, every_demand_is_answered,
    every_demand_is_seen, every_expired_lease_leaves_nothing, every_hard_entry_stays,
    every_reassertion_is_few, every_run_answers_demands, every_welcome_is_fresh, first_heads_stay,
    first_runs_stay, first_steps_stay, third_clients_live_on, third_clients_step_on,
    third_rules_are_changes,
};
