//! What steps give, held back until their changes are kept. Steps go on while changes wait to be
//! kept, up to a limit; what a step gave may be taken once its change is kept, and each change
//! before it, in the order of the steps.
#![tactic(auto)]

mod held;
mod law;

pub use held::{HeldSteps, Marked};
pub use law::nothing_is_given_before_it_is_kept;
