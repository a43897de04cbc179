//! Grace: how long a server that has started makes no new grants, while clients reassert the locks
//! that they hold. `docs/PROTOCOL.md`, "Grace and reassertion", has the rules.
#![tactic(auto)]

mod acceptance;
mod grace;
mod refusal;

pub use grace::Grace;
pub use refusal::ReassertRefusal;
pub use st_base::{ClientId, Config, GrantNo, Life, Mode, Stamp};
