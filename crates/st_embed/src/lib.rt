//! The nodes inside another program: each call takes a moment and one frame, and the frames that
//! come of it are taken out in any pieces. No clock, no thread and no socket is in it.
//! `docs/PROTOCOL.md`, "Building on it", has the rules for the program around it.
#![tactic(auto)]

mod checks;
mod client;
mod events;
mod fault;
mod journal_image;
mod law;
mod lives;
mod outbox;
mod pending_frames;
mod server;

pub use client::EmbeddedClient;
pub use events::TankEvent;
pub use fault::{OpenFault, ServerFault, ServerRefusal, StepRefusal};
pub use law::{a_journal_outlives_crashes, journals_are_of_servers};
pub use server::{EmbeddedServer, Shape};
pub use st_base::{ClientId, Config, ConfigRefusal, Epoch, Life, ServerId, Stamp};
pub use st_client::{ClientCounts, Phase};
pub use st_codec::CodecRefusal;
pub use st_host_frames::FrameFault;
pub use st_server::ServerCounts;
