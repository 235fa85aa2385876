//! The run of a package over its recorded replies: a process that asks the same as in the recorded run gets
//! the same reply.
//!
//! A statement takes logarithmic time in the number of processes, and one comparison with the recorded one.
//!
//! Entry: `replay_parsed` in `src/replay.rt`. Read first: `specs/Replays.antt`.
#![tactic(auto)]

mod copies;
mod find;
mod law;
mod next;
mod own;
mod replay;
mod reply_log;
mod start;

pub use law::can_replay_law;
pub use replay::{replay_excluded, replay_parsed, replay_seeded, replay_seeded_parsed};
pub use reply_log::ReplyLog;
