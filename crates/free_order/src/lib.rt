//! Replay in another order of steps, for runs whose processes share no path that one of them changes.
//!
//! Proofs see a state by the names of its processes, without their numbers and the scheduler
//! (`proofs/Boards.antt`). Then two neighbouring steps of different processes may be exchanged
//! (`proofs/Exchange.antt`), and each step brings the end one step nearer (`proofs/Descent.antt`).
//!
//! Entry: `replay_other_seed` in `src/other_seed.rt`. Read first: `specs/Orders.antt`.
#![tactic(auto)]

mod acts;
mod error;
mod law;
mod other_seed;
mod private;
mod seen;

pub use error::OrderStop;
pub use law::order_law;
pub use other_seed::{replay_other_seed, replay_other_seed_parsed};
pub use private::is_private;
