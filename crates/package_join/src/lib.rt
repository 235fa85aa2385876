//! Two runs in one package: the files and tables of two included packages, each stored once, and the needs of
//! each run.
//!
//! Entry: `join` in `src/joins.rt`. Read first: `specs/Joined.antt` of `joined_data`.
#![tactic(auto)]

mod choosing;
mod copying;
mod joins;
mod judging;
mod law;
mod reading;
mod spelling;
mod worlds;

pub use choosing::run_of;
pub use joined_data::{Clash, ClashKind, JoinStop, Joined, JoinedRun, Reason, Which};
pub use joins::{join, join_compact};
pub use law::{join_law, joined_round_trip_law, joined_runs_law, pick_law};
pub use reading::{read_joined, read_parsed_joined};
pub use spelling::{spell_compact_joined, spell_joined};
pub use worlds::{joined_parsed_world, joined_world};
