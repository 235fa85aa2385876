//! Worlds run, recorded and replayed over the engine, audits of packages, and the proof that a package
//! suffices.
//!
//! Entry: `record_world` in `src/record.rt`. Read first: `specs/Runs.antt`.
#![tactic(auto)]

mod copy;
mod error;
mod law;
mod logged;
mod own;
mod record;
mod recorder;
mod replay;
mod run;
mod setting;
mod soundness;
mod start;
mod table;
mod trace;

pub use error::EndStop;
pub use law::{audit_law, members_law, package_law};
pub use own::{own_parsed_world, own_world, own_world_of};
pub use record::{record_parsed, record_world};
pub use recorder::Recorder;
pub use replay::{replay_included, replay_included_parsed, replay_included_read};
pub use run::{run_parsed, run_world};
pub use soundness::{AuditStop, Verdict, audit, audit_parsed};
pub use start::parsed_world;
pub use table::{TableStop, table_at, table_at_parsed};
