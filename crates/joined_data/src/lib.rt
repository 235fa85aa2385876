//! Joined packages as data: their types, the parts of a package, merging and comparing the lists of two
//! packages, and the bytes of a joined package between its magic and its digest.
//!
//! Entry: `join_owned` in `src/joining.rt`. Read first: `specs/Joined.antt`.
#![tactic(auto)]

mod clash;
mod compact_joined;
mod decoding;
mod differences;
mod encoding;
mod joined;
mod joining;
mod key_clash;
mod mergeable;
mod merging;
mod parts;
mod queue;

pub use compact_joined::{CompactJoined, CompactRun, ParsedJoined};
pub use decoding::decode_all;
pub use encoding::{encode_compact_joined, encode_joined};
pub use joined::{Clash, ClashKind, Joined, JoinedRun, Reason, Reasons, Which};
pub use joining::{JoinStop, join_owned, join_with_runs};
