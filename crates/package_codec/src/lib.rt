//! The parts of a package as bytes: values, files, tables, logs, events and runs of events.
//!
//! Each part has three definitions: its bytes, the limits of its fields, and how it is read from the front of
//! bytes. `proofs/` shows that a written part is read back, whatever follows it, and that a part that is read
//! has the bytes of its spelling. A trace of either version is read into runs of equal events, and judged by
//! the first and the last event of each run.
//!
//! Folders: `parts` has values, texts, files, tables and logs, `trace` events and runs of events.
//!
//! Entry: `encode_list` and `decode_list` in `src/codec.rt`. Read first: `specs/Fields.antt`.
#![tactic(auto)]

mod codec;
mod compact_package;
mod cursor;
mod decode_stop;
mod number;
mod parts;
mod plain;
mod trace;
mod version;
mod width;

pub use codec::{Decode, Encode, decode_list, encode_list};
pub use compact_package::{CompactPackage, ParsedPackage};
pub use cursor::Cursor;
pub use decode_stop::DecodeStop;
pub use number::{decode_u8, decode_u32, decode_u64, encode_u8, encode_u32, encode_u64};
pub use parts::table::{decode_reason, decode_tables, encode_reason, encode_tables};
pub use parts::text::{decode_text, encode_text};
pub use plain::fits_version;
pub use trace::cutting::decode_cut;
pub use trace::event_run::{EventRun, EventRuns};
pub use trace::expanding::{events_in, expanded_package};
pub use trace::law::runs_law;
pub use trace::run_rules::are_runs;
pub use trace::writing::encode_trace;
pub use trace::{asked_count, is_trace};
pub use version::{MAGIC_LENGTH, Version, first_eight, magic, version_of};
pub use width::Width;
