//! The bytes of a package, in two versions of the layout: `spell` writes them, `read_package` reads them,
//! and `read_compact` reads them without making the events.
//!
//! A package is its magic, its parts in order (by `package_codec`) and its digest. Both versions are read
//! into runs of events and checked there; `read_package` makes the events last, if the package is valid.
//!
//! Entry: `read_package` and `read_compact` in `src/layout.rt`. Read first: `specs/Whole.antt`.
#![tactic(auto)]

mod damage;
mod digest;
mod law;
mod layout;
mod rules;
mod sections;
mod spelling;
mod validity;

pub use damage::DamageKind;
pub use digest::{DIGEST_LENGTH, has_digest, middle};
pub use law::round_trip_law;
pub use layout::{PackageStop, SpellStop, read_compact, read_package, read_parsed};
pub use package_codec::{Version, version_of};
pub use spelling::{append_digest, spell, spell_as, spell_compact};
pub use validity::valid_script;
