//! Graphs as provenance documents: JSON after PROV-JSON, in this project's own profile.
//!
//! A document is read to a JSON value; nodes and edges are taken out of it by name; the graph is written
//! anew and compared with the bytes. All look-ups are in maps.
//!
//! Entry: `write_prov` in `src/writing.rt`. Read first: `specs/Document.antt`.
#![tactic(auto)]

mod depending;
mod edge_reading;
mod error;
mod id_reading;
mod ids;
mod law;
mod members;
mod name_map;
mod node_reading;
mod objects;
mod ordering;
mod reading;
mod relation;
mod writing;

pub use depending::depends_text;
pub use error::ProvStop;
pub use law::prov_law;
pub use reading::read_prov;
pub use writing::write_prov;
