//! The provenance graph of a trace: what came from what. An edge goes from a source of information to its
//! target, with the interval of steps in which information flows.
//!
//! Hash tables number nodes and edges, so time and memory are linear in the trace. Keys of nodes borrow their
//! texts from a set of the paths and tables of the trace (`NodeTexts`), and so does a `LentGraph`; a `Graph`
//! owns its texts. Each link is first noted by its nodes and its time. `Graph::of_events` keeps the events
//! and makes an edge of each note at once; `LentGraph::of_events` drops each event once its links are noted,
//! and makes the edges when all events are gone. `lines` writes the lines of nodes in reports.
//!
//! Entry: `of_events` in `src/graph.rt`. Read first: `specs/Links.antt`.
#![tactic(auto)]

mod building;
mod edge;
mod graph;
mod key;
mod law;
mod lent;
mod lines;
mod linking;
mod node;
mod note;
mod span;
mod texts;
mod well_formed;

pub use edge::{Edge, Edges};
pub use graph::Graph;
pub use key::NodeKey;
pub use law::{graph_law, well_formed_law};
pub use lent::LentGraph;
pub use lines::{append_number_line, append_numbered, append_path, append_version};
pub use node::{Node, Nodes};
pub use texts::NodeTexts;
pub use well_formed::is_well_formed;
