//! Sources and sinks of bytes, and the two calls that read a whole input and write a whole output.
//!
//! Entry: `read_all` in `src/whole.rt`. Read first: `specs/Causes.antt`.
#![tactic(auto)]

mod memory;
mod sink;
mod source;
mod standard;
mod steady;
mod whole;

pub use memory::{MemorySink, MemorySource};
pub use sink::Sink;
pub use source::{Failed, Source};
pub use standard::{StdSink, StdSource};
pub use steady::{DropSink, SteadySource};
pub use whole::{ReadStop, WriteStop, read_all, write_all};
