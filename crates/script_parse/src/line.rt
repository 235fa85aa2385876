//! What lines say.

use crate::script::Instr;
use ldv_value::{List, Utf8};

/// What a line says, before labels have places.
#[derive(Drop)]
pub(crate) enum Line {
    /// Nothing: it is empty or a comment.
    Blank,
    /// A label.
    Label(Utf8),
    /// An instruction that names no label.
    Plain(Instr),
    /// An instruction that names a label. Its `place` is 0 until the label's place is known.
    Jumping(Instr, Utf8),
}

/// A line that is neither empty nor a comment.
#[derive(Drop)]
pub(crate) struct Entry {
    /// Its number, from 1.
    pub number: u64,
    /// What it says; `None` if it is bad whatever the other lines say.
    pub line: Option<Line>,
}

/// Lines in order.
pub(crate) type Entries = List<Entry>;

/// Where a label is defined.
#[derive(Clone, Copy, Drop)]
pub(crate) struct Definition {
    /// The number of the line, from 1.
    pub line: u64,
    /// The number of instructions before it.
    pub place: usize,
}
