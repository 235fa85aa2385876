//! Links that are noted, and become edges later.

ghost use Rattle.std.specs.Prelude.{◌≡◌, ◌++◌, ◌∷◌, [], map, OnOk};
ghost use Rattle.trace_graph.specs.inner.Building.{edge_at, with_notes};
ghost use Rattle.trace_graph.specs.inner.Pieces.{in_pieces};

use crate::span::{Spans, add_time};
use ldv_value::List;
use std::alloc::{AllocError, Global};
use std::marker::Model;
use std::mem;

// The notes of a piece, which takes 96 KiB.
const PIECE: usize = 4_096;

/// A link between two places of nodes at a time.
#[derive(Clone, Copy)]
pub(crate) struct Note {
    pub(crate) source: usize,
    pub(crate) target: usize,
    pub(crate) time: u32,
}

/// Links, in the order in which they were noted. A note takes half the memory of an edge with its entry in a
/// table. Notes are kept in pieces that fit into the memory of dropped events. For one long list the
/// allocator would ask the system for more memory, as for everything above some 128 KiB.
#[derive(Drop)]
pub(crate) struct Notes {
    earlier: Vec<List<Note>>,
    latest: List<Note>,
}

impl Model for Notes {
    ghost use Rattle.std.specs.Prelude.{List as Items};
    ghost use Rattle.trace_graph.specs.inner.Pieces.{in_pieces};
    ghost use Rattle.trace_graph.specs.declared.note.Note.{Note};

    ghost Value = { Items Note };

    ghost view = { λ a. in_pieces a.earlier.items a.latest };
}

impl Notes {
    /// No note. It takes no memory.
    pub(crate) fn new(alloc: Global) -> Notes
        ensures { result ≡ [] }
    {
        Notes {
            earlier: Vec::new(alloc),
            latest: List::new(alloc),
        }
    }

    /// Adds a note at the end.
    #[tactic(auto, using(crate::proofs::NoteLaws::latest_more))]
    pub(crate) fn push(&mut self, note: Note) -> Result<(), AllocError>
        ensures { OnOk result (self.new ≡ self.old ++ note ∷ []) }
    {
        if self.latest.len() >= PIECE {
            self.begin_piece()?;
        }
        self.latest.push(note)
    }

    // Begins a piece after the latest.
    #[tactic(auto, using(crate::proofs::NoteLaws::piece_more))]
    fn begin_piece(&mut self) -> Result<(), AllocError>
        ensures { OnOk result (self.new ≡ self.old) }
    {
        let alloc = self.latest.allocator();
        let next = List::with_capacity(alloc, PIECE)?;
        let full = mem::replace(&mut self.latest, next);
        self.earlier.push(full)?;
        Ok(())
    }

    /// Takes all notes out, and keeps the memory of the latest piece.
    pub(crate) fn clear(&mut self)
        ensures { self.new ≡ [] }
    {
        let alloc = self.latest.allocator();
        let mut kept = mem::replace(&mut self.latest, List::new(alloc)).into_vec();
        kept.clear();
        self.earlier.clear();
        self.latest = List::of_vec(kept);
    }
}

// Adds the times of the links of a piece.
fn add_piece(spans: &mut Spans, notes: &[Note]) -> Result<(), AllocError>
    ensures { OnOk result (map edge_at spans.new.entries
        ≡ with_notes (map edge_at spans.old.entries) notes.now) }
{
    for note in notes {
        add_time(spans, note.source, note.target, note.time)?;
    }
    Ok(())
}

#[tactic(auto, using(crate::proofs::NoteLaws::notes_then))]
fn add_pieces(spans: &mut Spans, pieces: &[List<Note>]) -> Result<(), AllocError>
    ensures { OnOk result (map edge_at spans.new.entries
        ≡ with_notes (map edge_at spans.old.entries) (in_pieces pieces.now [])) }
{
    for piece in pieces {
        add_piece(spans, piece.items())?;
    }
    Ok(())
}

/// Adds the times of links to those of the edges.
#[tactic(auto, using(crate::proofs::NoteLaws::latest_then))]
pub(crate) fn add_notes(spans: &mut Spans, notes: &Notes) -> Result<(), AllocError>
    ensures { OnOk result (map edge_at spans.new.entries
        ≡ with_notes (map edge_at spans.old.entries) notes.now) }
{
    add_pieces(spans, notes.earlier.as_slice())?;
    add_piece(spans, notes.latest.items())
}
