//! A graph that grows link by link.

ghost use Rattle.std.specs.Prelude.{◌≡◌, ◌≤◌, map, IsTrue, IfOk, OnOk};
ghost use Rattle.ldv_value.specs.Limits.{max_processes};
ghost use Rattle.run_model.specs.ValidTrace.{made_after};
ghost use Rattle.trace_graph.specs.inner.Building.{parts_of, no_parts, with_link, with_place, with_noted};
ghost use Rattle.trace_graph.specs.Lent.{node_of};
ghost use Rattle.trace_graph.specs.inner.Building.{edge_at, with_notes, with_links, with_events, made_fits};
ghost use Rattle.trace_graph.specs.Graph.{place_in};
ghost use Rattle.trace_graph.specs.Links.{link, event_links};
ghost use Rattle.trace_graph.specs.NodeTexts.{act_texts, are_held, acts_held};

use crate::edge::Edges;
use crate::key::{NodeKey, NodeKeys, copy_keys, number};
use crate::note::{Note, Notes, add_notes};
use crate::span::{Spans, edges_of};
use crate::texts::NodeTexts;
use run_model::{Act, Event, Events};
use std::alloc::{AllocError, Global};
use std::mem;

/// The nodes and edges so far, and the links that aren't among the edges yet.
#[derive(Drop)]
pub(crate) struct Building<'a> {
    pub(crate) keys: NodeKeys<'a>,
    pub(crate) spans: Spans,
    pub(crate) notes: Notes,
}

impl<'a> Building<'a> {
    /// No node and no edge. It takes no memory.
    pub(crate) fn new(alloc: Global) -> Building<'a>
        ensures { parts_of result ≡ no_parts }
    {
        Building {
            keys: NodeKeys::new(alloc),
            spans: Spans::new(alloc),
            notes: Notes::new(alloc),
        }
    }

    // Makes room for the nodes and edges that are expected.
    fn reserve(&mut self, room: Room) -> Result<(), AllocError>
        ensures { OnOk result (parts_of self.new ≡ parts_of self.old) }
    {
        self.keys.reserve_exact(room.nodes)?;
        self.spans.reserve_exact(room.edges)?;
        Ok(())
    }

    /// The place of a node, which is added at the end if it isn't there yet.
    pub(crate) fn place(&mut self, key: NodeKey<'a>) -> Result<usize, AllocError>
        ensures parts { OnOk result (parts_of self.new
            ≡ with_place (parts_of self.old) (node_of key.entry)) }
        ensures place { IfOk result (λ place. place
            ≡ place_in (parts_of self.old).nodes (node_of key.entry)) }
    {
        let place = number(&mut self.keys, key)?;
        Ok(place)
    }

    /// Notes a link between two places at a time.
    pub(crate) fn note_link(
        &mut self,
        source: usize,
        target: usize,
        time: u32,
    ) -> Result<(), AllocError>
        ensures { OnOk result (parts_of self.new ≡ with_noted (parts_of self.old) source target time) }
    {
        self.notes.push(Note {
            source,
            target,
            time,
        })?;
        Ok(())
    }

    /// Links one node to another at a time.
    #[tactic(auto, unfolding(crate::specs::inner::Building::with_link))]
    pub(crate) fn link(
        &mut self,
        source: NodeKey<'a>,
        target: NodeKey<'a>,
        time: u32,
    ) -> Result<(), AllocError>
        ensures { OnOk result (parts_of self.new
            ≡ with_link (parts_of self.old) (link time (node_of source.entry) (node_of target.entry))) }
    {
        let from = number(&mut self.keys, source)?;
        let to = number(&mut self.keys, target)?;
        self.note_link(from, to, time)
    }

    // Puts all links that were noted among the edges.
    fn settle(&mut self) -> Result<(), AllocError>
        ensures { OnOk result (parts_of self.new ≡ parts_of self.old) }
    {
        add_notes(&mut self.spans, &self.notes)?;
        self.notes.clear();
        Ok(())
    }

    // Links what events do, and settles it.
    fn link_events(&mut self, texts: &'a NodeTexts, events: &[Event]) -> Result<(), AllocError>
        requires fits { IsTrue (made_fits 1 events.now) }
        requires held { IsTrue (acts_held texts.now.held.keys events.now) }
        ensures { OnOk result (parts_of self.new ≡ with_events (parts_of self.old) 1 events.now) }
    {
        let mut made = 1;
        for event in events {
            self.link_event(texts, made, event)?;
            self.settle()?;
            made = made_with(made, &event.act);
        }
        Ok(())
    }

    /// Adds the links of the events of a trace.
    pub(crate) fn fill(&mut self, texts: &'a NodeTexts, events: &[Event]) -> Result<(), AllocError>
        requires fits { IsTrue (made_fits 1 events.now) }
        requires held { IsTrue (acts_held texts.now.held.keys events.now) }
        ensures { OnOk result (parts_of self.new ≡ with_events (parts_of self.old) 1 events.now) }
    {
        self.reserve(room_of(events))?;
        self.link_events(texts, events)
    }

    // Notes what an event links, which is gone once it returns, and counts the process that it makes.
    fn note_event(
        &mut self,
        texts: &'a NodeTexts,
        made: &mut u32,
        event: Event,
    ) -> Result<(), AllocError>
        requires fits { made_after made.old event.act ≤ max_processes }
        requires held { IsTrue (are_held texts.now.held.keys (act_texts event.act)) }
        ensures parts { OnOk result (parts_of self.new
            ≡ with_links (parts_of self.old) (event_links made.old event)) }
        ensures made { made.new ≡ made_after made.old event.act }
    {
        let before = *made;
        *made = made_with(before, &event.act);
        self.link_event(texts, before, &event)
    }

    // Notes what events link, which are dropped one by one.
    fn note_events(&mut self, texts: &'a NodeTexts, events: Events) -> Result<(), AllocError>
        requires fits { IsTrue (made_fits 1 events) }
        requires held { IsTrue (acts_held texts.now.held.keys events) }
        ensures { OnOk result (parts_of self.new ≡ with_events (parts_of self.old) 1 events) }
    {
        let mut made = 1;
        for event in events.into_vec() {
            self.note_event(texts, &mut made, event)?;
        }
        Ok(())
    }

    /// The same as `fill`, but it drops the events one by one. Links are only noted, in the memory of dropped
    /// events: the table of edges is larger, and is made once all events are gone.
    pub(crate) fn fill_from(
        &mut self,
        texts: &'a NodeTexts,
        events: Events,
        nodes: usize,
    ) -> Result<(), AllocError>
        requires fits { IsTrue (made_fits 1 events) }
        requires held { IsTrue (acts_held texts.now.held.keys events) }
        ensures { OnOk result (parts_of self.new ≡ with_events (parts_of self.old) 1 events) }
    {
        self.reserve(Room { nodes, edges: 0 })?;
        self.note_events(texts, events)
    }

    /// Takes the nodes out as keys, without their index.
    pub(crate) fn take_keys(&mut self, alloc: Global) -> Result<Vec<NodeKey<'a>>, AllocError>
        ensures keys { IfOk result (λ keys. keys.items ≡ self.old.keys.keys) }
        ensures spans { self.new.spans.entries ≡ self.old.spans.entries }
        ensures notes { self.new.notes ≡ self.old.notes }
    {
        let keys = mem::replace(&mut self.keys, NodeKeys::new(alloc));
        copy_keys(alloc, keys.as_slice())
    }

    /// Takes the edges out, with those of the notes. `room` is the expected number of these.
    pub(crate) fn take_edges(&mut self, alloc: Global, room: usize) -> Result<Edges, AllocError>
        ensures edges { IfOk result (λ edges. edges
            ≡ with_notes (map edge_at self.old.spans.entries) self.old.notes) }
        ensures keys { self.new.keys.keys ≡ self.old.keys.keys }
    {
        self.spans.reserve(room)?;
        add_notes(&mut self.spans, &self.notes)?;
        self.notes.clear();
        let spans = mem::replace(&mut self.spans, Spans::new(alloc));
        edges_of(alloc, spans)
    }
}

/// The greatest numbers of nodes and of edges: tables that grow take a sixth of the time.
#[derive(Clone, Copy)]
pub(crate) struct Room {
    pub(crate) nodes: usize,
    pub(crate) edges: usize,
}

impl Room {
    // With the room for an act: only statements are counted, since other acts add few nodes and edges. Rows
    // that are read may have been read before, so they take no room for nodes.
    fn with_act(self, act: &Act) -> Room {
        match act {
            Act::Asked {
                statement: _,
                tables: _,
                reads,
                made,
            } => self.with_statement(reads.len(), made.len()),
            _ => self,
        }
    }

    // A statement and its reply; an edge to each of them and one from the reply; one from each row that was
    // read, one to each version made, and one from what that was made of.
    fn with_statement(self, reads: usize, made: usize) -> Room {
        let changes = made.saturating_mul(2);
        Room {
            nodes: self.nodes.saturating_add(made).saturating_add(2),
            edges: self
                .edges
                .saturating_add(reads)
                .saturating_add(changes)
                .saturating_add(3),
        }
    }
}

/// The greatest numbers of nodes and of edges that events make.
pub(crate) fn room_of(events: &[Event]) -> Room {
    let mut room = Room { nodes: 0, edges: 0 };
    for event in events {
        room = room.with_act(&event.act);
    }
    room
}

// The number of processes that were made, the first one counted, after an act.
fn made_with(made: u32, act: &Act) -> u32
    requires { made_after made act.now ≤ max_processes }
    ensures { result ≡ made_after made act.now }
{
    if act.is_spawn() { made + 1 } else { made }
}
