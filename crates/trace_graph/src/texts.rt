//! The texts of the nodes of a trace.

ghost use Rattle.std.specs.Prelude.{◌≡◌, ◌++◌, [], IfOk, IsTrue, OnOk};
ghost use Rattle.trace_graph.specs.Lent.{node_of};
ghost use Rattle.trace_graph.specs.Links.{at_version};
ghost use Rattle.trace_graph.specs.NodeTexts.{act_texts, event_texts, read_texts, made_texts, with_text};
ghost use Rattle.trace_graph.specs.NodeTexts.{with_texts, is_held, lends_texts};
ghost use Rattle.trace_graph.specs.Types.{Path, Row};

use crate::key::NodeKey;
use indexmap::IndexSet;
use ldv_value::Utf8;
use run_model::{Act, Event, Events};
use sql_model::{Member, Need};
use std::alloc::{AllocError, Global};

type TextSet = IndexSet<Utf8>;

/// The texts of the nodes of a trace, each once: the paths of acts, and the tables of the rows that
/// statements read and make. A graph that borrows these texts doesn't need the events.
#[derive(Drop)]
pub struct NodeTexts {
    held: TextSet,
}

impl NodeTexts {
    /// The texts of the nodes of events. `AllocError` means out of memory only.
    pub fn of_events(alloc: Global, events: &Events) -> Result<NodeTexts, AllocError>
        ensures { IfOk result (λ texts. IsTrue (lends_texts texts events.now)) }
    {
        texts_of(alloc, events.items())
    }

    fn add_events(&mut self, events: &[Event]) -> Result<(), AllocError>
        ensures { OnOk result (self.new.held.keys ≡ with_texts self.old.held.keys (event_texts events.now)) }
    {
        for event in events {
            self.add_act(&event.act)?;
        }
        Ok(())
    }

    fn add_act(&mut self, act: &Act) -> Result<(), AllocError>
        ensures { OnOk result (self.new.held.keys ≡ with_texts self.old.held.keys (act_texts act.now)) }
    {
        match act {
            Act::Started { path } => self.add(path),
            Act::Spawned { path } => self.add(path),
            Act::Unspawned { path, found: _ } => self.add(path),
            Act::OpenedRead { path } => self.add(path),
            Act::OpenedWrite { path } => self.add(path),
            Act::OpenedAppend { path, found: _ } => self.add(path),
            Act::OpenedNew { path } => self.add(path),
            Act::Unopened { path, found: _ } => self.add(path),
            Act::Read { path } => self.add(path),
            Act::Wrote { path } => self.add(path),
            Act::Removed { path } => self.add(path),
            Act::Tested { path, found: _ } => self.add(path),
            Act::Waited { child: _ } => Ok(()),
            Act::Ended { status: _ } => Ok(()),
            Act::Asked {
                statement: _,
                tables: _,
                reads,
                made,
            } => self.add_tables(reads.items(), made.items()),
        }
    }

    #[tactic(auto, using(crate::proofs::TextLaws::texts_more))]
    fn add_tables(&mut self, reads: &[Need], made: &[Member]) -> Result<(), AllocError>
        ensures { OnOk result (self.new.held.keys
            ≡ with_texts self.old.held.keys (read_texts reads.now ++ made_texts made.now)) }
    {
        self.add_reads(reads)?;
        self.add_made(made)
    }

    fn add_reads(&mut self, reads: &[Need]) -> Result<(), AllocError>
        ensures { OnOk result (self.new.held.keys
            ≡ with_texts self.old.held.keys (read_texts reads.now)) }
    {
        for need in reads {
            self.add(&need.member.table)?;
        }
        Ok(())
    }

    fn add_made(&mut self, made: &[Member]) -> Result<(), AllocError>
        ensures { OnOk result (self.new.held.keys
            ≡ with_texts self.old.held.keys (made_texts made.now)) }
    {
        for member in made {
            self.add(&member.table)?;
        }
        Ok(())
    }

    // Adds a copy of a text, if it isn't there yet.
    fn add(&mut self, text: &Utf8) -> Result<(), AllocError>
        ensures { OnOk result (self.new.held.keys ≡ with_text self.old.held.keys text.now) }
    {
        if self.held.contains(text) {
            return Ok(());
        }
        let copy = text.copy()?;
        self.held.insert(copy)?;
        Ok(())
    }

    // The text that is equal to another.
    fn lend(&self, text: &Utf8) -> &str
        requires { IsTrue (is_held self.now.held.keys text.now) }
        ensures { result.now ≡ text.now }
    {
        match self.held.get(text) {
            None => unreachable!(),
            Some(found) => found.as_str(),
        }
    }
}

fn texts_of(alloc: Global, events: &[Event]) -> Result<NodeTexts, AllocError>
    ensures { IfOk result (λ texts. texts.held.keys ≡ with_texts [] (event_texts events.now)) }
{
    let mut texts = NodeTexts {
        held: TextSet::new(alloc),
    };
    texts.add_events(events)?;
    Ok(texts)
}

/// The key of a path.
pub(crate) fn lent_path<'a>(texts: &'a NodeTexts, path: &Utf8) -> NodeKey<'a>
    requires { IsTrue (is_held texts.now.held.keys path.now) }
    ensures { node_of result ≡ Path path.now }
{
    NodeKey::Path(texts.lend(path))
}

/// The key of a row at any version.
pub(crate) fn lent_version<'a>(texts: &'a NodeTexts, member: &Member, version: u32) -> NodeKey<'a>
    requires { IsTrue (is_held texts.now.held.keys member.now.table) }
    ensures { node_of result ≡ Row (at_version member.now version) }
{
    NodeKey::Row(texts.lend(&member.table), member.row, version)
}

/// The key of a row at its version.
pub(crate) fn lent_row<'a>(texts: &'a NodeTexts, member: &Member) -> NodeKey<'a>
    requires { IsTrue (is_held texts.now.held.keys member.now.table) }
    ensures { node_of result ≡ Row member.now }
{
    lent_version(texts, member, member.version)
}
