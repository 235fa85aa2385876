//! The links of each event.

ghost use Rattle.std.specs.Prelude.{◌≡◌, ◌++◌, ◌∷◌, [], map, option_to_list, IfOk, IsTrue, OnOk};
ghost use Rattle.std.specs.List.{filter_map};
ghost use Rattle.trace_graph.specs.inner.Building.{parts_of, with_link, with_links, IsAt};
ghost use Rattle.trace_graph.specs.Links.{from_path, to_path, between_processes, statement_links, read_link};
ghost use Rattle.trace_graph.specs.Links.{made_link, version_before, at_version, change_link, asked_links};
ghost use Rattle.trace_graph.specs.Links.{link, event_links};
ghost use Rattle.trace_graph.specs.NodeTexts.{act_texts, read_texts, made_texts, is_held, are_held};
ghost use Rattle.trace_graph.specs.Types.{Row, Ask, Reply};

use crate::building::Building;
use crate::key::NodeKey;
use crate::texts::{NodeTexts, lent_path, lent_row, lent_version};
use ldv_value::Utf8;
use run_model::{Act, Event};
use sql_model::{Member, Need};
use std::alloc::AllocError;

impl<'a> Building<'a> {
    // What is at a path goes to a process.
    fn link_from_path(
        &mut self,
        texts: &'a NodeTexts,
        time: u32,
        path: &Utf8,
        process: u32,
    ) -> Result<(), AllocError>
        requires { IsTrue (is_held texts.now.held.keys path.now) }
        ensures { OnOk result (parts_of self.new
            ≡ with_link (parts_of self.old) (from_path time path.now process)) }
    {
        let source = lent_path(texts, path);
        self.link(source, NodeKey::Process(process), time)
    }

    // A process decides what is at a path.
    fn link_to_path(
        &mut self,
        texts: &'a NodeTexts,
        time: u32,
        process: u32,
        path: &Utf8,
    ) -> Result<(), AllocError>
        requires { IsTrue (is_held texts.now.held.keys path.now) }
        ensures { OnOk result (parts_of self.new
            ≡ with_link (parts_of self.old) (to_path time process path.now)) }
    {
        let target = lent_path(texts, path);
        self.link(NodeKey::Process(process), target, time)
    }

    // A process finds what is at a path, and changes it.
    fn link_both_ways(
        &mut self,
        texts: &'a NodeTexts,
        time: u32,
        path: &Utf8,
        process: u32,
    ) -> Result<(), AllocError>
        requires { IsTrue (is_held texts.now.held.keys path.now) }
        ensures { OnOk result (parts_of self.new ≡ with_links (parts_of self.old)
            (from_path time path.now process ∷ to_path time process path.now ∷ [])) }
    {
        self.link_from_path(texts, time, path, process)?;
        self.link_to_path(texts, time, process, path)
    }

    fn link_processes(&mut self, time: u32, source: u32, target: u32) -> Result<(), AllocError>
        ensures { OnOk result (parts_of self.new
            ≡ with_link (parts_of self.old) (between_processes time source target)) }
    {
        self.link(NodeKey::Process(source), NodeKey::Process(target), time)
    }

    // A process makes a child, which runs the script at a path.
    fn link_child(
        &mut self,
        texts: &'a NodeTexts,
        time: u32,
        path: &Utf8,
        process: u32,
        child: u32,
    ) -> Result<(), AllocError>
        requires { IsTrue (is_held texts.now.held.keys path.now) }
        ensures { OnOk result (parts_of self.new ≡ with_links (parts_of self.old)
            (from_path time path.now child ∷ from_path time path.now process
            ∷ between_processes time process child ∷ [])) }
    {
        self.link_from_path(texts, time, path, child)?;
        self.link_from_path(texts, time, path, process)?;
        self.link_processes(time, process, child)
    }

    // A process asks, and gets the reply. Returns the places of the statement and of the reply.
    fn link_statement(
        &mut self,
        time: u32,
        process: u32,
        statement: u32,
    ) -> Result<(usize, usize), AllocError>
        ensures parts { OnOk result (parts_of self.new
            ≡ with_links (parts_of self.old) (statement_links time process statement)) }
        ensures statement { IfOk result (λ places. IsAt (parts_of self.new).nodes (Ask statement) places.0) }
        ensures reply { IfOk result (λ places. IsAt (parts_of self.new).nodes (Reply statement) places.1) }
    {
        let from = self.place(NodeKey::Process(process))?;
        let ask = self.place(NodeKey::Ask(statement))?;
        let reply = self.place(NodeKey::Reply(statement))?;
        self.note_link(from, ask, time)?;
        self.note_link(ask, reply, time)?;
        self.note_link(reply, from, time)?;
        Ok((ask, reply))
    }

    // A version that was read goes to the reply, which is at a place.
    fn link_read(
        &mut self,
        texts: &'a NodeTexts,
        time: u32,
        statement: u32,
        reply: usize,
        need: &Need,
    ) -> Result<(), AllocError>
        requires place { IsAt (parts_of self.old).nodes (Reply statement) reply }
        requires held { IsTrue (is_held texts.now.held.keys need.now.member.table) }
        ensures parts { OnOk result (parts_of self.new
            ≡ with_link (parts_of self.old) (read_link time statement need.now)) }
        ensures reply { OnOk result (IsAt (parts_of self.new).nodes (Reply statement) reply) }
    {
        let key = lent_row(texts, &need.member);
        let source = self.place(key)?;
        self.note_link(source, reply, time)?;
        Ok(())
    }

    fn link_reads(
        &mut self,
        texts: &'a NodeTexts,
        time: u32,
        statement: u32,
        reply: usize,
        reads: &[Need],
    ) -> Result<(), AllocError>
        requires place { IsAt (parts_of self.old).nodes (Reply statement) reply }
        requires held { IsTrue (are_held texts.now.held.keys (read_texts reads.now)) }
        ensures { OnOk result (parts_of self.new
            ≡ with_links (parts_of self.old) (map (read_link time statement) reads.now)) }
    {
        for need in reads {
            self.link_read(texts, time, statement, reply, need)?;
        }
        Ok(())
    }

    // The statement, which is at a place, makes a version.
    fn link_version(
        &mut self,
        texts: &'a NodeTexts,
        time: u32,
        statement: u32,
        ask: usize,
        member: &Member,
    ) -> Result<(), AllocError>
        requires place { IsAt (parts_of self.old).nodes (Ask statement) ask }
        requires held { IsTrue (is_held texts.now.held.keys member.now.table) }
        ensures parts { OnOk result (parts_of self.new
            ≡ with_link (parts_of self.old) (made_link time statement member.now)) }
        ensures statement { OnOk result (IsAt (parts_of self.new).nodes (Ask statement) ask) }
    {
        let key = lent_row(texts, member);
        let target = self.place(key)?;
        self.note_link(ask, target, time)?;
        Ok(())
    }

    fn link_made(
        &mut self,
        texts: &'a NodeTexts,
        time: u32,
        statement: u32,
        ask: usize,
        made: &[Member],
    ) -> Result<(), AllocError>
        requires place { IsAt (parts_of self.old).nodes (Ask statement) ask }
        requires held { IsTrue (are_held texts.now.held.keys (made_texts made.now)) }
        ensures { OnOk result (parts_of self.new
            ≡ with_links (parts_of self.old) (map (made_link time statement) made.now)) }
    {
        for member in made {
            self.link_version(texts, time, statement, ask, member)?;
        }
        Ok(())
    }

    // A version of a row goes to that of the row itself.
    fn link_versions(
        &mut self,
        texts: &'a NodeTexts,
        time: u32,
        version: u32,
        member: &Member,
    ) -> Result<(), AllocError>
        requires { IsTrue (is_held texts.now.held.keys member.now.table) }
        ensures { OnOk result (parts_of self.new ≡ with_link (parts_of self.old)
            (link time (Row (at_version member.now version)) (Row member.now))) }
    {
        let source = lent_version(texts, member, version);
        let target = lent_row(texts, member);
        self.link(source, target, time)
    }

    // A version goes to the one that is made of it.
    fn link_change(
        &mut self,
        texts: &'a NodeTexts,
        time: u32,
        member: &Member,
    ) -> Result<(), AllocError>
        requires { IsTrue (is_held texts.now.held.keys member.now.table) }
        ensures { OnOk result (parts_of self.new
            ≡ with_links (parts_of self.old) (option_to_list (change_link time member.now))) }
    {
        match version_before(member.version) {
            None => Ok(()),
            Some(version) => self.link_versions(texts, time, version, member),
        }
    }

    #[tactic(auto, using(crate::proofs::LinkLists::with_option))]
    fn link_changes(
        &mut self,
        texts: &'a NodeTexts,
        time: u32,
        made: &[Member],
    ) -> Result<(), AllocError>
        requires { IsTrue (are_held texts.now.held.keys (made_texts made.now)) }
        ensures { OnOk result (parts_of self.new
            ≡ with_links (parts_of self.old) (filter_map (change_link time) made.now)) }
    {
        for member in made {
            self.link_change(texts, time, member)?;
        }
        Ok(())
    }

    // A statement, then all reads, then all versions made, and then what each was made of.
    #[tactic(auto, using(crate::proofs::LinkLists::with_more))]
    fn link_asked(
        &mut self,
        texts: &'a NodeTexts,
        event: &Event,
        statement: u32,
        reads: &[Need],
        made: &[Member],
    ) -> Result<(), AllocError>
        requires { IsTrue (are_held texts.now.held.keys
            (read_texts reads.now ++ made_texts made.now)) }
        ensures { OnOk result (parts_of self.new ≡ with_links (parts_of self.old)
            (asked_links event.now.step event.now.process statement reads.now made.now)) }
    {
        let places = self.link_statement(event.step, event.process, statement)?;
        let (ask, reply) = places;
        self.link_reads(texts, event.step, statement, reply, reads)?;
        self.link_made(texts, event.step, statement, ask, made)?;
        self.link_changes(texts, event.step, made)
    }

    /// Adds the links of an event. `made` processes were made before it.
    pub(crate) fn link_event(
        &mut self,
        texts: &'a NodeTexts,
        made: u32,
        event: &Event,
    ) -> Result<(), AllocError>
        requires { IsTrue (are_held texts.now.held.keys (act_texts event.now.act)) }
        ensures { OnOk result (parts_of self.new
            ≡ with_links (parts_of self.old) (event_links made event.now)) }
    {
        let time = event.step;
        let process = event.process;
        match &event.act {
            Act::Started { path } => self.link_from_path(texts, time, path, process),
            Act::Spawned { path } => self.link_child(texts, time, path, process, made),
            Act::Unspawned { path, found: _ } => self.link_from_path(texts, time, path, process),
            Act::OpenedRead { path } => self.link_from_path(texts, time, path, process),
            Act::OpenedWrite { path } => self.link_to_path(texts, time, process, path),
            Act::OpenedAppend { path, found: _ } => self.link_to_path(texts, time, process, path),
            Act::OpenedNew { path } => self.link_both_ways(texts, time, path, process),
            Act::Unopened { path, found: _ } => self.link_from_path(texts, time, path, process),
            Act::Read { path } => self.link_from_path(texts, time, path, process),
            Act::Wrote { path } => self.link_to_path(texts, time, process, path),
            Act::Removed { path } => self.link_both_ways(texts, time, path, process),
            Act::Tested { path, found: _ } => self.link_from_path(texts, time, path, process),
            Act::Waited { child } => self.link_processes(time, *child, process),
            Act::Ended { status: _ } => Ok(()),
            Act::Asked {
                statement,
                tables: _,
                reads,
                made,
            } => self.link_asked(texts, event, *statement, reads.items(), made.items()),
        }
    }
}

// The version one less, if there is one.
fn version_before(version: u32) -> Option<u32>
    ensures { result ≡ version_before version }
{
    if version == 0 {
        None
    } else {
        Some(version - 1)
    }
}
