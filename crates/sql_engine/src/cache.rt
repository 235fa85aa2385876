//! The texts that were asked more than once, each read and checked for the kinds of its parameters.
//!
//! The second question of a text makes its entry, so a text that is asked once costs no more than a number
//! for it. An entry serves the questions with its text and with parameters of its kinds.

ghost use Rattle.std.specs.Prelude.{◌≡◌, ◌<◌, ◌≤◌, ◌^◌, IfOk, IfSome, length, vec_len};
ghost use Rattle.sql_engine.specs.Types.{Catalog};
ghost use Rattle.sql_engine.specs.inner.Keeping.{IsCacheOf, IsEntryOf};
ghost use Rattle.sql_template.specs.Checking.{IsReadyFor};

use ldv_value::{Value, Values};
use sql_model::{Catalog, Checked};
use sql_template::Prepared;
use std::alloc::{AllocError, Global};

// How many entries are kept, and how many accepted questions are remembered.
const MOST_ENTRIES: usize = 64;
// How many bytes a text of an entry has at most, and how many parameters.
const MOST_BYTES: usize = 1_024;

const MOST_PARAMS: usize = 255;
// The numbers of FNV-1a.
const FIRST_MARK: u64 = 0xcbf2_9ce4_8422_2325;

const MARK_FACTOR: u64 = 0x100_0000_01b3;

/// A text that is read and checked, and the mark of its questions.
#[derive(Drop)]
pub(crate) struct Entry {
    mark: u64,
    prepared: Prepared,
}

/// Texts that are read and checked, each with the marks by which they are found.
#[derive(Drop)]
pub(crate) struct Cache {
    entries: Vec<Entry>,
    // The place of the entry that was found last.
    last: usize,
    // The mark of the last question that no entry served; 0 is none.
    asked: u64,
    // Marks of questions that were accepted, each at the place that its remainder names.
    accepted: [u64; MOST_ENTRIES],
}

// A number that few questions share, made of the bytes of a text and of the kinds of its parameters.
fn mark_of(text: &str, params: &Values) -> u64 {
    mark_kinds(mark_bytes(text.as_bytes()), params.items())
}

fn mark_bytes(text: &[u8]) -> u64 {
    let mut mark = FIRST_MARK;
    for byte in text {
        mark = next_mark(mark, *byte as u64);
    }
    mark
}

fn mark_kinds(begun: u64, params: &[Value]) -> u64 {
    let mut mark = begun;
    for value in params {
        mark = next_mark(mark, kind_number(value));
    }
    mark
}

fn next_mark(mark: u64, part: u64) -> u64 {
    (mark ^ part).wrapping_mul(MARK_FACTOR)
}

fn kind_number(value: &Value) -> u64 {
    match value {
        Value::Null => 256,
        Value::Int(_) => 257,
        Value::Text(_) => 258,
    }
}

// A place for a mark.
fn place_of(mark: u64) -> usize
    ensures { result < 64 }
{
    (mark % MOST_ENTRIES as u64) as usize
}

impl Cache {
    /// No texts.
    pub(crate) fn new(alloc: Global) -> Self
        ensures { (catalog : Catalog) → IsCacheOf catalog result }
    {
        Cache {
            entries: Vec::new(alloc),
            last: 0,
            asked: 0,
            accepted: [0; MOST_ENTRIES],
        }
    }

    /// The statement of a text with parameters, read and checked, if an entry serves it. The second question
    /// of a text makes its entry. On `AllocError` the entries hold as before.
    pub(crate) fn find(
        &mut self,
        alloc: Global,
        text: &str,
        params: &Values,
        catalog: &Catalog,
    ) -> Result<Option<Checked>, AllocError>
        requires { IsCacheOf catalog.now self.old }
        ensures kept { IsCacheOf catalog.now self.new }
        ensures found { IfOk result (λ found. IfSome found (IsReadyFor text.now params.now catalog.now)) }
    {
        self.asked = 0;
        let found = self.last_for(alloc, text, params, catalog)?;
        match found {
            Some(checked) => Ok(Some(checked)),
            None => self.find_by_mark(alloc, text, params, catalog),
        }
    }

    /// Notes that the last question was accepted, so that its next one makes an entry.
    pub(crate) fn accept(&mut self)
        ensures { self.new.entries.items ≡ self.old.entries.items }
    {
        let mark = self.asked;
        if mark != 0 {
            self.accepted[place_of(mark)] = mark;
        }
    }

    // The same of the entry that was found last.
    fn last_for(
        &self,
        alloc: Global,
        text: &str,
        params: &Values,
        catalog: &Catalog,
    ) -> Result<Option<Checked>, AllocError>
        requires { IsCacheOf catalog.now self.now }
        ensures { IfOk result (λ found. IfSome found (IsReadyFor text.now params.now catalog.now)) }
    {
        if self.last >= self.entries.len() {
            return Ok(None);
        }
        let entry = &self.entries[self.last];
        entry.prepared.checked_for(alloc, text, params, catalog)
    }

    // The same of the entry with the mark of the question.
    fn find_by_mark(
        &mut self,
        alloc: Global,
        text: &str,
        params: &Values,
        catalog: &Catalog,
    ) -> Result<Option<Checked>, AllocError>
        requires { IsCacheOf catalog.now self.old }
        ensures kept { IsCacheOf catalog.now self.new }
        ensures found { IfOk result (λ found. IfSome found (IsReadyFor text.now params.now catalog.now)) }
    {
        if text.len() > MOST_BYTES {
            return Ok(None);
        }
        if params.len() > MOST_PARAMS {
            return Ok(None);
        }
        self.go_to(alloc, text, params, catalog)?;
        self.last_for(alloc, text, params, catalog)
    }

    // Notes the entry with the mark of a question as the last one, if there is one or one is made.
    fn go_to(
        &mut self,
        alloc: Global,
        text: &str,
        params: &Values,
        catalog: &Catalog,
    ) -> Result<(), AllocError>
        requires cache { IsCacheOf catalog.now self.old }
        requires few { length params.now < 2 ^ 32 }
        requires short { length text.now ≤ 1024 }
        ensures { IsCacheOf catalog.now self.new }
    {
        let mark = mark_of(text, params);
        match self.entry_with(mark) {
            Some(place) => {
                self.last = place;
                Ok(())
            }
            None => self.learn(alloc, mark, text, params, catalog),
        }
    }

    // The place of the entry with a mark.
    fn entry_with(&self, mark: u64) -> Option<usize> {
        self.entries.iter().position(|entry| entry.mark == mark)
    }

    // Makes the entry of a question that was accepted before; else notes the question.
    fn learn(
        &mut self,
        alloc: Global,
        mark: u64,
        text: &str,
        params: &Values,
        catalog: &Catalog,
    ) -> Result<(), AllocError>
        requires cache { IsCacheOf catalog.now self.old }
        requires few { length params.now < 2 ^ 32 }
        requires short { length text.now ≤ 1024 }
        ensures { IsCacheOf catalog.now self.new }
    {
        if self.accepted[place_of(mark)] != mark {
            self.asked = mark;
            return Ok(());
        }
        let made = Prepared::of(alloc, text, params, catalog)?;
        match made {
            None => Ok(()),
            Some(prepared) => self.keep(Entry { mark, prepared }, catalog),
        }
    }

    // Keeps an entry, behind the others or in the place of one.
    fn keep(&mut self, entry: Entry, catalog: &Catalog) -> Result<(), AllocError>
        requires cache { IsCacheOf catalog.now self.old }
        requires entry { IsEntryOf catalog.now entry }
        ensures { IsCacheOf catalog.now self.new }
    {
        if self.entries.len() < MOST_ENTRIES {
            self.add(entry, catalog)
        } else {
            self.replace(entry, catalog);
            Ok(())
        }
    }

    #[tactic(auto, using(crate::proofs::CacheLaws::entry_rules))]
    fn add(&mut self, entry: Entry, catalog: &Catalog) -> Result<(), AllocError>
        requires cache { IsCacheOf catalog.now self.old }
        requires room { vec_len self.old.entries < 64 }
        requires entry { IsEntryOf catalog.now entry }
        ensures { IsCacheOf catalog.now self.new }
    {
        let place = self.entries.len();
        self.entries.push(entry)?;
        self.last = place;
        Ok(())
    }

    #[tactic(auto, using(crate::proofs::CacheLaws::entry_rules))]
    fn replace(&mut self, entry: Entry, catalog: &Catalog)
        requires cache { IsCacheOf catalog.now self.old }
        requires full { 64 ≤ vec_len self.old.entries }
        requires entry { IsEntryOf catalog.now entry }
        ensures { IsCacheOf catalog.now self.new }
    {
        let place = place_of(entry.mark);
        self.entries[place] = entry;
        self.last = place;
    }
}
