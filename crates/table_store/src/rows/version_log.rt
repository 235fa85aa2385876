//! What rows were before: the versions that others replaced, one after the other in one list, and when rows
//! ended. A row that never changed takes no memory here.

ghost use Rattle.std.specs.Prelude.{◌≡◌, ◌≢◌, ℕ, ◌+◌, ◌-◌, ◌^◌, ◌<◌, ◌≤◌, [], ◌∷◌, ◌++◌, Some, None, IfSome};
ghost use Rattle.std.specs.Prelude.{OnOk, IsOk, length, slice_index_or, slice_set};
ghost use Rattle.std.specs.Option.{option_map};
ghost use Rattle.row_version.specs.History.{write_at, as_of};
ghost use Rattle.table_store.specs.inner.Past.{past, end_in, no_version, count_at, AreLinked};

use crate::rows::logged::Logged;
use column_store::reserve_eighth;
use ldv_value::Values;
use std::alloc::{AllocError, Global};
use std::marker::Model;

/// What rows were before. Contracts see the versions that others replaced, `spare`, the number of versions
/// that can be added without more memory, `slots`, the number of slots whose rows can get one, and the times
/// at which rows ended.
#[derive(Drop)]
pub(crate) struct VersionLog {
    held: Vec<Logged>,
    // By slot: one more than the place of the row's last version, or 0. Slots past the end have none.
    last: Vec<usize>,
    // By slot: when the row ended, or 0. Rows in slots past the end stand.
    ends: Vec<u32>,
}

impl Model for VersionLog {
    ghost use Rattle.table_store.specs.inner.Past.{LogView};

    ghost Value = { LogView };

    ghost use Rattle.table_store.specs.inner.Past.{seen_log, IsLog};

    ghost view = { seen_log };

    ghost invariant = { IsLog };
}

impl VersionLog {
    /// No versions and no ends. It takes no memory.
    pub(crate) fn new(alloc: Global) -> VersionLog
        ensures versions { result.versions ≡ [] }
        ensures ends { result.ends ≡ [] }
    {
        VersionLog {
            held: Vec::new(alloc),
            last: Vec::new(alloc),
            ends: Vec::new(alloc),
        }
    }

    /// Reserves memory for `more` versions, fewer than 2^32, of rows in the first `slots` slots. On
    /// `AllocError` the versions are as they were.
    pub(crate) fn reserve(&mut self, slots: usize, more: usize) -> Result<(), AllocError>
        requires slots { slots < 2 ^ 32 }
        requires more { more < 2 ^ 32 }
        ensures versions { self.new.versions ≡ self.old.versions }
        ensures ends { self.new.ends ≡ self.old.ends }
        ensures slots { OnOk result (slots ≤ self.new.slots) }
        ensures room { OnOk result (more ≤ self.new.spare) }
    {
        cover(&mut self.last, slots)?;
        reserve_eighth(&mut self.held, more)?;
        Ok(())
    }

    /// Adds the version that the row in a slot had since a time. `reserve` has reserved the memory.
    pub(crate) fn push(&mut self, slot: usize, since: u32, values: Values) -> Result<(), AllocError>
        requires within { slot < self.old.slots }
        requires small { slot < 2 ^ 32 }
        requires room { 1 ≤ self.old.spare }
        requires few { length (past self.old.versions slot) + 1 < 2 ^ 32 }
        ensures here { past self.new.versions slot
            ≡ past self.old.versions slot ++ write_at since values ∷ [] }
        ensures others { (k : ℕ) → k ≢ slot → past self.new.versions k ≡ past self.old.versions k }
        ensures spare { self.old.spare ≤ self.new.spare + 1 }
        ensures slots { self.new.slots ≡ self.old.slots }
        ensures ends { self.new.ends ≡ self.old.ends }
        ensures succeeds { IsOk result }
    {
        let before = self.last[slot];
        let count = count_to(self.held.as_slice(), before) + 1;
        self.held.push(Logged {
            slot: slot as u32,
            since,
            before,
            count,
            values,
        })?;
        self.last[slot] = self.held.len();
        Ok(())
    }

    /// The values of the row in a slot after a time, of its versions in the log; `None` if none is that old.
    pub(crate) fn values_by(&self, slot: usize, time: u32) -> Option<&Values>
        ensures { option_map (λ x. x.now) result ≡ as_of (past self.now.versions slot) time }
    {
        match place_by(self.held.as_slice(), self.last.as_slice(), slot, time) {
            None => None,
            Some(place) => {
                let version = &self.held[place];
                Some(&version.values)
            }
        }
    }

    /// How many versions of the row in a slot there are.
    pub(crate) fn count(&self, slot: usize) -> u32
        ensures { result ≡ length (past self.now.versions slot) }
    {
        count_to(self.held.as_slice(), head(self.last.as_slice(), slot))
    }

    /// Makes a place for the end of each row in the first `slots` slots. On `AllocError` the ends are as they
    /// were.
    pub(crate) fn reserve_ends(&mut self, slots: usize) -> Result<(), AllocError>
        requires { slots < 2 ^ 32 }
        ensures versions { self.new.versions ≡ self.old.versions }
        ensures ends { (k : ℕ) → end_in self.new.ends k ≡ end_in self.old.ends k }
        ensures long { OnOk result (slots ≤ length self.new.ends) }
    {
        cover_ends(&mut self.ends, slots)?;
        Ok(())
    }

    /// Notes when the row in a slot ended. `reserve_ends` has made the place.
    pub(crate) fn end(&mut self, slot: usize, time: u32)
        requires { slot < length self.old.ends }
        ensures versions { self.new.versions ≡ self.old.versions }
        ensures ends { self.new.ends ≡ slice_set self.old.ends slot time }
    {
        self.ends[slot] = time;
    }

    /// When the row in a slot ended; 0 if it stands.
    pub(crate) fn end_at(&self, slot: usize) -> u32
        ensures { result ≡ end_in self.now.ends slot }
    {
        match self.ends.get(slot) {
            None => 0,
            Some(end) => *end,
        }
    }
}

// The link to the last version of a slot.
fn head(last: &[usize], slot: usize) -> usize
    ensures { result ≡ slice_index_or last.now slot 0 }
{
    match last.get(slot) {
        None => 0,
        Some(link) => *link,
    }
}

// How many versions of its row there are up to the one to which a link leads.
fn count_to(held: &[Logged], link: usize) -> u32
    requires { link ≤ length held.now }
    ensures { result ≡ count_at held.now link }
{
    if link == 0 {
        return 0;
    }
    let version = &held[link - 1];
    version.count
}

// The place of the last version of a slot that had begun by a time, found from the last one back.
fn place_by(held: &[Logged], last: &[usize], slot: usize, time: u32) -> Option<usize>
    requires { AreLinked held.now last.now }
    ensures found { IfSome result (λ place. (place < length held.now)
        × (as_of (past held.now slot) time ≡ Some (slice_index_or held.now place no_version).values)) }
    ensures absent { result ≡ None → as_of (past held.now slot) time ≡ None }
{
    let mut link = head(last, slot);
    'back: while link > 0 {
        let place = link - 1;
        let version = &held[place];
        if version.since <= time {
            return Some(place);
        }
        link = version.before;
    }
    None
}

// Adds zeros up to a length. On `AllocError` there may be fewer.
fn cover(links: &mut Vec<usize>, slots: usize) -> Result<(), AllocError>
    requires { slots < 2 ^ 32 }
    ensures same { (k : ℕ) → slice_index_or links.new.items k 0 ≡ slice_index_or links.old.items k 0 }
    ensures long { OnOk result (slots ≤ length links.new.items) }
{
    if slots <= links.len() {
        return Ok(());
    }
    reserve_eighth(links, slots - links.len())?;
    'zeros: while links.len() < slots {
        links.push(0)?;
    }
    Ok(())
}

// The same for ends.
fn cover_ends(ends: &mut Vec<u32>, slots: usize) -> Result<(), AllocError>
    requires { slots < 2 ^ 32 }
    ensures same { (k : ℕ) → slice_index_or ends.new.items k 0 ≡ slice_index_or ends.old.items k 0 }
    ensures long { OnOk result (slots ≤ length ends.new.items) }
{
    if slots <= ends.len() {
        return Ok(());
    }
    reserve_eighth(ends, slots - ends.len())?;
    'zeros: while ends.len() < slots {
        ends.push(0)?;
    }
    Ok(())
}
