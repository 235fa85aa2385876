//! Tables of names.

ghost use Rattle.std.specs.Prelude.{◌≡◌, ℕ, List as Items, [], None, Some, bytes_eq, cond, false};
ghost use Rattle.std.specs.Prelude.{length, IfOk, OnErr, OnOk};
ghost use Rattle.std.specs.BTreeMap.{get_by_text};
ghost use Rattle.std.specs.List.{list_any};
ghost use Rattle.script_code.specs.Names.{AreDistinct, IsFound, IsNamed, IsSlot, Extends};

use ldv_value::{Names, Utf8};
use std::alloc::{AllocError, Global};
use std::collections::BTreeMap;
use std::marker::Model;

/// The slots of names.
type NameSlots = BTreeMap<String, usize>;

/// Names, none of them twice. The slot of a name is its index, found in logarithmic time. Contracts see the
/// list of the names.
#[derive(Drop)]
pub struct NameTable {
    names: Names,
    slots: NameSlots,
}

impl Model for NameTable {
    ghost use Rattle.std.specs.Prelude.{List as Items, ℕ};
    ghost use Rattle.script_code.specs.Names.{IsNamed};

    ghost Value = { Items (Items ℕ) };

    ghost view = { λ a. a.names };

    ghost invariant = { λ a. IsNamed a.names a.slots };
}

impl NameTable {
    /// A table without names.
    pub(crate) fn new(alloc: Global) -> NameTable
        ensures { result ≡ [] }
    {
        NameTable {
            names: Names::new(alloc),
            slots: NameSlots::new(alloc),
        }
    }

    /// The number of names.
    pub fn len(&self) -> usize
        ensures { result ≡ length self.now }
    {
        self.names.len()
    }

    /// The slot of a name, from 0, or `None` if it isn't there.
    pub fn find(&self, name: &Utf8) -> Option<usize>
        ensures found { IsFound self.now name.now result }
        ensures distinct { AreDistinct self.now }
    {
        slot_in(&self.slots, name)
    }

    /// The slot of a name, which is added if it isn't there.
    #[tactic(auto, using(crate::proofs::KnownNames::keeps_same))]
    pub(crate) fn intern(&mut self, name: &Utf8) -> Result<usize, AllocError>
        ensures slot { IfOk result (IsSlot self.new name.now) }
        ensures keeps { Extends self.old self.new }
    {
        match self.find(name) {
            Some(slot) => Ok(slot),
            None => {
                let slot = add_name(&mut self.names, &mut self.slots, name)?;
                Ok(slot)
            }
        }
    }
}

fn slot_in(slots: &NameSlots, name: &Utf8) -> Option<usize>
    ensures { result ≡ get_by_text slots.now name.now }
{
    match slots.get(name.as_str()) {
        None => None,
        Some(slot) => Some(*slot),
    }
}

// Adds a name that isn't there, and gives its slot. On `AllocError` it isn't there afterwards.
#[tactic(auto, using(crate::proofs::KnownNames::keeps_same))]
fn add_name(names: &mut Names, slots: &mut NameSlots, name: &Utf8) -> Result<usize, AllocError>
    requires named { IsNamed names.old slots.old }
    requires absent { list_any (bytes_eq name.now) names.old ≡ false }
    ensures named { IsNamed names.new slots.new }
    ensures slot { IfOk result (IsSlot names.new name.now) }
    ensures keeps { Extends names.old names.new }
{
    let slot = names.len();
    let copy = name.copy()?;
    put_slot(slots, name, slot)?;
    match names.push(copy) {
        Ok(()) => Ok(slot),
        Err(error) => {
            take_slot(slots, name);
            Err(error)
        }
    }
}

// Gives a name a slot.
fn put_slot(slots: &mut NameSlots, name: &Utf8, slot: usize) -> Result<(), AllocError>
    ensures ok { OnOk result ((q : Items ℕ)
        → get_by_text slots.new q ≡ cond (bytes_eq name.now q) (Some slot) (get_by_text slots.old q)) }
    ensures err { OnErr result ((q : Items ℕ) → get_by_text slots.new q ≡ get_by_text slots.old q) }
{
    let key = String::from_str(name.allocator(), name.as_str())?;
    slots.insert(key, slot)?;
    Ok(())
}

// Removes a name.
fn take_slot(slots: &mut NameSlots, name: &Utf8)
    ensures { (q : Items ℕ)
        → get_by_text slots.new q ≡ cond (bytes_eq name.now q) None (get_by_text slots.old q) }
{
    slots.remove(name.as_str());
}
