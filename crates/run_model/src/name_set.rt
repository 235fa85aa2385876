//! Sets of names.

ghost use Rattle.std.specs.Prelude.{◌≡◌, ◌||◌, List, ℕ, OnErr, OnOk, IfOk, IfNone, IfSome, Bool, false};
ghost use Rattle.std.specs.List.{list_any};
ghost use Rattle.sql_model.specs.Scope.{same_text};
ghost use Rattle.run_model.specs.Packing.{has_name};
ghost use Rattle.run_model.specs.Slice.{asks_table, is_table_needed};

use crate::event::{Act, Event};
use ldv_value::Utf8;
use std::alloc::{AllocError, Global};
use std::collections::BTreeMap;

/// A set of names.
pub type NameSet = BTreeMap<String, ()>;

/// Whether a name is in the set.
pub fn has_name(names: &NameSet, name: &Utf8) -> bool
    ensures { result ≡ has_name names.now name.now }
{
    names.contains_key(name.as_str())
}

/// Puts a name into the set. It is copied if the set hasn't got it. `AllocError` means out of memory only,
/// and then the set is as before.
#[tactic(auto, using(crate::proofs::NameLaws::names_unchanged))]
pub fn add_name(alloc: Global, names: &mut NameSet, name: &Utf8) -> Result<(), AllocError>
    ensures added { OnOk result ((q : List ℕ) → has_name names.new q
        ≡ (has_name names.old q || same_text name.now q)) }
    ensures err { OnErr result ((q : List ℕ) → has_name names.new q ≡ has_name names.old q) }
{
    if has_name(names, name) {
        return Ok(());
    }
    let key = String::from_str(alloc, name.as_str())?;
    names.insert(key, ())?;
    Ok(())
}

// Puts names into the set.
fn add_names(alloc: Global, names: &mut NameSet, more: &[Utf8]) -> Result<(), AllocError>
    ensures { OnOk result ((q : List ℕ) → has_name names.new q
        ≡ (has_name names.old q || list_any (λ name. same_text name q) more.now)) }
{
    for name in more {
        add_name(alloc, names, name)?;
    }
    Ok(())
}

/// The set of these names. `AllocError` means out of memory only.
pub fn set_of_names(alloc: Global, names: &[Utf8]) -> Result<NameSet, AllocError>
    ensures { IfOk result (λ set. (q : List ℕ) → has_name set q
        ≡ list_any (λ name. same_text name q) names.now) }
{
    let mut set = NameSet::new(alloc);
    add_names(alloc, &mut set, names)?;
    Ok(set)
}

// Adds the tables that a statement asks.
fn add_tables(alloc: Global, names: &mut NameSet, act: &Act) -> Result<(), AllocError>
    ensures { OnOk result ((q : List ℕ) → has_name names.new q
        ≡ (has_name names.old q || asks_table q act.now)) }
{
    match act {
        Act::Asked {
            statement: _,
            tables,
            reads: _,
            made: _,
        } => add_names(alloc, names, tables.items()),
        _ => Ok(()),
    }
}

/// The names of the tables that statements ask.
pub fn tables_asked(alloc: Global, events: &[Event]) -> Result<NameSet, AllocError>
    ensures { IfOk result (λ names. (q : List ℕ) → has_name names q ≡ is_table_needed events.now q) }
{
    let mut names = NameSet::new(alloc);
    for event in events {
        add_tables(alloc, &mut names, &event.act)?;
    }
    Ok(names)
}
