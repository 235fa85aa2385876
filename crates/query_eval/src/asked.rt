//! The keys by which joined rows look slots up. Where the rows are few beside the slots, only slots under one
//! of these keys are listed.

ghost use Rattle.std.specs.Prelude.{◌≡◌, true, IfOk, OnOk, Some};
ghost use Rattle.query_eval.specs.inner.Asked.{has_key, is_asked, AreAsked, IsAskedBy, KeepKeys};
ghost use Rattle.query_eval.specs.inner.Joining.{key_of, values_before};
ghost use Rattle.query_eval.specs.inner.Slots.{values_at};

use crate::index::{TieKey, key_before};
use crate::probe::Probe;
use crate::source::Source;
use lineage::{FlatRows, split_row};
use std::alloc::{AllocError, Global};
use std::collections::BTreeSet;

/// Keys of joined rows.
pub(crate) type AskedKeys<'a> = BTreeSet<TieKey<'a>>;

/// Whether a key is among those that are asked for: each is, where there is no set of them.
pub(crate) fn is_asked<'a>(asked: &Option<AskedKeys<'a>>, key: &TieKey<'a>) -> bool
    ensures { result ≡ is_asked asked.now key.now }
{
    match asked {
        None => true,
        Some(keys) => keys.contains(key),
    }
}

// Adds a key.
fn add_key<'a>(keys: &mut AskedKeys<'a>, key: TieKey<'a>) -> Result<(), AllocError>
    ensures kept { OnOk result (KeepKeys keys.old keys.new) }
    ensures added { OnOk result (has_key keys.new key.entry ≡ true) }
{
    keys.insert(key)?;
    Ok(())
}

// Adds the key of the joined row in some slots, if it has one.
fn ask_for<'a>(
    alloc: Global,
    keys: &mut AskedKeys<'a>,
    sources: &'a [Source],
    slots: &[u32],
    ties: &[Probe],
) -> Result<(), AllocError>
    ensures kept { OnOk result (KeepKeys keys.old keys.new) }
    ensures asked { OnOk result (IsAskedBy (Some keys.new) (key_of (values_before ties.now
        (values_at sources.now slots.now)))) }
{
    let own = key_before(alloc, sources, slots, ties)?;
    match own {
        None => Ok(()),
        Some(key) => add_key(keys, key),
    }
}

// The keys of all prefixes.
#[tactic(auto, using(lineage::proofs::FlatLaws::level_rules))]
fn keys_of<'a>(
    alloc: Global,
    prefixes: &FlatRows,
    sources: &'a [Source],
    ties: &[Probe],
) -> Result<AskedKeys<'a>, AllocError>
    ensures { IfOk result (λ keys. AreAsked (Some keys) sources.now ties.now prefixes.now.rows) }
{
    let width = prefixes.width();
    let mut keys = BTreeSet::new(alloc);
    let mut left = prefixes.slots();
    let mut count = prefixes.len();
    'rows: while count > 0 {
        count -= 1;
        let (row, rest) = split_row(left, width);
        ask_for(alloc, &mut keys, sources, row, ties)?;
        left = rest;
    }
    Ok(keys)
}

/// The keys of all prefixes, if these are less than half of so many slots; no set otherwise, since it would
/// cost more than it spares.
pub(crate) fn keys_asked<'a>(
    alloc: Global,
    prefixes: &FlatRows,
    sources: &'a [Source],
    slots: usize,
    ties: &[Probe],
) -> Result<Option<AskedKeys<'a>>, AllocError>
    ensures { IfOk result (λ asked. AreAsked asked sources.now ties.now prefixes.now.rows) }
{
    if prefixes.len() >= slots / 2 {
        return Ok(None);
    }
    let keys = keys_of(alloc, prefixes, sources, ties)?;
    Ok(Some(keys))
}
