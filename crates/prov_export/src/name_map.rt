//! The names of members by their places.

ghost use Rattle.std.specs.Prelude.{◌≡◌, ℕ, Some, None, ◌==◌, if◌then◌else◌, option_map, OnOk, IfOk};
ghost use Rattle.std.specs.Option.{option_or};
ghost use Rattle.serde_json.specs.View.{view, members_view};
ghost use Rattle.prov_export.specs.inner.Names.{names_of};
ghost use Rattle.prov_export.specs.Reading.{name_if, named_at};

use crate::members::{Members, number_at};
use serde_json::Value;
use std::alloc::{AllocError, Global};
use std::collections::BTreeMap;

/// Names by places. If two members have the same place, the first keeps it.
pub(crate) type Names<'a> = BTreeMap<u128, &'a str>;

/// The name of the member at a place.
pub(crate) fn name_of<'a>(names: &Names<'a>, place: u128) -> Option<&'a str>
    ensures { option_map (λ name. name.now) result ≡ names_of names.now place }
{
    names.get(&place).copied()
}

fn put_name<'a>(names: &mut Names<'a>, place: u128, name: &'a str) -> Result<(), AllocError>
    ensures { OnOk result ((other : ℕ) → names_of names.new other
        ≡ (if place == other then Some name.now else names_of names.old other)) }
{
    names.insert(place, name)?;
    Ok(())
}

// Notes the name of a member that has a place, unless one before it has that place.
fn note_at<'a>(names: &mut Names<'a>, place: u128, name: &'a str) -> Result<(), AllocError>
    ensures { OnOk result ((other : ℕ) → names_of names.new other
        ≡ option_or (names_of names.old other) (if other == place then Some name.now else None)) }
{
    match name_of(names, place) {
        Some(_first) => Ok(()),
        None => put_name(names, place, name),
    }
}

fn note<'a>(names: &mut Names<'a>, name: &'a str, value: &Value) -> Result<(), AllocError>
    ensures { OnOk result ((place : ℕ) → names_of names.new place
        ≡ option_or (names_of names.old place) (name_if place name.now (view value.now))) }
{
    match number_at(value, "ldv:place") {
        None => Ok(()),
        Some(place) => note_at(names, place as u128, name),
    }
}

fn note_all<'a>(names: &mut Names<'a>, members: &'a Members) -> Result<(), AllocError>
    ensures { OnOk result ((place : ℕ) → names_of names.new place
        ≡ option_or (names_of names.old place) (named_at place (members_view members.now.entries))) }
{
    for (name, value) in members.iter() {
        note(names, name.as_str(), value)?;
    }
    Ok(())
}

/// The names of the members of two objects by their places.
pub(crate) fn names_in<'a>(
    alloc: Global,
    first: &'a Members,
    second: &'a Members,
) -> Result<Names<'a>, AllocError>
    ensures { IfOk result (λ names. (place : ℕ) → names_of names place
        ≡ option_or (named_at place (members_view first.now.entries))
        (named_at place (members_view second.now.entries))) }
{
    let mut names = Names::new(alloc);
    note_all(&mut names, first)?;
    note_all(&mut names, second)?;
    Ok(names)
}
