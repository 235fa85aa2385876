//! Rows of a statement, grouped by their table in the format.

ghost use Rattle.std.specs.Prelude.{◌≡◌, ◌++◌, [], IfOk, OnOk, ℕ, List};
ghost use Rattle.std.specs.List.{flat_map, AllByRecursion};
ghost use Rattle.std.specs.Int.{w16};
ghost use Rattle.package_codec.specs.Fields.{Decodes, Makes, list_spelling};
ghost use Rattle.package_codec.specs.Groups.{group_of_one, with_part, after, add, groups, group_spelling};
ghost use Rattle.package_codec.specs.Groups.{TypedGroup, group_of, neighbours_differ, ungroup, items_of_groups};
ghost use Rattle.package_codec.specs.Groups.{grouped_at};

use crate::codec::{Decode, Encode, decode_list, encode_list};
use crate::cursor::Cursor;
use crate::decode_stop::DecodeStop;
use crate::parts::text::{decode_text, encode_text};
use crate::width::Width;
use ldv_value::{Bytes, List as Listed, Utf8};
use sql_model::is_sql_name;
use std::alloc::{AllocError, Global};

/// A row of a table, with the part of it that the format writes after the table's name.
pub(crate) trait GroupedRow<P>: Drop {
    ghost table_of: { Self → List ℕ };

    ghost part_of: { Self → P };

    ghost place: { List ℕ → P → Self };

    /// The table's name.
    fn table(&self) -> &Utf8
        ensures { result.now ≡ table_of self.now };

    /// The part of it that the format writes after the table's name.
    fn payload(&self) -> P
        ensures { result ≡ part_of self.now };

    /// The row with this table and this part.
    fn of_group(table: Utf8, part: P) -> Self
        ensures { result ≡ place table part };
}

/// The rows of one table.
#[derive(Drop)]
pub(crate) struct Group<P> {
    pub(crate) table: Utf8,
    pub(crate) parts: Listed<P>,
}

impl<P: Encode> Encode for Group<P> {
    ghost spelling = { group_spelling P.spelling };

    ghost typed = { TypedGroup P.typed };

    fn encode(&self, to: &mut Bytes) -> Result<(), AllocError> {
        encode_text(&self.table, to)?;
        encode_list(Width::Four, &self.parts, to)
    }
}

impl<P: Decode> Decode for Group<P> {
    ghost use Rattle.package_codec.specs.Groups.{group_at};

    ghost reading = { group_at P.reading };

    fn decode(alloc: Global, cursor: &mut Cursor) -> Result<Group<P>, DecodeStop> {
        let table = decode_text(alloc, cursor)?;
        let parts = decode_list(alloc, Width::Four, cursor)?;
        group_of(table, parts)
    }
}

// A group has a name and isn't empty.
fn group_of<P: Drop>(table: Utf8, parts: Listed<P>) -> Result<Group<P>, DecodeStop>
    ensures { Makes result (group_of (record { 0 = table; 1 = parts })) }
{
    if is_sql_name(table.as_str()) && !parts.is_empty() {
        Ok(Group { table, parts })
    } else {
        Err(DecodeStop::Malformed)
    }
}

/// Appends rows, group by group.
pub(crate) fn encode_grouped<P: Encode, X: GroupedRow<P>>(
    items: &Listed<X>,
    to: &mut Bytes,
) -> Result<(), AllocError>
    ensures bytes { OnOk result (to.new ≡ to.old
        ++ list_spelling w16 (group_spelling P.spelling) (groups X.table_of X.part_of items.now)) }
    ensures typed { OnOk result
        (AllByRecursion (TypedGroup P.typed) (groups X.table_of X.part_of items.now)) }
{
    let groups = groups_of(to.allocator(), items)?;
    encode_list(Width::Two, &groups, to)
}

fn groups_of<P: Drop, X: GroupedRow<P>>(
    alloc: Global,
    items: &Listed<X>,
) -> Result<Listed<Group<P>>, AllocError>
    ensures { IfOk result (λ made. made ≡ groups X.table_of X.part_of items.now) }
{
    let mut found = Vec::new(alloc);
    for item in items.items() {
        add(alloc, &mut found, item)?;
    }
    Ok(Listed::of_vec(found))
}

// Adds a row to the last group where that is its table's, else in a group of its own.
fn add<P: Drop, X: GroupedRow<P>>(
    alloc: Global,
    found: &mut Vec<Group<P>>,
    item: &X,
) -> Result<(), AllocError>
    ensures { OnOk result (found.new.items ≡ add X.table_of X.part_of found.old.items item.now) }
{
    match found.pop() {
        None => {
            found.push(group_of_one(alloc, item)?)?;
            Ok(())
        }
        Some(last) => add_after(alloc, found, last, item),
    }
}

fn add_after<P: Drop, X: GroupedRow<P>>(
    alloc: Global,
    found: &mut Vec<Group<P>>,
    last: Group<P>,
    item: &X,
) -> Result<(), AllocError>
    ensures { OnOk result (found.new.items ≡ found.old.items ++ after X.table_of X.part_of last item.now) }
{
    if last.table == *item.table() {
        found.push(with_part(last, item.payload())?)?;
        Ok(())
    } else {
        found.push(last)?;
        found.push(group_of_one(alloc, item)?)?;
        Ok(())
    }
}

fn group_of_one<P: Drop, X: GroupedRow<P>>(alloc: Global, item: &X) -> Result<Group<P>, AllocError>
    ensures { IfOk result (λ made. made ≡ group_of_one X.table_of X.part_of item.now) }
{
    let table = item.table().copy()?;
    let mut parts = Listed::new(alloc);
    parts.push(item.payload())?;
    Ok(Group { table, parts })
}

fn with_part<P: Drop>(group: Group<P>, part: P) -> Result<Group<P>, AllocError>
    ensures { IfOk result (λ made. made ≡ with_part group part) }
{
    let Group { table, mut parts } = group;
    parts.push(part)?;
    Ok(Group { table, parts })
}

/// Reads rows, group by group. Neighbouring groups have different tables.
pub(crate) fn decode_grouped<P: Decode + Copy, X: GroupedRow<P>>(
    alloc: Global,
    cursor: &mut Cursor,
) -> Result<Listed<X>, DecodeStop>
    ensures { Decodes result cursor.new (grouped_at X.place P.reading cursor.old) }
{
    let groups = decode_list(alloc, Width::Two, cursor)?;
    items_of_groups(alloc, &groups)
}

fn items_of_groups<P: Copy + Drop, X: GroupedRow<P>>(
    alloc: Global,
    groups: &Listed<Group<P>>,
) -> Result<Listed<X>, DecodeStop>
    ensures { Makes result (items_of_groups X.place groups.now) }
{
    if neighbours_differ(groups) {
        Ok(ungroup_all(alloc, groups)?)
    } else {
        Err(DecodeStop::Malformed)
    }
}

fn neighbours_differ<P>(groups: &Listed<Group<P>>) -> bool
    ensures { result ≡ neighbours_differ [] groups.now }
{
    let mut before: &[u8] = &[];
    for group in groups.items() {
        let table = group.table.as_str().as_bytes();
        if table == before {
            return false;
        }
        before = table;
    }
    true
}

// How many rows groups have: their list gets just this room.
fn count_parts<P>(groups: &[Group<P>]) -> usize {
    let mut count = 0usize;
    for group in groups {
        count = count.saturating_add(group.parts.len());
    }
    count
}

fn ungroup_all<P: Copy + Drop, X: GroupedRow<P>>(
    alloc: Global,
    groups: &Listed<Group<P>>,
) -> Result<Listed<X>, AllocError>
    ensures { IfOk result (λ made. made ≡ flat_map (ungroup X.place) groups.now) }
{
    let mut found = Listed::with_capacity(alloc, count_parts(groups.items()))?;
    for group in groups.items() {
        ungroup(group, &mut found)?;
    }
    Ok(found)
}

fn ungroup<P: Copy + Drop, X: GroupedRow<P>>(
    group: &Group<P>,
    found: &mut Listed<X>,
) -> Result<(), AllocError>
    ensures { OnOk result (found.new ≡ found.old ++ ungroup X.place group.now) }
{
    for part in group.parts.items() {
        let table = group.table.copy()?;
        found.push(X::of_group(table, *part))?;
    }
    Ok(())
}
