//! Tables of a package.

ghost use Rattle.std.specs.Prelude.{◌≡◌, ◌++◌, OnOk};
ghost use Rattle.std.specs.Int.{w8, w16};
ghost use Rattle.std.specs.List.{flat_map, AllByRecursion};
ghost use Rattle.package_codec.specs.Fields.{Decodes, Makes, number_at, items_at, list_at, list_spelling};
ghost use Rattle.package_codec.specs.Reading.{kind_of, kind_at, rule_of, rule_at, reason_at, places_at};
ghost use Rattle.package_codec.specs.Reading.{foreigns_at, schema_at, table_at};
ghost use Rattle.package_codec.specs.Spelling.{kind_number, rule_number, reason_spelling, places_spelling};
ghost use Rattle.package_codec.specs.Spelling.{foreigns_spelling, schema_spelling, table_spelling};
ghost use Rattle.package_codec.specs.Typed.{TypedForeign, TypedSchema, TypedTable};

use crate::codec::{Decode, Encode, decode_items, decode_list, encode_items, encode_list};
use crate::cursor::Cursor;
use crate::decode_stop::DecodeStop;
use crate::number::{decode_u8, decode_u32, encode_count, encode_u8, encode_u32};
use crate::parts::decode_by::{DecodeBy, decode_list_by, decode_rows};
use crate::parts::text::{decode_text, encode_text};
use crate::version::Version;
use crate::width::Width;
use ldv_value::{Bytes, List, Places};
use run_model::{PackedRow, PackedTable, PackedTables};
use sql_model::{Column, Foreign, Foreigns, Rule, Schema};
use std::alloc::{AllocError, Global};

impl Encode for Column {
    ghost use Rattle.package_codec.specs.Spelling.{column_spelling};
    ghost use Rattle.package_codec.specs.Typed.{TypedColumn};

    ghost spelling = { column_spelling };

    ghost typed = { TypedColumn };

    fn encode(&self, to: &mut Bytes) -> Result<(), AllocError> {
        encode_text(&self.name, to)?;
        encode_u8(number_of_kind(self.text, self.not_null), to)
    }
}

fn number_of_kind(text: bool, not_null: bool) -> u8
    ensures { result ≡ kind_number text not_null }
{
    match (text, not_null) {
        (false, false) => 1,
        (true, false) => 2,
        (false, true) => 3,
        (true, true) => 4,
    }
}

impl Decode for Column {
    ghost use Rattle.package_codec.specs.Reading.{column_at};

    ghost reading = { column_at };

    fn decode(alloc: Global, cursor: &mut Cursor) -> Result<Column, DecodeStop> {
        let name = decode_text(alloc, cursor)?;
        let (text, not_null) = decode_kind(cursor)?;
        Ok(Column {
            name,
            text,
            not_null,
        })
    }
}

fn decode_kind(cursor: &mut Cursor) -> Result<(bool, bool), DecodeStop>
    ensures { Decodes result cursor.new (kind_at cursor.old) }
{
    let number = decode_u8(cursor)?;
    kind_of(number)
}

fn kind_of(number: u8) -> Result<(bool, bool), DecodeStop>
    ensures { Makes result (kind_of number) }
{
    match number {
        1 => Ok((false, false)),
        2 => Ok((true, false)),
        3 => Ok((false, true)),
        4 => Ok((true, true)),
        _ => Err(DecodeStop::Malformed),
    }
}

/// The number of a rule in the format.
pub(crate) fn number_of_rule(rule: Rule) -> u8
    ensures { result ≡ rule_number rule }
{
    match rule {
        Rule::L => 1,
        Rule::H => 2,
        Rule::K => 3,
        Rule::P => 4,
        Rule::C => 5,
    }
}

/// Reads a rule by its number.
pub(crate) fn decode_rule(cursor: &mut Cursor) -> Result<Rule, DecodeStop>
    ensures { Decodes result cursor.new (rule_at cursor.old) }
{
    let number = decode_u8(cursor)?;
    rule_of(number)
}

fn rule_of(number: u8) -> Result<Rule, DecodeStop>
    ensures { Makes result (rule_of number) }
{
    match number {
        1 => Ok(Rule::L),
        2 => Ok(Rule::H),
        3 => Ok(Rule::K),
        4 => Ok(Rule::P),
        5 => Ok(Rule::C),
        _ => Err(DecodeStop::Malformed),
    }
}

impl Encode for PackedRow {
    ghost use Rattle.package_codec.specs.Spelling.{row_spelling};
    ghost use Rattle.package_codec.specs.Typed.{TypedRow};

    ghost spelling = { row_spelling };

    ghost typed = { TypedRow };

    fn encode(&self, to: &mut Bytes) -> Result<(), AllocError> {
        self.number.encode(to)?;
        encode_reason(self.statement, self.rule, to)?;
        encode_items(&self.values, to)
    }
}

/// Appends why a row is there: the first statement that needed it, and the rule by which it did.
pub fn encode_reason(statement: u32, rule: Rule, to: &mut Bytes) -> Result<(), AllocError>
    ensures { OnOk result (to.new ≡ to.old ++ reason_spelling statement rule) }
{
    encode_u32(statement, to)?;
    encode_u8(number_of_rule(rule), to)
}

/// Reads why a row is there: the first statement that needed it, and the rule. `Malformed`: the bytes begin
/// with no such reason.
pub fn decode_reason(cursor: &mut Cursor) -> Result<(u32, Rule), DecodeStop>
    ensures { Decodes result cursor.new (reason_at cursor.old) }
{
    let statement = decode_u32(cursor)?;
    let rule = decode_rule(cursor)?;
    Ok((statement, rule))
}

impl DecodeBy<usize> for PackedRow {
    ghost use Rattle.package_codec.specs.Reading.{row_at};

    ghost reading = { row_at };

    fn decode_by(
        alloc: Global,
        columns: usize,
        cursor: &mut Cursor,
    ) -> Result<PackedRow, DecodeStop> {
        let number = decode_u32(cursor)?;
        let (statement, rule) = decode_reason(cursor)?;
        let values = decode_items(alloc, columns, cursor)?;
        Ok(PackedRow {
            number,
            statement,
            rule,
            values,
        })
    }
}

// The places of a key are below 64, so each has one byte.
fn encode_places(key: &Places, to: &mut Bytes) -> Result<(), AllocError>
    ensures { OnOk result (to.new ≡ to.old ++ places_spelling key.now) }
{
    encode_count(Width::One, key.len(), to)?;
    for place in key.items() {
        encode_count(Width::One, *place, to)?;
    }
    Ok(())
}

impl Encode for Foreign {
    ghost use Rattle.package_codec.specs.Spelling.{foreign_spelling};
    ghost use Rattle.package_codec.specs.Typed.{TypedForeign};

    ghost spelling = { foreign_spelling };

    ghost typed = { TypedForeign };

    fn encode(&self, to: &mut Bytes) -> Result<(), AllocError> {
        encode_places(&self.columns, to)?;
        encode_text(&self.parent, to)
    }
}

impl Decode for Foreign {
    ghost use Rattle.package_codec.specs.Reading.{foreign_at};

    ghost reading = { foreign_at };

    fn decode(alloc: Global, cursor: &mut Cursor) -> Result<Foreign, DecodeStop> {
        let columns = decode_place_list(alloc, cursor)?;
        let parent = decode_text(alloc, cursor)?;
        Ok(Foreign { columns, parent })
    }
}

// Version 1 has no foreign keys.
fn encode_foreigns(version: Version, foreigns: &Foreigns, to: &mut Bytes) -> Result<(), AllocError>
    ensures bytes { OnOk result (to.new ≡ to.old ++ foreigns_spelling version foreigns.now) }
    ensures typed { OnOk result (AllByRecursion TypedForeign foreigns.now) }
{
    match version {
        Version::One => {
            tell_typed(foreigns);
            Ok(())
        }
        Version::Two => encode_list(Width::One, foreigns, to),
    }
}

// The names of parents are UTF-8, also where they aren't written. The call does nothing; it lends this.
fn tell_typed(foreigns: &Foreigns)
    ensures { AllByRecursion TypedForeign foreigns.now }
{
    for foreign in foreigns.items() {
        let _name = foreign.parent.as_str().as_bytes();
    }
}

fn decode_foreigns(
    alloc: Global,
    version: Version,
    cursor: &mut Cursor,
) -> Result<Foreigns, DecodeStop>
    ensures { Decodes result cursor.new (foreigns_at version cursor.old) }
{
    match version {
        Version::One => Ok(List::new(alloc)),
        Version::Two => decode_list(alloc, Width::One, cursor),
    }
}

fn decode_place_list(alloc: Global, cursor: &mut Cursor) -> Result<Places, DecodeStop>
    ensures { Decodes result cursor.new (places_at cursor.old) }
{
    let count = decode_u8(cursor)?;
    decode_places(alloc, count, cursor)
}

fn decode_places(alloc: Global, count: u8, cursor: &mut Cursor) -> Result<Places, DecodeStop>
    ensures { Decodes result cursor.new (items_at (number_at w8) count cursor.old) }
{
    let mut places = List::new(alloc);
    for _turn in 0..count {
        let place = decode_u8(cursor)?;
        places.push(usize::from(place))?;
    }
    Ok(places)
}

/// Appends the columns, the key and the foreign keys of a table. The first version has no foreign keys.
pub(crate) fn encode_schema(
    version: Version,
    schema: &Schema,
    to: &mut Bytes,
) -> Result<(), AllocError>
    ensures bytes { OnOk result (to.new ≡ to.old ++ schema_spelling version schema.now) }
    ensures typed { OnOk result (TypedSchema schema.now) }
{
    encode_list(Width::One, &schema.columns, to)?;
    encode_places(&schema.key, to)?;
    encode_foreigns(version, &schema.foreign, to)
}

/// Reads the columns, the key and the foreign keys of a table. The first version has no foreign keys.
pub(crate) fn decode_schema(
    alloc: Global,
    version: Version,
    cursor: &mut Cursor,
) -> Result<Schema, DecodeStop>
    ensures { Decodes result cursor.new (schema_at version cursor.old) }
{
    let columns = decode_list(alloc, Width::One, cursor)?;
    let key = decode_place_list(alloc, cursor)?;
    let foreign = decode_foreigns(alloc, version, cursor)?;
    Ok(Schema {
        columns,
        key,
        foreign,
    })
}

fn encode_table(version: Version, table: &PackedTable, to: &mut Bytes) -> Result<(), AllocError>
    ensures bytes { OnOk result (to.new ≡ to.old ++ table_spelling version table.now) }
    ensures typed { OnOk result (TypedTable table.now) }
{
    encode_text(&table.name, to)?;
    encode_schema(version, &table.schema, to)?;
    table.next.encode(to)?;
    encode_list(Width::Four, &table.rows, to)
}

impl DecodeBy<Version> for PackedTable {
    ghost use Rattle.package_codec.specs.Reading.{table_at};

    ghost reading = { table_at };

    fn decode_by(
        alloc: Global,
        version: Version,
        cursor: &mut Cursor,
    ) -> Result<PackedTable, DecodeStop> {
        let name = decode_text(alloc, cursor)?;
        let schema = decode_schema(alloc, version, cursor)?;
        let next = decode_u32(cursor)?;
        let rows = decode_rows(alloc, &schema.columns, cursor)?;
        Ok(PackedTable {
            name,
            schema,
            next,
            rows,
        })
    }
}

/// Appends tables: their number and the tables.
pub fn encode_tables(
    version: Version,
    tables: &PackedTables,
    to: &mut Bytes,
) -> Result<(), AllocError>
    ensures bytes { OnOk result (to.new ≡ to.old ++ list_spelling w16 (table_spelling version) tables.now) }
    ensures typed { OnOk result (AllByRecursion TypedTable tables.now) }
{
    encode_count(Width::Two, tables.len(), to)?;
    encode_each_table(version, tables, to)
}

fn encode_each_table(
    version: Version,
    tables: &PackedTables,
    to: &mut Bytes,
) -> Result<(), AllocError>
    ensures bytes { OnOk result (to.new ≡ to.old ++ flat_map (table_spelling version) tables.now) }
    ensures typed { OnOk result (AllByRecursion TypedTable tables.now) }
{
    for table in tables.items() {
        encode_table(version, table, to)?;
    }
    Ok(())
}

/// Reads tables. The list grows with the tables that are read. `Malformed`: the bytes begin with no such
/// list.
pub fn decode_tables(
    alloc: Global,
    version: Version,
    cursor: &mut Cursor,
) -> Result<PackedTables, DecodeStop>
    ensures { Decodes result cursor.new (list_at w16 (table_at version) cursor.old) }
{
    decode_list_by(alloc, Width::Two, version, cursor)
}
