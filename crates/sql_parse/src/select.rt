//! Cores: each SELECT of a query, up to its HAVING.

ghost use Rattle.std.specs.Prelude.{◌≡◌, ◌++◌, OnOk, option_to_list};
ghost use Rattle.sql_parse.specs.inner.Gives.{ReadsPart};
ghost use Rattle.sql_model.specs.Queries.{reads_alias, reads_item, reads_items, reads_group, core_end};
ghost use Rattle.sql_model.specs.Queries.{core_rest, reads_core};

use crate::error::ParseStop;
use crate::expression::expression;
use crate::part_list::{Part, optional_expression, parse_list};
use crate::reader::Reader;
use crate::source::all_sources;
use ldv_value::{MAX_SOURCES, Utf8};
use sql_model::{ColumnName, ColumnNames, Core, Expr, Exprs, Item, Items, Sources};
use std::alloc::{AllocError, Global};

/// Reads a core. `joined_all` says whether it follows UNION ALL.
pub(crate) fn core(alloc: Global, reader: &mut Reader, joined_all: bool) -> Result<Core, ParseStop>
    ensures { ReadsPart result reader.new (reads_core joined_all reader.old) }
{
    reader.expect("select")?;
    let distinct = reader.pass("distinct");
    core_rest(alloc, reader, joined_all, distinct)
}

// What follows SELECT [DISTINCT].
fn core_rest(
    alloc: Global,
    reader: &mut Reader,
    joined_all: bool,
    distinct: bool,
) -> Result<Core, ParseStop>
    ensures { ReadsPart result reader.new (core_rest joined_all distinct reader.old) }
{
    let items = items(alloc, reader)?;
    reader.expect("from")?;
    let sources = all_sources(alloc, reader, MAX_SOURCES)?;
    core_end(alloc, reader, joined_all, distinct, items, sources)
}

// What follows the sources.
fn core_end(
    alloc: Global,
    reader: &mut Reader,
    joined_all: bool,
    distinct: bool,
    items: Option<Items>,
    sources: Sources,
) -> Result<Core, ParseStop>
    ensures { ReadsPart result reader.new (core_end joined_all distinct items sources reader.old) }
{
    let pick = optional_expression(alloc, reader, "where")?;
    let group = group(alloc, reader)?;
    let having = optional_expression(alloc, reader, "having")?;
    let Sources { from, mut picks } = sources;
    add(&mut picks, pick)?;
    Ok(Core {
        joined_all,
        distinct,
        items,
        from,
        picks,
        group,
        having,
    })
}

fn add(picks: &mut Exprs, pick: Option<Expr>) -> Result<(), AllocError>
    ensures { OnOk result (picks.new ≡ picks.old ++ option_to_list pick) }
{
    if let Some(pick) = pick {
        picks.push(pick)?;
    }
    Ok(())
}

fn group(alloc: Global, reader: &mut Reader) -> Result<ColumnNames, ParseStop>
    ensures { ReadsPart result reader.new (reads_group reader.old) }
{
    if !reader.starts("group") {
        return Ok(ColumnNames::new(alloc));
    }
    reader.skip();
    reader.expect("by")?;
    parse_list::<ColumnName>(alloc, reader)
}

fn items(alloc: Global, reader: &mut Reader) -> Result<Option<Items>, ParseStop>
    ensures { ReadsPart result reader.new (reads_items reader.old) }
{
    if reader.starts("*") {
        reader.skip();
        return Ok(None);
    }
    let items = parse_list::<Item>(alloc, reader)?;
    Ok(Some(items))
}

impl Part for Item {
    ghost reads = { reads_item };

    fn read(alloc: Global, reader: &mut Reader) -> Result<Self, ParseStop> {
        let expr = expression(alloc, reader)?;
        let name = alias(alloc, reader)?;
        Ok(Item { expr, name })
    }
}

fn alias(alloc: Global, reader: &mut Reader) -> Result<Option<Utf8>, ParseStop>
    ensures { ReadsPart result reader.new (reads_alias reader.old) }
{
    if !reader.starts("as") {
        return Ok(None);
    }
    reader.skip();
    let name = reader.take_name(alloc)?;
    Ok(Some(name))
}
