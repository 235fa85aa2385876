//! Sources of a core.

ghost use Rattle.std.specs.Prelude.{◌≡◌};
ghost use Rattle.sql_parse.specs.inner.Gives.{ReadsPart};
ghost use Rattle.sql_model.specs.Queries.{is_name, names, second_name, reads_source, plain_source};
ghost use Rattle.sql_model.specs.Queries.{joined_source, another_source, reads_sources};

use crate::error::ParseStop;
use crate::expression::expression;
use crate::reader::Reader;
use crate::steps::{Steps, all_steps};
use crate::token::{Lent, Lexeme};
use ldv_value::Utf8;
use sql_model::{Exprs, FromItem, FromItems, Sources, is_sql_name};
use std::alloc::Global;

/// Reads the sources of a core, with the conditions that follow their ON; `Syntax` if there are more than
/// `most`.
pub(crate) fn all_sources(
    alloc: Global,
    reader: &mut Reader,
    most: usize,
) -> Result<Sources, ParseStop>
    ensures { ReadsPart result reader.new (reads_sources most reader.old) }
{
    let source = source(alloc, reader)?;
    let mut from = FromItems::new(alloc);
    from.push(source)?;
    let first = Sources {
        from,
        picks: Exprs::new(alloc),
    };
    all_steps(alloc, reader, most, first)
}

impl Steps for Sources {
    ghost reads = { another_source };

    fn read_step(self, alloc: Global, reader: &mut Reader) -> Result<(Self, bool), ParseStop> {
        another_source(alloc, reader, self)
    }
}

fn another_source(
    alloc: Global,
    reader: &mut Reader,
    made: Sources,
) -> Result<(Sources, bool), ParseStop>
    ensures { ReadsPart result reader.new (another_source made reader.old) }
{
    if reader.starts(",") {
        reader.skip();
        return plain_source(alloc, reader, made);
    }
    if reader.starts("join") {
        reader.skip();
        return joined_source(alloc, reader, made);
    }
    if reader.starts("inner") {
        reader.skip();
        reader.expect("join")?;
        return joined_source(alloc, reader, made);
    }
    Ok((made, false))
}

fn plain_source(
    alloc: Global,
    reader: &mut Reader,
    made: Sources,
) -> Result<(Sources, bool), ParseStop>
    ensures { ReadsPart result reader.new (plain_source made reader.old) }
{
    let source = source(alloc, reader)?;
    let Sources { mut from, picks } = made;
    from.push(source)?;
    Ok((Sources { from, picks }, true))
}

fn joined_source(
    alloc: Global,
    reader: &mut Reader,
    made: Sources,
) -> Result<(Sources, bool), ParseStop>
    ensures { ReadsPart result reader.new (joined_source made reader.old) }
{
    let source = source(alloc, reader)?;
    reader.expect("on")?;
    let pick = expression(alloc, reader)?;
    let Sources {
        mut from,
        mut picks,
    } = made;
    from.push(source)?;
    picks.push(pick)?;
    Ok((Sources { from, picks }, true))
}

fn source(alloc: Global, reader: &mut Reader) -> Result<FromItem, ParseStop>
    ensures { ReadsPart result reader.new (reads_source reader.old) }
{
    let table = reader.take_name(alloc)?;
    let name = second_name(alloc, reader, &table)?;
    Ok(FromItem { table, name })
}

// The second name of a source, or its table's.
fn second_name(alloc: Global, reader: &mut Reader, table: &Utf8) -> Result<Utf8, ParseStop>
    ensures { ReadsPart result reader.new (second_name table.now reader.old) }
{
    if reader.starts("as") {
        reader.skip();
        return reader.take_name(alloc);
    }
    if names(reader) {
        return reader.take_name(alloc);
    }
    Ok(table.copy()?)
}

// Whether the next token is a name.
fn names(reader: &Reader) -> bool
    ensures { result ≡ names reader.now }
{
    match reader.peek() {
        None => false,
        Some(token) => is_name(token),
    }
}

fn is_name(token: &Lexeme) -> bool
    ensures { result ≡ is_name token.now }
{
    match token.as_lent() {
        Lent::Word(word) => is_sql_name(*word),
        Lent::Number(_) => false,
        Lent::Quoted(_) => false,
        Lent::Given(_) => false,
    }
}
