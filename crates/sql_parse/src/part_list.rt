//! Lists of parts, with commas between.

ghost use Rattle.std.specs.Prelude.{List as Items, Option};
ghost use Rattle.sql_model.specs.declared.token.Token.{Token};
ghost use Rattle.sql_model.specs.Columns.{reads_column};
ghost use Rattle.sql_model.specs.Expressions.{reads_expr};
ghost use Rattle.sql_parse.specs.inner.Gives.{ReadsPart};
ghost use Rattle.sql_model.specs.Parts.{another, list_of_parts, reads_tuple, reads_optional};
ghost use Rattle.sql_model.specs.Reader.{reads_name};

use crate::column::column;
use crate::error::ParseStop;
use crate::expression::expression;
use crate::reader::Reader;
use crate::steps::{Steps, all_steps};
use ldv_value::{List, Utf8};
use sql_model::{ColumnName, Expr, Exprs};
use std::alloc::Global;

/// An element of a comma-separated list.
pub(crate) trait Part: Drop {
    /// The part at the front of tokens, and the tokens after it.
    ghost reads: { Items Token → Option (Self × Items Token) };

    /// Reads one part.
    fn read(alloc: Global, reader: &mut Reader) -> Result<Self, ParseStop>
        ensures { ReadsPart result reader.new (reads reader.old) };
}

/// Reads one or more parts, with commas between them.
pub(crate) fn parse_list<P: Part>(alloc: Global, reader: &mut Reader) -> Result<List<P>, ParseStop>
    ensures { ReadsPart result reader.new (list_of_parts P.reads reader.old) }
{
    let most = reader.len();
    let first = P::read(alloc, reader)?;
    let mut parts = List::new(alloc);
    parts.push(first)?;
    all_steps(alloc, reader, most, parts)
}

// One more part, where a comma follows.
impl<P: Part> Steps for List<P> {
    ghost reads = { another P.reads };

    fn read_step(self, alloc: Global, reader: &mut Reader) -> Result<(Self, bool), ParseStop> {
        if !reader.starts(",") {
            return Ok((self, false));
        }
        reader.skip();
        let part = P::read(alloc, reader)?;
        let mut made = self;
        made.push(part)?;
        Ok((made, true))
    }
}

impl Part for Utf8 {
    ghost reads = { reads_name };

    fn read(alloc: Global, reader: &mut Reader) -> Result<Self, ParseStop> {
        reader.take_name(alloc)
    }
}

impl Part for Expr {
    ghost reads = { reads_expr };

    fn read(alloc: Global, reader: &mut Reader) -> Result<Self, ParseStop> {
        expression(alloc, reader)
    }
}

impl Part for ColumnName {
    ghost reads = { reads_column };

    fn read(alloc: Global, reader: &mut Reader) -> Result<Self, ParseStop> {
        column(alloc, reader)
    }
}

impl Part for Exprs {
    ghost reads = { reads_tuple };

    fn read(alloc: Global, reader: &mut Reader) -> Result<Self, ParseStop> {
        reader.expect("(")?;
        let exprs = parse_list::<Expr>(alloc, reader)?;
        reader.expect(")")?;
        Ok(exprs)
    }
}

/// Reads a word and the expression after it; `None` if the next token isn't the word.
pub(crate) fn optional_expression(
    alloc: Global,
    reader: &mut Reader,
    word: &str,
) -> Result<Option<Expr>, ParseStop>
    ensures { ReadsPart result reader.new (reads_optional word.now reader.old) }
{
    if !reader.starts(word) {
        return Ok(None);
    }
    reader.skip();
    let expr = expression(alloc, reader)?;
    Ok(Some(expr))
}
