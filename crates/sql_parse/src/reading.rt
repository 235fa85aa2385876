//! From a text to its statement.

ghost use Rattle.std.specs.Prelude.{◌≡◌, IfOk, IsErrOf, Some, None, length, map};
ghost use Rattle.sql_model.specs.declared.statement.Statement.{Statement};
ghost use Rattle.sql_model.specs.GrammarOfStatements.{Reads as ReadsAs};
ghost use Rattle.sql_parse.specs.declared.error.ParseStop.TheVariants.{Syntax};
ghost use Rattle.sql_parse.specs.inner.Gives.{GivesParsed, ReadsPart};
ghost use Rattle.sql_parse.specs.inner.Lexing.{given_of, statement_from};
ghost use Rattle.sql_model.specs.TextBytes.{lower_case_of};
ghost use Rattle.sql_model.specs.Texts.{reads_statement, is_end, whole_statement, statement_of};

use crate::change::{delete, insert, update};
use crate::error::ParseStop;
use crate::query::query;
use crate::reader::Reader;
use crate::scan::{lower_case, tokens};
use ldv_value::Values;
use sql_model::Statement;
use std::alloc::Global;

/// Reads a statement, in one pass over the tokens of the text. The k-th `?` stands for the k-th parameter.
/// `Syntax` comes exactly if the text with these parameters has no reading by the grammar of `docs/SQL.md`.
/// It has none if it has more or fewer `?` than there are parameters, an expression deeper than 64, or more
/// than 8 sources in a core.
pub fn parse(alloc: Global, text: &str, params: &Values) -> Result<Statement, ParseStop>
    ensures reading { IfOk result (λ statement. ReadsAs text.now params.now statement) }
    ensures none { IsErrOf result Syntax → (statement : Statement) → ¬ ReadsAs text.now params.now statement }
    // The same as a function of the text and the parameters.
    ensures statement { IfOk result (λ statement. statement_of text.now params.now ≡ Some statement) }
    ensures syntax { IsErrOf result Syntax → statement_of text.now params.now ≡ None }
{
    parse_statement(alloc, text, params)
}

#[tactic(auto, using(crate::proofs::TokensFrom::statement_is))]
fn parse_statement(alloc: Global, text: &str, params: &Values) -> Result<Statement, ParseStop>
    ensures { GivesParsed result (statement_of text.now params.now) }
{
    let lower = lower_case(alloc, text.as_bytes())?;
    read_lent(alloc, text.as_bytes(), lower.as_slice(), params)
}

// A statement whose tokens are cut out of its text, which is also given in lower case.
fn read_lent(
    alloc: Global,
    text: &[u8],
    lower: &[u8],
    params: &Values,
) -> Result<Statement, ParseStop>
    requires low { lower.now ≡ map lower_case_of text.now }
    requires long { length lower.now ≡ length text.now }
    ensures { GivesParsed result (statement_from (given_of text.now params.now)) }
{
    let given = tokens(alloc, text, lower, params)?;
    whole_statement(alloc, Reader::new(given))
}

// A statement that is all of its tokens, but for a `;` after it.
fn whole_statement(alloc: Global, tokens: Reader) -> Result<Statement, ParseStop>
    ensures { GivesParsed result (whole_statement tokens.entry) }
{
    let mut reader = tokens;
    let statement = statement(alloc, &mut reader)?;
    if is_end(&mut reader) {
        Ok(statement)
    } else {
        Err(ParseStop::Syntax)
    }
}

// Whether no token is left but a `;`.
fn is_end(reader: &mut Reader) -> bool
    ensures { result ≡ is_end reader.old }
{
    reader.pass(";");
    reader.len() == 0
}

// A statement, told apart by its first word.
fn statement(alloc: Global, reader: &mut Reader) -> Result<Statement, ParseStop>
    ensures { ReadsPart result reader.new (reads_statement reader.old) }
{
    if reader.starts("select") {
        let query = query(alloc, reader)?;
        return Ok(Statement::Query(query));
    }
    if reader.starts("insert") {
        reader.skip();
        let insert = insert(alloc, reader)?;
        return Ok(Statement::Insert(insert));
    }
    if reader.starts("update") {
        reader.skip();
        let update = update(alloc, reader)?;
        return Ok(Statement::Update(update));
    }
    if reader.starts("delete") {
        reader.skip();
        let delete = delete(alloc, reader)?;
        return Ok(Statement::Delete(delete));
    }
    Err(ParseStop::Syntax)
}
