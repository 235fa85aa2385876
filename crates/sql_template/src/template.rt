//! A text that is read once.

ghost use Rattle.std.specs.Prelude.{◌≡◌, IfOk, IfSome, Some, true, length};
ghost use Rattle.sql_template.specs.Filling.{filled_statement};
ghost use Rattle.sql_template.specs.Templates.{IsOpened};
ghost use Rattle.sql_template.specs.Preparing.{given_in, marker, markers, IsTemplate};
ghost use Rattle.sql_model.specs.Texts.{statement_of};

use crate::filling::statement;
use ldv_value::{List, Utf8, Value, Values};
use sql_model::Statement;
use sql_parse::{ParseStop, parse};
use std::alloc::{AllocError, Global};

/// A statement of a text, its parameters open.
#[derive(Drop)]
pub struct Template {
    text: Utf8,
    count: u32,
    base: Statement,
}

// What stands for the parameter at a place.
fn marker(place: u32) -> Value
    ensures { result ≡ marker place }
{
    Value::Int(-1 - place as i64)
}

// What stands for the parameters.
#[tactic(auto, using(crate::proofs::Markers::marker_more))]
fn markers(alloc: Global, count: u32) -> Result<Values, AllocError>
    ensures { IfOk result (λ made. made ≡ markers count) }
{
    let mut made = List::with_capacity(alloc, count as usize)?;
    for place in 0..count {
        made.push(marker(place))?;
    }
    Ok(made)
}

// The statement of a text with its parameters open, if it has one.
fn open_statement(alloc: Global, text: &str, count: u32) -> Result<Option<Statement>, AllocError>
    ensures { IfOk result (λ found. IfSome found (IsTemplate text.now count)) }
{
    let marks = markers(alloc, count)?;
    match parse(alloc, text, &marks) {
        Ok(statement) => Ok(Some(statement)),
        Err(ParseStop::Syntax) => Ok(None),
        Err(ParseStop::NoMemory) => Err(AllocError),
    }
}

impl Template {
    /// Reads a text that is asked with `count` parameters; `None` if it isn't a statement.
    pub fn of(alloc: Global, text: &str, count: u32) -> Result<Option<Template>, AllocError>
        ensures { IfOk result (λ made. IfSome made (λ template.
            IsOpened template × (template.text ≡ text.now) × (template.count ≡ count))) }
    {
        let Some(base) = open_statement(alloc, text, count)? else {
            return Ok(None);
        };
        Ok(Some(Template {
            text: Utf8::of(alloc, text)?,
            count,
            base,
        }))
    }

    /// Whether it is the template of this text.
    pub(crate) fn is_text(&self, text: &str) -> bool
        ensures { result ≡ true → self.now.text ≡ text.now }
    {
        self.text.is_text(text)
    }

    /// The statement with its parameters open.
    pub(crate) fn base(&self) -> &Statement
        ensures { result.now ≡ self.now.base }
    {
        &self.base
    }

    /// The statement that `parse` gives of the text with these parameters.
    #[tactic(auto, using(crate::proofs::Markers::template_filled))]
    pub fn statement(&self, alloc: Global, params: &Values) -> Result<Statement, AllocError>
        requires opened { IsOpened self.now }
        requires count { length params.now ≡ self.now.count }
        ensures read { IfOk result (λ made. statement_of self.now.text params.now ≡ Some made) }
        ensures made { IfOk result (λ made. made ≡ filled_statement (given_in params.now) self.now.base) }
    {
        statement(alloc, &self.base, params)
    }
}
