//! `cut`: a text before and after a part of it.

ghost use Rattle.std.specs.Prelude.{◌≡◌, ◌+◌, ◌<◌, ◌≤◌, ◌^◌, length, slice_get, IfOk, IfSome, OnOk};
ghost use Rattle.std.specs.Str.{IsCharBoundary};
ghost use Rattle.sql_model.specs.Meaning.{or_null};
ghost use Rattle.proc_core.specs.Types.{Text};
ghost use Rattle.run_model.specs.StepVariables.{first_place};
ghost use Rattle.proc_core.specs.inner.SlotVariables.{split_at_place, split_value, slot_cut, slot_cut_parts};
ghost use Rattle.proc_core.specs.inner.Slots.{slot_value};

use crate::instructions::computed::WRONG_KIND;
use crate::instructions::variables::{value_at, variable_at};
use crate::process::SlotProcess;
use ldv_value::{Utf8, Value};
use memchr::memmem;
use script_code::SlotOperand;
use std::alloc::{AllocError, Global};

/// The parts of a text around another.
#[derive(Drop)]
pub(crate) struct CutParts {
    pub before: Utf8,
    pub after: Utf8,
}

// The first place where a text has another in it, which isn't empty. It takes time linear in both.
#[tactic(auto, using(crate::proofs::CutPlaces::found_rules))]
fn first_place(by: &[u8], text: &[u8]) -> Option<usize>
    requires { 0 < length by.now }
    ensures place { result ≡ first_place 0 by.now text.now }
    ensures within { IfSome result (λ n. n ≤ length text.now) }
{
    memmem::find(text, by)
}

// The parts of a text before and after another one that stands in it at a place; where it stands nowhere,
// all of the text and nothing.
fn split_at_place(
    alloc: Global,
    place: Option<usize>,
    by: &str,
    text: &str,
) -> Result<CutParts, AllocError>
    requires before { IfSome place (IsCharBoundary text.now) }
    requires after { IfSome place (λ n. IsCharBoundary text.now (n + length by.now)) }
    ensures { IfOk result (λ parts. parts ≡ split_at_place place by.now text.now) }
{
    match place {
        None => Ok(CutParts {
            before: Utf8::of(alloc, text)?,
            after: Utf8::new(alloc),
        }),
        Some(place) => Ok(CutParts {
            before: Utf8::of(alloc, &text[..place])?,
            after: Utf8::of(alloc, &text[place + by.len()..])?,
        }),
    }
}

// The parts of a text around another; none where it's misuse.
fn split_value(alloc: Global, by: &Value, text: &Value) -> Result<Option<CutParts>, AllocError>
    ensures { IfOk result (λ parts. parts ≡ split_value by.now text.now) }
{
    match by {
        Value::Null => Ok(None),
        Value::Int(_) => Ok(None),
        Value::Text(by) => split_text_value(alloc, by.as_str(), text),
    }
}

fn split_text_value(alloc: Global, by: &str, text: &Value) -> Result<Option<CutParts>, AllocError>
    ensures { IfOk result (λ parts. parts ≡ split_value (Text by.now) text.now) }
{
    if by.is_empty() {
        return Ok(None);
    }
    match text {
        Value::Null => Ok(None),
        Value::Int(_) => Ok(None),
        Value::Text(text) => Ok(Some(split_text(alloc, by, text.as_str())?)),
    }
}

// The parts of a text around another, which isn't empty.
fn split_text(alloc: Global, by: &str, text: &str) -> Result<CutParts, AllocError>
    requires { 0 < length by.now }
    ensures { IfOk result (λ parts. parts ≡ split_at_place (first_place 0 by.now text.now) by.now text.now) }
{
    let place = first_place(by.as_bytes(), text.as_bytes());
    split_at_place(alloc, place, by, text)
}

// Gives the variables their parts, or ends by misuse.
fn cut_parts(
    before: usize,
    after: usize,
    parts: Option<CutParts>,
    process: &mut SlotProcess,
) -> Result<(), AllocError>
    requires { process.old.place + 1 < 2 ^ 64 }
    ensures { OnOk result (process.new ≡ slot_cut_parts before after parts process.old) }
{
    match parts {
        None => process.end(WRONG_KIND),
        Some(parts) => {
            process.set_variable(before, Value::Text(parts.before))?;
            process.set_variable(after, Value::Text(parts.after))?;
            process.go_on();
        }
    }
    Ok(())
}

// The parts of the text of a variable around an operand; none where it's misuse.
fn parts_around(
    alloc: Global,
    by: &SlotOperand,
    text: usize,
    process: &SlotProcess,
) -> Result<Option<CutParts>, AllocError>
    ensures { IfOk result (λ parts. parts
        ≡ split_value (slot_value process.now by.now) (or_null (slice_get process.now.variables text))) }
{
    let null = Value::Null;
    split_value(
        alloc,
        value_at(process, by, &null),
        variable_at(process, text, &null),
    )
}

/// `cut x y v`
pub(crate) fn cut(
    alloc: Global,
    before: usize,
    after: usize,
    by: &SlotOperand,
    process: &mut SlotProcess,
) -> Result<(), AllocError>
    requires { process.old.place + 1 < 2 ^ 64 }
    ensures { OnOk result (process.new ≡ slot_cut before after by.now process.old) }
{
    let parts = parts_around(alloc, by, after, process)?;
    cut_parts(before, after, parts, process)?;
    Ok(())
}
