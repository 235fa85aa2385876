//! From bytes to a script.

ghost use Rattle.std.specs.Prelude.{◌≡◌, ◌≤◌, List, Some, IfOk, IfErr, IsSome, length, option_map};
ghost use Rattle.std.specs.BTreeMap.{get_by_text};
ghost use Rattle.script_parse.specs.declared.script.Instr.{Instr};
ghost use Rattle.script_parse.specs.BadLine.{IsFirstBadLine};
ghost use Rattle.script_parse.specs.Grammar.{IsScript};
ghost use Rattle.script_parse.specs.Script.{script_of, first_bad_line, resolve, is_first, with_place};
ghost use Rattle.script_parse.specs.Script.{instructions_of, first_unresolved_line, Answers, IfLine, look_up};

use crate::labels::{Labels, labels};
use crate::line::{Entries, Entry, Line};
use crate::script::{Instr, Instrs, Script};
use crate::split::entries;
use ldv_value::Utf8;
use std::alloc::{AllocError, Global};

/// Why bytes aren't read as a script.
#[derive(Clone, Copy, Debug, PartialEq, Eq)]
pub enum ScriptStop {
    /// They aren't a script: the number, from 1, of the first bad line. A line is bad if it isn't UTF-8,
    /// has no form, defines a label that an earlier line defines, or uses a label that no line defines.
    Line(u64),
    /// Out of memory.
    NoMemory,
}

impl From<AllocError> for ScriptStop {
    ghost use Rattle.std.specs.Prelude.{◌≡◌};
    ghost use Rattle.script_parse.specs.declared.parse.ScriptStop.TheVariants.{NoMemory};

    ghost from_gives = { λ _ stop. stop ≡ NoMemory };

    fn from(_error: AllocError) -> Self {
        ScriptStop::NoMemory
    }
}

/// Reads a script, in one pass over its bytes: the instructions that they spell by the grammar. `Line`: they
/// spell none, and this line is the first bad one. `NoMemory`: memory ran out.
#[tactic(auto, using(crate::proofs::BadLines::result_rules))]
pub fn parse_script(alloc: Global, bytes: &[u8]) -> Result<Script, ScriptStop>
    ensures reading { IfOk result (λ script. IsScript bytes.now script.instructions) }
    ensures none { IfErr result (λ stop. IfLine stop (λ n. (is : List Instr) → ¬ IsScript bytes.now is)) }
    ensures first { IfErr result (λ stop. IfLine stop (IsFirstBadLine bytes.now)) }
    ensures within { IfErr result (λ stop. IfLine stop (λ n. n ≤ length bytes.now)) }
    // The same as functions of the bytes.
    ensures script { IfOk result (λ script. script_of bytes.now ≡ Some script.instructions) }
    ensures line { IfErr result (λ stop. IfLine stop (λ n. (script_of bytes.now ≡ None)
        × (n ≡ first_bad_line bytes.now))) }
{
    parse_lines(alloc, bytes)
}

/// The script that bytes spell, or `None` if they spell none. `AllocError` means out of memory only.
pub fn script_of(alloc: Global, bytes: &[u8]) -> Result<Option<Script>, AllocError>
    ensures { IfOk result (λ found. script_of bytes.now ≡ option_map (λ script. script.instructions) found) }
{
    match parse_lines(alloc, bytes) {
        Ok(script) => Ok(Some(script)),
        Err(ScriptStop::Line(_)) => Ok(None),
        Err(ScriptStop::NoMemory) => Err(AllocError),
    }
}

/// The script of bytes that are known to spell one. `AllocError` means out of memory only.
pub fn known_script(alloc: Global, bytes: &[u8]) -> Result<Script, AllocError>
    requires { IsSome (script_of bytes.now) }
    ensures { IfOk result (λ script. script_of bytes.now ≡ Some script.instructions) }
{
    match script_of(alloc, bytes)? {
        None => unreachable!(),
        Some(script) => Ok(script),
    }
}

fn parse_lines(alloc: Global, bytes: &[u8]) -> Result<Script, ScriptStop>
    ensures script { IfOk result (λ script. script_of bytes.now ≡ Some script.instructions) }
    ensures line { IfErr result (λ stop. IfLine stop (λ n. (script_of bytes.now ≡ None)
        × (n ≡ first_bad_line bytes.now))) }
{
    let entries = entries(alloc, bytes)?;
    match resolve_labels(alloc, entries) {
        Ok(instructions) => Ok(Script { instructions }),
        Err(stop) => Err(stop),
    }
}

// The instructions of lines, with the labels that they define.
#[tactic(auto, using(crate::proofs::LookUp::results_same))]
fn resolve_labels(alloc: Global, entries: Entries) -> Result<Instrs, ScriptStop>
    ensures { Answers result
        (instructions_of (look_up entries) entries) (first_unresolved_line (look_up entries) entries) }
{
    let labels = labels(alloc, &entries)?;
    instructions(alloc, &labels, entries)
}

// The instructions of lines, where none is bad.
fn instructions(alloc: Global, labels: &Labels, entries: Entries) -> Result<Instrs, ScriptStop>
    ensures { Answers result (instructions_of (get_by_text labels.now) entries) (first_unresolved_line
        (get_by_text labels.now) entries) }
{
    let mut instructions = Instrs::new(alloc);
    for entry in entries.into_vec() {
        let number = entry.number;
        match resolve(labels, entry) {
            None => return Err(ScriptStop::Line(number)),
            Some(None) => {}
            Some(Some(instr)) => instructions.push(instr)?,
        }
    }
    Ok(instructions)
}

// What a line comes to: its instruction with the place of its label, or none where it defines a label. `None`
// where the line is bad.
fn resolve(labels: &Labels, entry: Entry) -> Option<Option<Instr>>
    ensures { result ≡ resolve (get_by_text labels.now) entry }
{
    let Entry { number, line } = entry;
    match line {
        None => None,
        Some(Line::Blank) => Some(None),
        Some(Line::Label(name)) => {
            if is_first(labels, number, &name) {
                Some(None)
            } else {
                None
            }
        }
        Some(Line::Plain(instr)) => Some(Some(instr)),
        Some(Line::Jumping(instr, label)) => match place_of(labels, &label) {
            None => None,
            Some(place) => Some(Some(with_place(instr, place))),
        },
    }
}

// Whether a line is the first that defines a label.
fn is_first(labels: &Labels, number: u64, name: &Utf8) -> bool
    ensures { result ≡ is_first number (get_by_text labels.now name.now) }
{
    match labels.get(name.as_str()) {
        None => false,
        Some(definition) => definition.line == number,
    }
}

fn place_of(labels: &Labels, name: &Utf8) -> Option<usize>
    ensures { result ≡ option_map (λ d. d.place) (get_by_text labels.now name.now) }
{
    match labels.get(name.as_str()) {
        None => None,
        Some(definition) => Some(definition.place),
    }
}

fn with_place(instr: Instr, place: usize) -> Instr
    ensures { result ≡ with_place place instr }
{
    match instr {
        Instr::Jump { place: _ } => Instr::Jump { place },
        Instr::JumpIf {
            op,
            left,
            right,
            place: _,
        } => Instr::JumpIf {
            op,
            left,
            right,
            place,
        },
        Instr::OpenPath {
            file,
            mode,
            path,
            place: _,
        } => Instr::OpenPath {
            file,
            mode,
            path,
            place,
        },
        Instr::ReadLine { to, file, place: _ } => Instr::ReadLine { to, file, place },
        Instr::Remove { path, place: _ } => Instr::Remove { path, place },
        Instr::Spawn {
            child,
            path,
            arguments,
            place: _,
        } => {
            Instr::Spawn {
                child,
                path,
                arguments,
                place,
            }
        }
        Instr::Fetch {
            cursor,
            to,
            place: _,
        } => Instr::Fetch { cursor, to, place },
        other => other,
    }
}
