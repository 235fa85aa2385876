//! From the bytes of a script to its lines.

ghost use Rattle.std.specs.Prelude.{◌≡◌, ◌⊎◌, ◌++◌, ◌∷◌, [], ◌<◌, ◌==◌, length, position};
ghost use Rattle.std.specs.Prelude.{IfOk, OnOk};
ghost use Rattle.script_parse.specs.Grammar.{EndsInReturn};
ghost use Rattle.script_parse.specs.Lines.{lines_of, line_of};
ghost use Rattle.script_parse.specs.Script.{entry_of, entries_from, entries_of};

use crate::form::read_line;
use crate::line::{Entries, Entry, Line};
use crate::line_stop::LineStop;
use std::alloc::{AllocError, Global};

/// The lines of a script that are neither empty nor comments, with their numbers from 1.
pub(crate) fn entries(alloc: Global, bytes: &[u8]) -> Result<Entries, AllocError>
    ensures { IfOk result (λ entries. entries ≡ entries_of bytes.now) }
{
    let mut entries = Entries::new(alloc);
    let mut rest = bytes;
    let mut done: u64 = 0;
    while !rest.is_empty() {
        let (line, next) = next_line(rest);
        done += 1;
        add(alloc, &mut entries, done, line)?;
        rest = next;
    }
    Ok(entries)
}

// Adds what a line says, unless the line is empty or a comment.
fn add(alloc: Global, entries: &mut Entries, number: u64, line: &[u8]) -> Result<(), AllocError>
    ensures { OnOk result (entries.new ≡ entries.old ++ entry_of number (line_of line.now)) }
{
    match read_line(alloc, line) {
        Ok(Line::Blank) => Ok(()),
        Ok(Line::Label(name)) => entries.push(Entry {
            number,
            line: Some(Line::Label(name)),
        }),
        Ok(Line::Plain(instr)) => entries.push(Entry {
            number,
            line: Some(Line::Plain(instr)),
        }),
        Ok(Line::Jumping(instr, label)) => {
            entries.push(Entry {
                number,
                line: Some(Line::Jumping(instr, label)),
            })
        }
        Err(LineStop::Malformed) => entries.push(Entry { number, line: None }),
        Err(LineStop::NoMemory) => Err(AllocError),
    }
}

// The first line, and the bytes after its end.
#[tactic(auto, using(crate::proofs::Cut::cut_rules))]
fn next_line(bytes: &[u8]) -> (&[u8], &[u8])
    requires { 0 < length bytes.now }
    ensures cut { lines_of bytes.now ≡ result.0.now ∷ lines_of result.1.now }
    ensures shorter { length result.1.now < length bytes.now }
{
    match first_feed(bytes) {
        None => (bytes, &bytes[bytes.len()..]),
        Some(end) => (without_return(&bytes[..end]), &bytes[end + 1..]),
    }
}

// The place of the first LF.
fn first_feed(bytes: &[u8]) -> Option<usize>
    ensures { result ≡ position (λ b. b == 10) bytes.now }
{
    bytes.iter().position(|b| *b == b'\n')
}

// A line without the CR at its end.
fn without_return(line: &[u8]) -> &[u8]
    ensures { (line.now ≡ result.now ++ 13 ∷ []) ⊎ ((result.now ≡ line.now) × (¬ EndsInReturn line.now)) }
{
    match line.strip_suffix(b"\r") {
        None => line,
        Some(front) => front,
    }
}
