//! The script of the file at the first start word, and the faults NoStart and BadScript.

ghost use Rattle.std.specs.Prelude.{◌≡◌, ◌≤◌, ◌<◌, ◌^◌, Some, IfOk, IfErr, IfSome, length, true};
ghost use Rattle.std.specs.Option.{option_and_then, option_map};
ghost use Rattle.ldv_value.specs.FileState.{file_at};
ghost use Rattle.ldv_value.specs.Limits.{file_limit};
ghost use Rattle.script_parse.specs.Script.{script_of};
ghost use Rattle.world_json.specs.Faults.{start_of, are_files_within};
ghost use Rattle.world_json.specs.Reading.{IsStopFor, script_fault, start_fault_of};

use crate::fault::{WorldFault, WorldStop};
use ldv_value::{File, Files, Utf8, Words};
use script_parse::{Script, ScriptStop, parse_script};
use std::alloc::Global;

/// The script of the file at the first start word, or the fault NoStart or BadScript.
pub(crate) fn parse_start(alloc: Global, start: &Words, files: &Files) -> Result<Script, WorldStop>
    requires { are_files_within files.now ≡ true }
    ensures parsed { IfOk result (λ script. option_and_then (λ file. script_of file.content)
        (start_of start.now files.now) ≡ Some script.instructions) }
    ensures fault { IfErr result (IsStopFor (start_fault_of (start_of start.now files.now))) }
{
    match find_start(start, files) {
        None => Err(WorldStop::Fault(WorldFault::NoStart)),
        Some(file) => parse_content(alloc, file.content.as_slice()),
    }
}

fn parse_content(alloc: Global, bytes: &[u8]) -> Result<Script, WorldStop>
    requires { length bytes.now < 2 ^ 32 }
    ensures parsed { IfOk result (λ script. script_of bytes.now ≡ Some script.instructions) }
    ensures fault { IfErr result (IsStopFor (script_fault bytes.now (script_of bytes.now))) }
{
    match parse_script(alloc, bytes) {
        Ok(script) => Ok(script),
        Err(ScriptStop::Line(number)) => {
            Err(WorldStop::Fault(WorldFault::BadScript(line_number(number))))
        }
        Err(ScriptStop::NoMemory) => Err(WorldStop::NoMemory),
    }
}

// The number of a line in a file, which isn't long.
fn line_number(number: u64) -> u32
    requires { number < 2 ^ 32 }
    ensures { result ≡ number }
{
    number as u32
}

fn find_start<'a>(start: &Words, files: &'a Files) -> Option<&'a File>
    requires { are_files_within files.now ≡ true }
    ensures file { option_map (λ file. file.now) result ≡ start_of start.now files.now }
    ensures short { IfSome result (λ file. length file.now.content ≤ file_limit) }
{
    match start.get(0) {
        None => None,
        Some(word) => find_short_file(files, word),
    }
}

#[tactic(auto, using(crate::proofs::Found::found_short))]
fn find_short_file<'a>(files: &'a Files, path: &Utf8) -> Option<&'a File>
    requires { are_files_within files.now ≡ true }
    ensures file { option_map (λ file. file.now) result ≡ file_at path.now files.now }
    ensures short { IfSome result (λ file. length file.now.content ≤ file_limit) }
{
    files.find(path)
}
