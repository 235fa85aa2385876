//! The state in which a run begins.

ghost use Rattle.std.specs.Prelude.{◌≡◌, ◌<◌, ◌∷◌, Some, List as Items, [], length, map, true, IfOk, IsSome};
ghost use Rattle.std.specs.Option.{option_and_then};
ghost use Rattle.ldv_value.specs.FileState.{content_at, initial_files};
ghost use Rattle.script_parse.specs.Script.{script_of};
ghost use Rattle.proc_core.specs.Types.{Instr, File, Text};
ghost use Rattle.run_model.specs.Core.{new_process, start_core};
ghost use Rattle.script_code.specs.Resolved.{IsCode};
ghost use Rattle.proc_core.specs.inner.Counts.{CountsBelow};
ghost use Rattle.proc_core.specs.Running.{IsReady};
ghost use Rattle.proc_core.specs.Stands.{Holds, HasStartScript, IsCore, IsStartScript};

use crate::machine::{Codes, Machine};
use crate::process::SlotProcess;
use crate::spawn::new_process::new_process;
use file_tree::Tree;
use ldv_value::{Numbers, Parts, Utf8, Value, Values, Words};
use ready_set::ReadySet;
use script_code::{Code, code_of};
use script_parse::{Script, known_script};
use std::alloc::{AllocError, Global};
use std::collections::BTreeMap;

// The script of a file.
fn script_at(alloc: Global, tree: &Tree, path: &Utf8) -> Result<Script, AllocError>
    requires { IsSome (option_and_then script_of (content_at tree.now path.now)) }
    ensures { IfOk result (λ script. option_and_then script_of (content_at tree.now path.now)
        ≡ Some script.instructions) }
{
    match tree.state(path.as_str()) {
        None => unreachable!(),
        Some(bytes) => known_script(alloc, bytes),
    }
}

/// The script of the file at the first start word.
pub(crate) fn start_script(start: &Words, tree: &Tree) -> Result<Script, AllocError>
    requires words { 0 < length start.now }
    requires script { HasStartScript start.now tree.now }
    ensures { IfOk result (λ script. IsStartScript start.now tree.now script.instructions) }
{
    match start.items() {
        [] => unreachable!(),
        [path, _words @ ..] => script_at(start.allocator(), tree, path),
    }
}

// The resolved form of a file's script, which was parsed.
fn code_at(alloc: Global, tree: &Tree, path: &Utf8, script: &Script) -> Result<Code, AllocError>
    requires { option_and_then script_of (content_at tree.now path.now) ≡ Some script.now.instructions }
    ensures { IfOk result (λ code. (due : Items Instr)
        → option_and_then script_of (content_at tree.now path.now) ≡ Some due → IsCode code due) }
{
    match tree.state(path.as_str()) {
        None => unreachable!(),
        Some(bytes) => code_of(alloc, bytes, &script.instructions),
    }
}

// The set of processes that may run, with the first one alone.
fn first_ready_set(alloc: Global) -> Result<ReadySet, AllocError>
    ensures { IfOk result (λ ready. ready.flags ≡ true ∷ []) }
{
    let mut ready = ReadySet::new(alloc)?;
    ready.push(true);
    Ok(ready)
}

// Start words after the first, as values.
fn arguments_of(alloc: Global, words: &[Utf8]) -> Result<Values, AllocError>
    ensures { IfOk result (λ values. values ≡ map Text words.now) }
{
    let mut values = Values::with_capacity(alloc, words.len())?;
    for word in words {
        values.push(Value::Text(word.copy()?))?;
    }
    Ok(values)
}

// The first process.
fn first_process(alloc: Global, code: &Code, words: &[Utf8]) -> Result<SlotProcess, AllocError>
    ensures { IfOk result (λ r. (script : Items Instr)
        → Holds code.now.scope 0 script r (new_process (0 ∷ []) script (map Text words.now))) }
{
    let mut name = Parts::new(alloc);
    name.push(0)?;
    let arguments = arguments_of(alloc, words)?;
    new_process(alloc, name, 0, code, arguments.items())
}

/// The machine of the script at a path, which was parsed, with the other start words as its arguments.
pub(crate) fn machine_at(
    alloc: Global,
    path: &Utf8,
    words: &[Utf8],
    script: &Script,
    seed: u64,
    tree: Tree,
) -> Result<Machine, AllocError>
    requires { option_and_then script_of (content_at tree path.now) ≡ Some script.now.instructions }
    ensures core { IfOk result (λ m. (due : Items Instr) (files : Items File) → tree ≡ initial_files files
        → option_and_then script_of (content_at tree path.now) ≡ Some due
        → IsCore m (start_core (path.now ∷ words.now) seed files due)) }
    ensures ready { IfOk result (λ m. (due : Items Instr) (files : Items File)
        → IsReady m (start_core (path.now ∷ words.now) seed files due)) }
    ensures counted { IfOk result (CountsBelow 1) }
{
    let code = code_at(alloc, &tree, path, script)?;
    let process = first_process(alloc, &code, words)?;
    let ready = first_ready_set(alloc)?;
    let mut codes = Codes::new(alloc);
    codes.push(code)?;
    let mut processes = Vec::new(alloc);
    processes.push(process)?;
    let mut parents = Numbers::new(alloc);
    parents.push(0)?;
    let mut runners = BTreeMap::new(alloc);
    runners.insert(path.copy()?.into_string(), 0)?;
    Ok(Machine {
        alloc,
        codes,
        processes,
        tree,
        seed,
        last: 0,
        generator: seed,
        asked: 0,
        ready,
        parents,
        runners,
    })
}
