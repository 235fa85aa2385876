//! The top call of the program, and the call of `main`.

ghost use Rattle.std.specs.Prelude.{◌≡◌, ◌≢◌, ◌⊎◌, ◌≤◌, ℕ, List, Some, true, false, length, map};
ghost use Rattle.std.specs.Prelude.{string_bytes, IfOk, OnOk};
ghost use Rattle.std.specs.Io.KnownBytes.{IsAtEnd};
ghost use Rattle.ldv_io.specs.Causes.{Rose};
ghost use Rattle.ldv_top.specs.Comes.{Comes, IsQuiet, Tells};
ghost use Rattle.ldv_top.specs.Exits.{status_of, line_of};
ghost use Rattle.ldv_top.specs.declared.exit.Exit.{Exit};
ghost use Rattle.ldv_top.specs.Due.{due_of, due_record, due_bytes, response_due};
ghost use Rattle.ldv_top.specs.Ends.{Ends, Responds};
ghost use Rattle.ldv_top.specs.DueOfMigrations.{due_migrate};
ghost use Rattle.ldv_top.specs.Migrated.{IsMigration};
ghost use Rattle.ldv_top.specs.Words.{IsBounded, reads};
ghost use Rattle.ldv_top.specs.Headline.{IsRecording};
ghost use Rattle.ldv_value.specs.Limits.{input_limit};
ghost use Rattle.run_model.specs.declared.package.Mode.{Mode};

use crate::command::{Command, read_words};
use crate::commands::audit::audit_response;
use crate::commands::generate::generate_response;
use crate::commands::inspection::inspect_response;
use crate::commands::join::join_response;
use crate::commands::migrate::migrate_response;
use crate::commands::prov::{prov_depends_response, prov_response};
use crate::commands::record::record_response;
use crate::commands::replay::replay_response;
use crate::commands::replay_run::replay_run_response;
use crate::commands::replay_seed::replay_seed_response;
use crate::commands::run::run_response;
use crate::commands::table::table_response;
use crate::exit::{Exit, status};
use crate::laws::document_law::document_law;
use crate::laws::headline_law::headline_law;
use crate::laws::report_law::report_law;
use crate::laws::seed_law::seed_law;
use crate::laws::two_runs_law::two_runs_law;
use crate::messages::exit_line;
use crate::response::Response;
use crate::word_stop::WordStop;
use ldv_io::{ReadStop, Sink, Source, read_all, write_all};
use ldv_value::{Bytes, INPUT_LIMIT};
use std::alloc::{AllocError, Global};

// Writes bytes, and ends with Done where the sink took them all.
fn write_output<K: Sink>(sink: &mut K, bytes: &[u8]) -> Exit
    ensures written { Comes (due_bytes bytes.now) result (K.taken sink.old) (K.taken sink.new) }
    ensures write_fault { result ≡ Exit.WriteFault → Rose (K.faults sink.old) (K.faults sink.new) }
    ensures loud { (result ≡ Exit.Done) ⊎ (result ≡ Exit.WriteFault) }
{
    match write_all(sink, bytes) {
        Ok(()) => Exit::Done,
        Err(_) => Exit::WriteFault,
    }
}

fn write_response<K: Sink>(sink: &mut K, response: Response) -> Exit
    ensures { Responds K.taken K.faults (response_due response) sink.old sink.new result }
{
    match response {
        Response::Written(bytes) => write_output(sink, bytes.as_slice()),
        Response::NotWorld(fault) => Exit::NotWorld(fault),
        Response::NotEnded(budget) => Exit::NotEnded { steps: budget },
        Response::Diverged(process, index) => Exit::Diverged { process, index },
        Response::Damaged(kind) => Exit::Damaged(kind),
        Response::NoSuch => Exit::NoSuch,
        Response::Clash(clash) => Exit::Clash(clash),
        Response::PackageTooLong => Exit::PackageTooLong,
        Response::NotPrivate => Exit::NotPrivate,
        Response::NotProv => Exit::NotProv,
    }
}

fn respond(alloc: Global, command: Command, input: Bytes) -> Result<Response, AllocError>
    requires short { length input ≤ input_limit }
    requires bounded { IsBounded command }
    ensures due { IfOk result (λ response. response_due response ≡ due_of (Some command) input) }
    ensures recorded { (mode : Mode) (budget : ℕ) → command ≡ Command.Record mode budget
        → OnOk result ((due_record mode budget input).exit ≡ Exit.Done
        → IsRecording mode budget input (due_record mode budget input).bytes) }
    ensures migrated { command ≡ Command.Migrate
        → OnOk result ((due_migrate input).exit ≡ Exit.Done
        → IsMigration input (due_migrate input).bytes) }
{
    match command {
        Command::Run { budget } => run_response(alloc, budget, input),
        Command::Record { mode, budget } => record_response(alloc, mode, budget, input),
        Command::Replay { budget } => replay_response(alloc, budget, input),
        Command::ReplaySeed { seed, budget } => replay_seed_response(alloc, seed, budget, input),
        Command::ReplayRun { which, budget } => replay_run_response(alloc, which, budget, input),
        Command::Join => join_response(alloc, input),
        Command::Audit { budget } => audit_response(alloc, budget, &input),
        Command::Table { name, step, budget } => {
            table_response(alloc, name.as_str(), step, budget, input)
        }
        Command::Inspect { report } => inspect_response(alloc, &report, input),
        Command::Generate { orders } => generate_response(alloc, orders),
        Command::Migrate => migrate_response(alloc, input),
        Command::Prov => prov_response(alloc, input),
        Command::ProvDepends { path } => prov_depends_response(alloc, path.as_str(), input),
    }
}

// Runs a command on its whole input, and writes what comes of it.
fn respond_and_write<K: Sink>(alloc: Global, command: Command, input: Bytes, sink: &mut K) -> Exit
    requires short { length input ≤ input_limit }
    requires bounded { IsBounded command }
    ensures responds { Responds K.taken K.faults (due_of (Some command) input) sink.old sink.new result }
    ensures recorded { (mode : Mode) (budget : ℕ) → command ≡ Command.Record mode budget → result ≡ Exit.Done
        → IsRecording mode budget input (due_record mode budget input).bytes }
    ensures migrated { command ≡ Command.Migrate → result ≡ Exit.Done
        → IsMigration input (due_migrate input).bytes }
{
    match respond(alloc, command, input) {
        Ok(response) => write_response(sink, response),
        Err(_) => Exit::NoMemory,
    }
}

// Whether the command reads its input.
fn reads(command: &Command) -> bool
    ensures { result ≡ reads (Some command.now) }
{
    match command {
        Command::Run { budget: _ } => true,
        Command::Record { mode: _, budget: _ } => true,
        Command::Replay { budget: _ } => true,
        Command::ReplaySeed { seed: _, budget: _ } => true,
        Command::ReplayRun {
            which: _,
            budget: _,
        } => true,
        Command::Join => true,
        Command::Audit { budget: _ } => true,
        Command::Table {
            name: _,
            step: _,
            budget: _,
        } => true,
        Command::Inspect { report: _ } => true,
        Command::Generate { orders: _ } => false,
        Command::Migrate => true,
        Command::Prov => true,
        Command::ProvDepends { path: _ } => true,
    }
}

// Runs a command that reads no input.
fn run_unread<K: Sink>(alloc: Global, command: Command, sink: &mut K) -> Exit
    requires bounded { IsBounded command }
    requires unread { reads (Some command) ≡ false }
    ensures { (input : List ℕ)
        → Responds K.taken K.faults (due_of (Some command) input) sink.old sink.new result }
{
    let input = Bytes::new(alloc);
    respond_and_write(alloc, command, input, sink)
}

// Reads the whole input, and runs on it a command that reads it.
fn run_command<S: Source, K: Sink>(
    alloc: Global,
    command: Command,
    source: &mut S,
    sink: &mut K,
) -> Exit
    requires bounded { IsBounded command }
    requires reading { reads (Some command) ≡ true }
    ensures read_fault { result ≡ Exit.ReadFault → Rose (S.faults source.old) (S.faults source.new) }
    ensures write_fault { result ≡ Exit.WriteFault → Rose (K.faults sink.old) (K.faults sink.new) }
    ensures due { (input : List ℕ) → S.left source.old ≡ Some input
        → Comes (due_of (Some command) input) result (K.taken sink.old) (K.taken sink.new) }
    ensures recorded { (mode : Mode) (budget : ℕ) (document : List ℕ) → command ≡ Command.Record mode budget
        → S.left source.old ≡ Some document → result ≡ Exit.Done
        → IsRecording mode budget document (due_record mode budget document).bytes }
    ensures migrated { (input : List ℕ) → command ≡ Command.Migrate → S.left source.old ≡ Some input
        → result ≡ Exit.Done → IsMigration input (due_migrate input).bytes }
    ensures unwritten { IsQuiet result → sink.new ≡ sink.old }
    ensures all_read { result ≡ Exit.Done → IsAtEnd (S.left source.new) }
    ensures not_usage { result ≢ Exit.Usage }
{
    match read_all(alloc, source, INPUT_LIMIT as u64) {
        Ok(input) => respond_and_write(alloc, command, input, sink),
        Err(ReadStop::Fault) => Exit::ReadFault,
        Err(ReadStop::TooLong) => Exit::TooLong,
        Err(ReadStop::NoMemory) => Exit::NoMemory,
    }
}

/// The program without its streams: it does the command of the words, from a source to a sink.
///
/// The words are read first, and if they are no command, no input is read. All bytes are made before the
/// first is written. `NoMemory` means that memory ran out, and no clause says when it comes. `Ends` of
/// `specs/Ends.antt` has the facts for each exit.
pub fn ldv<S: Source, K: Sink>(
    alloc: Global,
    words: &[String],
    source: &mut S,
    sink: &mut K,
) -> Exit
    ensures { Ends S.left S.faults K.taken K.faults (map string_bytes words.now) source.old source.new
        sink.old sink.new result }
{
    headline_law();
    report_law();
    seed_law();
    document_law();
    two_runs_law();
    match read_words(alloc, words) {
        Ok(command) => {
            if reads(&command) {
                run_command(alloc, command, source, sink)
            } else {
                run_unread(alloc, command, sink)
            }
        }
        Err(WordStop::Usage) => Exit::Usage,
        Err(WordStop::NoMemory) => Exit::NoMemory,
    }
}

/// The call of `main`: `ldv`, and then the line of its exit on `errors`; a fault of `errors` is ignored. It
/// returns the status of the exit.
pub fn ldv_main<S: Source, K: Sink, E: Sink>(
    alloc: Global,
    words: &[String],
    source: &mut S,
    sink: &mut K,
    errors: &mut E,
) -> u8
    ensures { (exit : Exit) × (result ≡ status_of exit)
        × Ends S.left S.faults K.taken K.faults (map string_bytes words.now) source.old source.new sink.old
        sink.new exit
        × Tells (E.faults errors.old) (E.faults errors.new) (E.taken errors.old) (E.taken errors.new)
        (line_of exit) }
{
    let exit = ldv(alloc, words, source, sink);
    let _ = exit_line(&exit, errors);
    status(&exit)
}
