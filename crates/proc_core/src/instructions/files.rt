//! `open`, `readline`, `write`, `remove` and `exists`.

ghost use Rattle.std.specs.Prelude.{◌≡◌, ◌+◌, ◌<◌, ◌^◌, ◌∷◌, [], ℕ, pos, IsTrue, Some, List as Items, map};
ghost use Rattle.std.specs.Prelude.{IfOk, IfSome, OnOk};
ghost use Rattle.std.specs.Option.{option_map};
ghost use Rattle.ldv_value.specs.FileState.{FileState, is_there};
ghost use Rattle.ldv_value.specs.Names.{path_test};
ghost use Rattle.run_model.specs.Core.{OpenFile};
ghost use Rattle.run_model.specs.Events.{event_at};
ghost use Rattle.run_model.specs.StepFiles.{path_in, allows_read, allows_write, open_act, opened_file};
ghost use Rattle.run_model.specs.StepFiles.{number_of_test};
ghost use Rattle.run_model.specs.StepVariables.{printed_line};
ghost use Rattle.proc_core.specs.Types.{Unopened};
ghost use Rattle.proc_core.specs.inner.Acts.{path_act};
ghost use Rattle.proc_core.specs.inner.Slots.{slot_value, slot_values, slot_went_to, slot_went_on};
ghost use Rattle.proc_core.specs.inner.Slots.{slot_with_file};
ghost use Rattle.proc_core.specs.inner.Slots.{open_at};
ghost use Rattle.proc_core.specs.inner.SlotFiles.{Leaves, slot_open_path, slot_open_found, slot_open_for};
ghost use Rattle.proc_core.specs.inner.SlotFiles.{slot_take_line, IsReadBy, read_acts, slot_read_next};
ghost use Rattle.proc_core.specs.inner.SlotFiles.{slot_remove};
ghost use Rattle.proc_core.specs.inner.SlotFiles.{LeavesAppended, slot_write_text, slot_on_or_ended};
ghost use Rattle.proc_core.specs.inner.SlotFiles.{slot_remove_found};
ghost use Rattle.proc_core.specs.inner.SlotFiles.{slot_exists, slot_on_files};
ghost use Rattle.proc_core.specs.Stands.{AppendsEvents};

use crate::file_slots::SlotFile;
use crate::instructions::computed::{BAD_PATH, NOT_UTF8, TOO_LONG, WRONG_KIND};
use crate::instructions::copy::copy;
use crate::instructions::variables::{line_of, value_of};
use crate::process::SlotProcess;
use crate::tell::{PathAct, Who, tell_path};
use file_tree::{AppendStop, Tree, TreeStop};
use ldv_value::{Bytes, LineRead, OpenMode, Utf8, Value, is_path};
use run_model::Tracer;
use script_code::{FileInstr, SlotOperand, SlotOperands};
use std::alloc::{AllocError, Global};

// The path that a value is.
#[tactic(auto, using(crate::proofs::OpenFiles::path_found))]
fn path_in(value: Value) -> Option<Utf8>
    ensures path { result ≡ path_in value }
    ensures valid { IfSome result (λ path. IsTrue (path_test path)) }
{
    match value {
        Value::Null => None,
        Value::Int(_) => None,
        Value::Text(text) => {
            if is_path(text.as_str()) {
                Some(text)
            } else {
                None
            }
        }
    }
}

/// The path that an operand has.
pub(crate) fn path_of(
    alloc: Global,
    process: &SlotProcess,
    operand: &SlotOperand,
) -> Result<Option<Utf8>, AllocError>
    ensures path { IfOk result (λ path. path ≡ path_in (slot_value process.now operand.now)) }
    ensures valid { IfOk result (λ path. IfSome path (λ p. IsTrue (path_test p))) }
{
    Ok(path_in(value_of(alloc, process, operand)?))
}

fn open_kind(mode: OpenMode, found: bool) -> PathAct
    ensures { (path : Items ℕ) → path_act result path ≡ open_act mode path found }
{
    match mode {
        OpenMode::Read => PathAct::OpenedRead,
        OpenMode::Write => PathAct::OpenedWrite,
        OpenMode::Append => PathAct::OpenedAppend(found),
        OpenMode::New => PathAct::OpenedNew,
    }
}

// Ends an `open` that isn't refused: it is reported, and the slot means the open file.
fn finish_open<T: Tracer>(
    found: bool,
    slot: usize,
    mode: OpenMode,
    path: Utf8,
    process: &mut SlotProcess,
    who: Who,
    tracer: &mut T,
) -> Result<(), AllocError>
    requires valid { IsTrue (path_test path) }
    requires room { process.old.place + 1 < 2 ^ 64 }
    ensures process { OnOk result (process.new
        ≡ slot_went_on (slot_with_file slot (Some (opened_file path mode)) process.old)) }
    ensures told { OnOk result (AppendsEvents T.KEEPS (T.events tracer.old) (T.events tracer.new)
        (event_at who.step who.number (open_act mode path found) ∷ [])) }
{
    tell_path(who, open_kind(mode, found), &path, tracer)?;
    process
        .files
        .set(slot, Some(SlotFile::at_start(path, mode)));
    process.go_on();
    Ok(())
}

// Ends an `open` that is refused: it is reported, and the process goes on at the label.
fn refuse_open<T: Tracer>(
    found: bool,
    path: &Utf8,
    place: usize,
    process: &mut SlotProcess,
    who: Who,
    tracer: &mut T,
) -> Result<(), AllocError>
    ensures process { OnOk result (process.new ≡ slot_went_to place process.old) }
    ensures told { OnOk result (AppendsEvents T.KEEPS (T.events tracer.old) (T.events tracer.new)
        (event_at who.step who.number (Unopened path.now found) ∷ [])) }
{
    tell_path(who, PathAct::Unopened(found), path, tracer)?;
    process.go_to(place);
    Ok(())
}

// Opens a path.
fn open_there<T: Tracer>(
    slot: usize,
    mode: OpenMode,
    path: Utf8,
    place: usize,
    process: &mut SlotProcess,
    tree: &mut Tree,
    who: Who,
    tracer: &mut T,
) -> Result<(), AllocError>
    requires valid { IsTrue (path_test path) }
    requires room { process.old.place + 1 < 2 ^ 64 }
    ensures left { OnOk result (Leaves (slot_open_found (is_there tree.old path) slot mode path place
        process.old tree.old) process.new tree.new) }
    ensures told { OnOk result (AppendsEvents T.KEEPS (T.events tracer.old) (T.events tracer.new)
        (map (event_at who.step who.number) (slot_open_found (is_there tree.old path) slot mode path place
        process.old tree.old).acts)) }
{
    let found = tree.exists(path.as_str());
    match tree.open_path(mode, path.as_str()) {
        Ok(()) => {
            finish_open(found, slot, mode, path, process, who, tracer)?;
            Ok(())
        }
        Err(TreeStop::Absent) => {
            refuse_open(found, &path, place, process, who, tracer)?;
            Ok(())
        }
        Err(TreeStop::Taken) => {
            refuse_open(found, &path, place, process, who, tracer)?;
            Ok(())
        }
        Err(TreeStop::NoMemory) => Err(AllocError),
    }
}

/// `open f M v else L`
fn open<T: Tracer>(
    slot: usize,
    mode: OpenMode,
    path: Option<Utf8>,
    place: usize,
    process: &mut SlotProcess,
    tree: &mut Tree,
    who: Who,
    tracer: &mut T,
) -> Result<(), AllocError>
    requires valid { IfSome path (λ p. IsTrue (path_test p)) }
    requires room { process.old.place + 1 < 2 ^ 64 }
    ensures left { OnOk result (Leaves (slot_open_path path slot mode place process.old tree.old)
        process.new tree.new) }
    ensures told { OnOk result (AppendsEvents T.KEEPS (T.events tracer.old) (T.events tracer.new)
        (map (event_at who.step who.number)
        (slot_open_path path slot mode place process.old tree.old).acts)) }
{
    match path {
        None => {
            process.end(BAD_PATH);
            Ok(())
        }
        Some(path) => open_there(slot, mode, path, place, process, tree, who, tracer),
    }
}

/// The open file in a slot, if it allows reading.
pub(crate) fn open_to_read(process: &SlotProcess, slot: usize) -> Option<&SlotFile>
    ensures { option_map (λ file. file.now) result ≡ slot_open_for allows_read slot process.now }
{
    match process.files.get(slot) {
        None => None,
        Some(file) => match file.mode() {
            OpenMode::Read => Some(file),
            OpenMode::Write => None,
            OpenMode::Append => None,
            OpenMode::New => None,
        },
    }
}

/// The open file in a slot, if it allows writing.
pub(crate) fn open_to_write(process: &SlotProcess, slot: usize) -> Option<&SlotFile>
    ensures { option_map (λ file. file.now) result ≡ slot_open_for allows_write slot process.now }
{
    match process.files.get(slot) {
        None => None,
        Some(file) => match file.mode() {
            OpenMode::Read => None,
            OpenMode::Write => Some(file),
            OpenMode::Append => Some(file),
            OpenMode::New => Some(file),
        },
    }
}

// Gives a variable the line that was read, goes on at the label at the end of the file, or ends by misuse.
fn take_line(
    read: LineRead,
    to: usize,
    slot: usize,
    place: usize,
    process: &mut SlotProcess,
) -> Result<(), AllocError>
    requires room { process.old.place + 1 < 2 ^ 64 }
    ensures { OnOk result ((file : OpenFile) → open_at slot process.old ≡ Some file
        → process.new ≡ slot_take_line read to slot file place process.old) }
{
    match read {
        LineRead::End => process.go_to(place),
        LineRead::Line { text, next } => {
            process.files.move_to(slot, next);
            process.set_variable(to, Value::Text(text))?;
            process.go_on();
        }
        LineRead::TooLong => process.end(TOO_LONG),
        LineRead::NotText => process.end(NOT_UTF8),
    }
    Ok(())
}

// Reads a line of the open file in a slot; none where that isn't open for reading.
fn read<T: Tracer>(
    slot: usize,
    process: &SlotProcess,
    tree: &Tree,
    who: Who,
    tracer: &mut T,
) -> Result<Option<LineRead>, AllocError>
    ensures read { IfOk result (λ read. IsReadBy (slot_open_for allows_read slot process.now) tree.now read) }
    ensures told { OnOk result (AppendsEvents T.KEEPS (T.events tracer.old) (T.events tracer.new)
        (map (event_at who.step who.number) (read_acts (slot_open_for allows_read slot process.now)))) }
{
    match open_to_read(process, slot) {
        None => Ok(None),
        Some(file) => {
            tell_path(who, PathAct::Read, file.path(), tracer)?;
            Ok(Some(tree.read_line(file.path().as_str(), file.place())?))
        }
    }
}

// Takes what was read, or ends by misuse where the slot has no file that is open for reading.
fn take_read(
    read: Option<LineRead>,
    to: usize,
    slot: usize,
    place: usize,
    process: &mut SlotProcess,
) -> Result<(), AllocError>
    requires { process.old.place + 1 < 2 ^ 64 }
    ensures { OnOk result ((st : FileState) → IsReadBy (slot_open_for allows_read slot process.old) st read
        → process.new ≡ (slot_read_next (slot_open_for allows_read slot process.old) to slot place process.old
        st).process) }
{
    match read {
        None => process.end(WRONG_KIND),
        Some(line) => take_line(line, to, slot, place, process)?,
    }
    Ok(())
}

/// `readline x f else L`
fn read_line<T: Tracer>(
    to: usize,
    slot: usize,
    place: usize,
    process: &mut SlotProcess,
    tree: &Tree,
    who: Who,
    tracer: &mut T,
) -> Result<(), AllocError>
    requires room { process.old.place + 1 < 2 ^ 64 }
    ensures left { OnOk result (process.new ≡ (slot_read_next (slot_open_for allows_read slot process.old) to
        slot place process.old tree.now).process) }
    ensures told { OnOk result (AppendsEvents T.KEEPS (T.events tracer.old) (T.events tracer.new)
        (map (event_at who.step who.number) (slot_read_next (slot_open_for allows_read slot process.old) to
        slot place process.old tree.now).acts)) }
{
    let line = read(slot, process, tree, who, tracer)?;
    take_read(line, to, slot, place, process)?;
    Ok(())
}

// Appends a line to the open file in a slot. It returns the status of misuse, where it is misuse.
fn append<T: Tracer>(
    slot: usize,
    line: &Bytes,
    process: &SlotProcess,
    tree: &mut Tree,
    who: Who,
    tracer: &mut T,
) -> Result<Option<u8>, AllocError>
    ensures left { IfOk result (λ misuse. LeavesAppended
        (slot_open_for allows_write slot process.now) line.now
        process.now tree.old misuse tree.new) }
    ensures told { OnOk result (AppendsEvents T.KEEPS (T.events tracer.old) (T.events tracer.new)
        (map (event_at who.step who.number) (slot_write_text (slot_open_for allows_write slot process.now)
        line.now process.now tree.old).acts)) }
{
    match open_to_write(process, slot) {
        None => Ok(Some(WRONG_KIND)),
        Some(file) => match tree.append(file.path().as_str(), line.as_slice()) {
            Ok(()) => {
                tell_path(who, PathAct::Wrote, file.path(), tracer)?;
                Ok(None)
            }
            Err(AppendStop::TooLong) => Ok(Some(TOO_LONG)),
            Err(AppendStop::NoMemory) => Err(AllocError),
        },
    }
}

// Goes on, or ends by misuse.
fn go_on_or_end(misuse: Option<u8>, process: &mut SlotProcess)
    requires { process.old.place + 1 < 2 ^ 64 }
    ensures { process.new ≡ slot_on_or_ended misuse process.old }
{
    match misuse {
        None => process.go_on(),
        Some(status) => process.end(status),
    }
}

/// `write f v v*`
fn write_line<T: Tracer>(
    alloc: Global,
    slot: usize,
    operands: &SlotOperands,
    process: &mut SlotProcess,
    tree: &mut Tree,
    who: Who,
    tracer: &mut T,
) -> Result<(), AllocError>
    requires room { process.old.place + 1 < 2 ^ 64 }
    ensures left { OnOk result (Leaves (slot_write_text (slot_open_for allows_write slot process.old)
        (printed_line (slot_values process.old operands.now)) process.old tree.old) process.new tree.new) }
    ensures told { OnOk result (AppendsEvents T.KEEPS (T.events tracer.old) (T.events tracer.new)
        (map (event_at who.step who.number) (slot_write_text (slot_open_for allows_write slot process.old)
        (printed_line (slot_values process.old operands.now)) process.old tree.old).acts)) }
{
    let line = line_of(alloc, process, operands)?;
    let misuse = append(slot, &line, process, tree, who, tracer)?;
    go_on_or_end(misuse, process);
    Ok(())
}

/// `remove v else L`
fn remove<T: Tracer>(
    path: Option<Utf8>,
    place: usize,
    process: &mut SlotProcess,
    tree: &mut Tree,
    who: Who,
    tracer: &mut T,
) -> Result<(), AllocError>
    requires room { process.old.place + 1 < 2 ^ 64 }
    ensures left { OnOk result (Leaves (slot_remove path place process.old tree.old) process.new tree.new) }
    ensures told { OnOk result (AppendsEvents T.KEEPS (T.events tracer.old) (T.events tracer.new)
        (map (event_at who.step who.number) (slot_remove path place process.old tree.old).acts)) }
{
    match path {
        None => {
            process.end(BAD_PATH);
            Ok(())
        }
        Some(path) => remove_path(&path, place, process, tree, who, tracer),
    }
}

fn remove_path<T: Tracer>(
    path: &Utf8,
    place: usize,
    process: &mut SlotProcess,
    tree: &mut Tree,
    who: Who,
    tracer: &mut T,
) -> Result<(), AllocError>
    requires room { process.old.place + 1 < 2 ^ 64 }
    ensures left { OnOk result (Leaves (slot_remove_found (is_there tree.old path.now) path.now place
        process.old tree.old) process.new tree.new) }
    ensures told { OnOk result (AppendsEvents T.KEEPS (T.events tracer.old) (T.events tracer.new)
        (map (event_at who.step who.number) (slot_remove_found (is_there tree.old path.now) path.now place
        process.old tree.old).acts)) }
{
    match tree.remove(path.as_str()) {
        Ok(()) => {
            tell_path(who, PathAct::Removed, path, tracer)?;
            process.go_on();
            Ok(())
        }
        Err(TreeStop::Absent) => {
            tell_path(who, PathAct::Tested(false), path, tracer)?;
            process.go_to(place);
            Ok(())
        }
        Err(TreeStop::Taken) => unreachable!(),
        Err(TreeStop::NoMemory) => Err(AllocError),
    }
}

/// `exists x v`
fn exists<T: Tracer>(
    path: Option<Utf8>,
    to: usize,
    process: &mut SlotProcess,
    tree: &Tree,
    who: Who,
    tracer: &mut T,
) -> Result<(), AllocError>
    requires room { process.old.place + 1 < 2 ^ 64 }
    ensures left { OnOk result (process.new ≡ (slot_exists path to process.old tree.now).process) }
    ensures told { OnOk result (AppendsEvents T.KEEPS (T.events tracer.old) (T.events tracer.new)
        (map (event_at who.step who.number) (slot_exists path to process.old tree.now).acts)) }
{
    match path {
        None => {
            process.end(BAD_PATH);
            Ok(())
        }
        Some(path) => {
            let found = tree.exists(path.as_str());
            tell_path(who, PathAct::Tested(found), &path, tracer)?;
            process.set_variable(to, Value::Int(number_of_test(found)))?;
            process.go_on();
            Ok(())
        }
    }
}

fn number_of_test(found: bool) -> i64
    ensures { result ≡ pos (number_of_test found) }
{
    if found { 1 } else { 0 }
}

/// Executes an instruction that reads or changes files.
pub(crate) fn execute_on_files<T: Tracer>(
    alloc: Global,
    instr: &FileInstr,
    process: &mut SlotProcess,
    tree: &mut Tree,
    who: Who,
    tracer: &mut T,
) -> Result<(), AllocError>
    requires room { process.old.place + 1 < 2 ^ 64 }
    ensures left { OnOk result (Leaves (slot_on_files instr.now process.old tree.old) process.new tree.new) }
    ensures told { OnOk result (AppendsEvents T.KEEPS (T.events tracer.old) (T.events tracer.new)
        (map (event_at who.step who.number) (slot_on_files instr.now process.old tree.old).acts)) }
{
    match instr {
        FileInstr::OpenPath {
            file,
            mode,
            path,
            place,
        } => {
            let path = path_of(alloc, process, path)?;
            open(*file, *mode, path, *place, process, tree, who, tracer)?;
            Ok(())
        }
        FileInstr::ReadLine { to, file, place } => {
            read_line(*to, *file, *place, process, tree, who, tracer)?;
            Ok(())
        }
        FileInstr::WriteLine { file, values } => {
            write_line(alloc, *file, values, process, tree, who, tracer)?;
            Ok(())
        }
        FileInstr::CopyRest { source, target } => {
            copy(*source, *target, process, tree, who, tracer)?;
            Ok(())
        }
        FileInstr::Remove { path, place } => {
            let path = path_of(alloc, process, path)?;
            remove(path, *place, process, tree, who, tracer)?;
            Ok(())
        }
        FileInstr::Exists { to, path } => {
            let path = path_of(alloc, process, path)?;
            exists(path, *to, process, tree, who, tracer)?;
            Ok(())
        }
    }
}
