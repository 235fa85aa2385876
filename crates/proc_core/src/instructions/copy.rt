//! `copy`: the rest of a file is appended to another.

ghost use Rattle.std.specs.Prelude.{◌≡◌, ◌+◌, ◌<◌, ◌^◌, ◌∷◌, [], map, Some, IfOk, OnOk};
ghost use Rattle.ldv_value.specs.FileState.{FileState};
ghost use Rattle.run_model.specs.Events.{event_at};
ghost use Rattle.run_model.specs.StepFiles.{allows_read, allows_write};
ghost use Rattle.run_model.specs.Core.{OpenFile};
ghost use Rattle.proc_core.specs.Types.{Read, Wrote};
ghost use Rattle.run_model.specs.StepBase.{wrong_kind};
ghost use Rattle.proc_core.specs.inner.Slots.{open_at, slot_ended};
ghost use Rattle.proc_core.specs.inner.SlotCopy.{CopiesTo, CopiesAt, copy_acts, slot_copied};
ghost use Rattle.proc_core.specs.inner.SlotFiles.{Leaves, slot_copy_between, slot_open_for};
ghost use Rattle.proc_core.specs.Stands.{AppendsEvents};

use crate::file_slots::SlotFile;
use crate::instructions::computed::{TOO_LONG, WRONG_KIND};
use crate::instructions::files::{open_to_read, open_to_write};
use crate::process::SlotProcess;
use crate::tell::{PathAct, Who, tell_path};
use file_tree::{AppendStop, Tree};
use ldv_value::Utf8;
use run_model::Tracer;
use std::alloc::AllocError;

/// How a copy ends.
#[derive(Clone, Copy)]
pub(crate) enum Copying {
    /// One of the names means no file that is open for it.
    Misused,
    /// The target would be too long.
    TooLong,
    /// The place after what was copied.
    Copied(u32),
}

// Reports a read and a write.
fn tell_copy<T: Tracer>(
    source: &Utf8,
    target: &Utf8,
    who: Who,
    tracer: &mut T,
) -> Result<(), AllocError>
    ensures { OnOk result (AppendsEvents T.KEEPS (T.events tracer.old) (T.events tracer.new)
        (map (event_at who.step who.number) (Read source.now ∷ Wrote target.now ∷ []))) }
{
    tell_path(who, PathAct::Read, source, tracer)?;
    tell_path(who, PathAct::Wrote, target, tracer)
}

// Appends the rest of an open file to another. It returns the place after what was copied, or `None` where
// the target would be too long.
fn copy_between<T: Tracer>(
    source: &SlotFile,
    target: &SlotFile,
    tree: &mut Tree,
    who: Who,
    tracer: &mut T,
) -> Result<Option<u32>, AllocError>
    ensures copied { IfOk result (CopiesTo source.now target.now tree.old tree.new) }
    ensures told { IfOk result (λ next. AppendsEvents T.KEEPS (T.events tracer.old) (T.events tracer.new)
        (map (event_at who.step who.number) (copy_acts source.now target.now next))) }
{
    let read = source.path();
    let written = target.path();
    match tree.copy_rest(read.as_str(), source.place(), written.as_str()) {
        Ok(next) => {
            tell_copy(read, written, who, tracer)?;
            Ok(Some(next))
        }
        Err(AppendStop::TooLong) => {
            tell_path(who, PathAct::Read, read, tracer)?;
            Ok(None)
        }
        Err(AppendStop::NoMemory) => Err(AllocError),
    }
}

fn how_copied(next: Option<u32>) -> Copying
    ensures { (source target : OpenFile) (old new : FileState) → CopiesTo source target old new next
        → CopiesAt (Some source) (Some target) old result new }
{
    match next {
        None => Copying::TooLong,
        Some(next) => Copying::Copied(next),
    }
}

fn copy_at<T: Tracer>(
    source: usize,
    target: usize,
    process: &SlotProcess,
    tree: &mut Tree,
    who: Who,
    tracer: &mut T,
) -> Result<Copying, AllocError>
    ensures copied { IfOk result (λ copying. CopiesAt (slot_open_for allows_read source process.now)
        (slot_open_for allows_write target process.now) tree.old copying tree.new) }
    ensures told { OnOk result (AppendsEvents T.KEEPS (T.events tracer.old) (T.events tracer.new)
        (map (event_at who.step who.number) (slot_copy_between source
        (slot_open_for allows_read source process.now) (slot_open_for allows_write target process.now)
        process.now tree.old).acts)) }
{
    let Some(read) = open_to_read(process, source) else {
        return Ok(Copying::Misused);
    };
    let Some(written) = open_to_write(process, target) else {
        return Ok(Copying::Misused);
    };
    let next = copy_between(read, written, tree, who, tracer)?;
    Ok(how_copied(next))
}

// Moves the place in the source after what was copied and goes on, or ends by misuse.
fn take_copy(copying: Copying, slot: usize, process: &mut SlotProcess)
    requires room { process.old.place + 1 < 2 ^ 64 }
    ensures misused { copying ≡ Copying.Misused → process.new ≡ slot_ended wrong_kind process.old }
    ensures copied { (file : OpenFile) → open_at slot process.old ≡ Some file
        → process.new ≡ slot_copied copying slot file process.old }
{
    match copying {
        Copying::Misused => process.end(WRONG_KIND),
        Copying::TooLong => process.end(TOO_LONG),
        Copying::Copied(next) => {
            process.files.move_to(slot, next);
            process.go_on();
        }
    }
}

/// `copy f g`
pub(crate) fn copy<T: Tracer>(
    source: usize,
    target: usize,
    process: &mut SlotProcess,
    tree: &mut Tree,
    who: Who,
    tracer: &mut T,
) -> Result<(), AllocError>
    requires room { process.old.place + 1 < 2 ^ 64 }
    ensures left { OnOk result (Leaves (slot_copy_between source
        (slot_open_for allows_read source process.old) (slot_open_for allows_write target process.old)
        process.old tree.old) process.new tree.new) }
    ensures told { OnOk result (AppendsEvents T.KEEPS (T.events tracer.old) (T.events tracer.new)
        (map (event_at who.step who.number) (slot_copy_between source
        (slot_open_for allows_read source process.old) (slot_open_for allows_write target process.old)
        process.old tree.old).acts)) }
{
    let copying = copy_at(source, target, process, tree, who, tracer)?;
    take_copy(copying, source, process);
    Ok(())
}
