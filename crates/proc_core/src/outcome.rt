//! The outcome of a run.

ghost use Rattle.std.specs.Prelude.{◌≡◌, IfOk, unwrap_or};
ghost use Rattle.ldv_value.specs.FileState.{content_at};
ghost use Rattle.sql_model.specs.Sorting.{sorted_by};
ghost use Rattle.run_model.specs.Outcome.{outcome_of_path, outcomes_of_paths};
ghost use Rattle.proc_core.specs.inner.SlotOutcome.{slot_outcome, slot_outcomes, slot_outcomes_by_name};
ghost use Rattle.proc_core.specs.inner.SlotOutcome.{name_cmp, slot_outcome_of};

use crate::keyed_outcome::KeyedOutcome;
use crate::machine::Machine;
use crate::process::SlotProcess;
use file_tree::Tree;
use ldv_value::{Bytes, Utf8};
use run_model::{Outcome, PathOutcome, PathOutcomes, ProcName, ProcOutcome, ProcOutcomes};
use std::alloc::{AllocError, Global};

fn status_or_zero(status: Option<u8>) -> u8
    ensures { result ≡ unwrap_or status 0 }
{
    match status {
        None => 0,
        Some(status) => status,
    }
}

fn outcome_of_process(process: &SlotProcess) -> Result<KeyedOutcome, AllocError>
    ensures { IfOk result (λ outcome. outcome ≡ slot_outcome process.now) }
{
    Ok(KeyedOutcome::of(ProcOutcome {
        name: ProcName {
            parts: process.name.copy()?,
        },
        status: status_or_zero(process.status),
        printed: process.printed.copy()?,
        replies: process.replies.copy()?,
    }))
}

// The outcomes of processes, from the last to the first.
fn outcomes_of(alloc: Global, processes: &[SlotProcess]) -> Result<Vec<KeyedOutcome>, AllocError>
    ensures { IfOk result (λ outcomes. outcomes.items ≡ slot_outcomes processes.now) }
{
    let mut outcomes = Vec::with_capacity(alloc, processes.len())?;
    for process in processes {
        outcomes.push(outcome_of_process(process)?)?;
    }
    outcomes.reverse();
    Ok(outcomes)
}

// Outcomes in the order of names.
fn sorted_by_name(outcomes: Vec<KeyedOutcome>) -> Result<ProcOutcomes, AllocError>
    ensures { IfOk result (λ sorted. sorted ≡ sorted_by name_cmp outcomes.items) }
{
    let mut sorted = outcomes;
    sorted.sort_by(|a, b| a.compare(b))?;
    let named = without_keys(sorted)?;
    Ok(named)
}

// Outcomes without their keys.
fn without_keys(outcomes: Vec<KeyedOutcome>) -> Result<ProcOutcomes, AllocError>
    ensures { IfOk result (λ all. all ≡ outcomes.items) }
{
    let mut all = ProcOutcomes::with_capacity(*outcomes.allocator(), outcomes.len())?;
    for outcome in outcomes {
        all.push(outcome.into_outcome())?;
    }
    Ok(all)
}

fn outcomes_by_name(alloc: Global, processes: &[SlotProcess]) -> Result<ProcOutcomes, AllocError>
    ensures { IfOk result (λ outcomes. outcomes ≡ slot_outcomes_by_name processes.now) }
{
    let outcomes = outcomes_of(alloc, processes)?;
    let sorted = sorted_by_name(outcomes)?;
    Ok(sorted)
}

// The outcome of a process, with its printed bytes and its replies themselves.
fn outcome_from_process(process: SlotProcess) -> KeyedOutcome
    ensures { result ≡ slot_outcome process }
{
    let SlotProcess {
        name,
        code: _,
        place: _,
        variables: _,
        files: _,
        cursors: _,
        children: _,
        spawned: _,
        printed,
        replies,
        status,
    } = process;
    KeyedOutcome::of(ProcOutcome {
        name: ProcName { parts: name },
        status: status_or_zero(status),
        printed,
        replies,
    })
}

// The outcomes of processes, from the last to the first. Each process is dropped on the way.
fn outcomes_from(
    alloc: Global,
    processes: Vec<SlotProcess>,
) -> Result<Vec<KeyedOutcome>, AllocError>
    ensures { IfOk result (λ outcomes. outcomes.items ≡ slot_outcomes processes.items) }
{
    let mut left = processes;
    let mut outcomes = Vec::with_capacity(alloc, left.len())?;
    while let Some(process) = left.pop() {
        outcomes.push(outcome_from_process(process))?;
    }
    Ok(outcomes)
}

fn outcomes_by_name_from(
    alloc: Global,
    processes: Vec<SlotProcess>,
) -> Result<ProcOutcomes, AllocError>
    ensures { IfOk result (λ outcomes. outcomes ≡ slot_outcomes_by_name processes.items) }
{
    let outcomes = outcomes_from(alloc, processes)?;
    let sorted = sorted_by_name(outcomes)?;
    Ok(sorted)
}

fn content_of(alloc: Global, tree: &Tree, path: &Utf8) -> Result<Option<Bytes>, AllocError>
    ensures { IfOk result (λ content. content ≡ content_at tree.now path.now) }
{
    match tree.state(path.as_str()) {
        None => Ok(None),
        Some(bytes) => Ok(Some(Bytes::of_slice(alloc, bytes)?)),
    }
}

fn outcome_at_path(alloc: Global, tree: &Tree, path: &Utf8) -> Result<PathOutcome, AllocError>
    ensures { IfOk result (λ outcome. outcome ≡ outcome_of_path tree.now path.now) }
{
    Ok(PathOutcome {
        path: path.copy()?,
        content: content_of(alloc, tree, path)?,
    })
}

fn outcomes_of_paths(alloc: Global, tree: &Tree) -> Result<PathOutcomes, AllocError>
    ensures { IfOk result (λ outcomes. outcomes ≡ outcomes_of_paths tree.now) }
{
    let touched = tree.touched()?;
    let mut outcomes = PathOutcomes::with_capacity(alloc, touched.len())?;
    for path in touched.items() {
        outcomes.push(outcome_at_path(alloc, tree, path)?)?;
    }
    Ok(outcomes)
}

/// The outcome of a run that has ended.
pub(crate) fn outcome_of(machine: &Machine) -> Result<Outcome, AllocError>
    ensures { IfOk result (λ outcome. outcome ≡ slot_outcome_of machine.now) }
{
    Ok(Outcome {
        processes: outcomes_by_name(machine.alloc, &machine.processes)?,
        paths: outcomes_of_paths(machine.alloc, &machine.tree)?,
    })
}

/// The outcome of a run that has ended, with what was printed and the replies themselves.
pub(crate) fn outcome_from(machine: Machine) -> Result<Outcome, AllocError>
    ensures { IfOk result (λ outcome. outcome ≡ slot_outcome_of machine) }
{
    let Machine {
        alloc,
        codes: _,
        processes,
        tree,
        seed: _,
        last: _,
        generator: _,
        asked: _,
        ready: _,
        parents: _,
        runners: _,
    } = machine;
    Ok(Outcome {
        processes: outcomes_by_name_from(alloc, processes)?,
        paths: outcomes_of_paths(alloc, &tree)?,
    })
}
