//! One step of a process.

ghost use Rattle.std.specs.Prelude.{◌≡◌, ℕ, ◌+◌, ◌<◌, ◌^◌, Some, length, map, slice_get};
ghost use Rattle.std.specs.Prelude.{IfOk, OnOk, OnSome};
ghost use Rattle.run_model.specs.Core.{Core};
ghost use Rattle.run_model.specs.Events.{event_at};
ghost use Rattle.run_model.specs.Step.{Ask, next_ask, status_acts, took};
ghost use Rattle.proc_core.specs.inner.Counts.{CountsBelow};
ghost use Rattle.proc_core.specs.inner.Moves.{Moves, MovesLocally};
ghost use Rattle.proc_core.specs.inner.SlotAsk.{slot_ask_at};
ghost use Rattle.proc_core.specs.inner.SlotReady.{Grows};
ghost use Rattle.proc_core.specs.inner.SlotSpawn.{slot_request_at};
ghost use Rattle.proc_core.specs.inner.SlotStep.{HasRoom, IsLocal, next_slot_instr, slot_status_in};
ghost use Rattle.proc_core.specs.Stands.{IsCore, AppendsEvents};
ghost use Rattle.proc_core.specs.Stops.{asker_held, IsStop};
ghost use Rattle.proc_core.specs.declared.instructions.ask.Statement.{Statement};
ghost use Rattle.proc_core.specs.declared.process.SlotProcess.{SlotProcess};

use crate::error::Stopped;
use crate::instructions::ask::{Statement, statement_at, take_reply_at};
use crate::instructions::local::{execute_local, is_local_at, status_in};
use crate::machine::Machine;
use crate::process::SlotProcess;
use crate::spawn::spawn;
use crate::spawn::spawn_request::{SpawnRequest, request_at};
use crate::tell::{Who, tell_status};
use run_model::{Asker, Database, ProcName, Stop, Tracer};
use sql_model::Reply;
use std::alloc::AllocError;

// Makes the step of a process that asks nothing and makes no process, and reports its end where it ends.
fn step_local<T: Tracer>(machine: &mut Machine, who: Who, tracer: &mut T) -> Result<(), AllocError>
    requires local { IsLocal (next_slot_instr machine.old.codes
        (slice_get machine.old.processes.items who.number)) }
    requires counted { CountsBelow who.step machine.old }
    ensures { MovesLocally T.KEEPS who machine.old machine.new (T.events tracer.old) (T.events tracer.new)
        result }
{
    execute_local(machine, who, tracer)?;
    tell_status(who, status_in(&machine.processes, who.number), tracer)?;
    Ok(())
}

// Makes the step of a process that spawns, and reports its end where it ends.
fn step_spawn<T: Tracer>(
    machine: &mut Machine,
    who: Who,
    request: SpawnRequest,
    tracer: &mut T,
) -> Result<(), AllocError>
    requires says { slot_request_at machine.old who.number ≡ Some request }
    requires within { who.number < length machine.old.processes.items }
    requires room { HasRoom (slice_get machine.old.processes.items who.number) }
    requires counted { CountsBelow who.step machine.old }
    ensures { MovesLocally T.KEEPS who machine.old machine.new (T.events tracer.old) (T.events tracer.new)
        result }
{
    spawn(machine, who, request, tracer)?;
    tell_status(who, status_in(&machine.processes, who.number), tracer)?;
    Ok(())
}

// Makes the step of a process that asks nothing, and reports its end where it ends.
fn step_spawn_or_local<T: Tracer>(
    machine: &mut Machine,
    who: Who,
    tracer: &mut T,
) -> Result<(), AllocError>
    requires { CountsBelow who.step machine.old }
    ensures { MovesLocally T.KEEPS who machine.old machine.new (T.events tracer.old) (T.events tracer.new)
        result }
{
    match request_at(machine, who.number)? {
        None => step_local(machine, who, tracer),
        Some(request) => step_spawn(machine, who, request, tracer),
    }
}

// Who asks: the process of a number.
fn asker_at(machine: &Machine, who: Who) -> Result<Asker, AllocError>
    requires within { who.number < length machine.now.processes.items }
    ensures held { IfOk result (λ asker. (r : SlotProcess)
        → slice_get machine.now.processes.items who.number ≡ Some r
        → asker ≡ asker_held r who machine.now) }
    ensures step { IfOk result (λ asker. asker.step ≡ who.step) }
{
    match machine.processes.get(who.number) {
        None => unreachable!(),
        Some(process) => asker_of(machine, process, who),
    }
}

// Who asks: this process.
fn asker_of(machine: &Machine, process: &SlotProcess, who: Who) -> Result<Asker, AllocError>
    ensures { IfOk result (λ asker. asker ≡ asker_held process.now who machine.now) }
{
    Ok(Asker {
        name: ProcName {
            parts: process.name.copy()?,
        },
        number: who.number as u32,
        step: who.step,
        statement: machine.asked,
    })
}

// The stop of a run in which the database has no reply to the process of a number.
fn stop_without_reply(machine: &Machine, number: usize) -> Stopped
    requires within { number < length machine.now.processes.items }
    requires few { (r : SlotProcess) → slice_get machine.now.processes.items number ≡ Some r
        → length r.replies < 2 ^ 32 }
    ensures { (r : SlotProcess) → slice_get machine.now.processes.items number ≡ Some r
        → IsStop result r }
{
    match divergence_at(machine, number) {
        Ok(stop) => stop,
        Err(AllocError) => Stopped::NoMemory,
    }
}

fn divergence_at(machine: &Machine, number: usize) -> Result<Stopped, AllocError>
    requires within { number < length machine.now.processes.items }
    requires few { (r : SlotProcess) → slice_get machine.now.processes.items number ≡ Some r
        → length r.replies < 2 ^ 32 }
    ensures { IfOk result (λ stop. (r : SlotProcess)
        → slice_get machine.now.processes.items number ≡ Some r → IsStop stop r) }
{
    match machine.processes.get(number) {
        None => unreachable!(),
        Some(process) => divergence_of(process),
    }
}

fn divergence_of(process: &SlotProcess) -> Result<Stopped, AllocError>
    requires { length process.now.replies < 2 ^ 32 }
    ensures { IfOk result (λ stop. IsStop stop process.now) }
{
    Ok(Stopped::Diverged {
        process: ProcName {
            parts: process.name.copy()?,
        },
        index: process.replies.len() as u32,
    })
}

// Gives the process of a number the reply to its statement, and counts the statement.
fn give_reply(
    machine: &mut Machine,
    number: usize,
    cursor: usize,
    reply: Reply,
) -> Result<(), AllocError>
    requires within { number < length machine.old.processes.items }
    requires counted { machine.old.asked + 1 < 2 ^ 32 }
    requires room { HasRoom (slice_get machine.old.processes.items number) }
    ensures core { OnOk result ((c : Core) (t : Statement) → IsCore machine.old c
        → slot_ask_at machine.old number ≡ Some t → t.cursor ≡ cursor
        → (a : Ask) → next_ask number c ≡ Some a → IsCore machine.new (took number a reply c)) }
    ensures grows { OnOk result (Grows machine.old number machine.new) }
    ensures counted { OnOk result ((n : ℕ) → CountsBelow n machine.old
        → CountsBelow (n + 1) machine.new) }
{
    take_reply_at(cursor, reply, number, &mut machine.processes)?;
    machine.asked += 1;
    Ok(())
}

// Gives a process the reply to its statement, with what is reported after every step.
fn give_reply_and_tell<T: Tracer>(
    machine: &mut Machine,
    who: Who,
    cursor: usize,
    reply: Reply,
    tracer: &mut T,
) -> Result<(), AllocError>
    requires within { who.number < length machine.old.processes.items }
    requires counted { CountsBelow who.step machine.old }
    requires room { HasRoom (slice_get machine.old.processes.items who.number) }
    ensures core { OnOk result ((c : Core) (t : Statement) → IsCore machine.old c
        → slot_ask_at machine.old who.number ≡ Some t → t.cursor ≡ cursor
        → (a : Ask) → next_ask who.number c ≡ Some a → IsCore machine.new (took who.number a reply c)) }
    ensures told { OnOk result (AppendsEvents T.KEEPS (T.events tracer.old) (T.events tracer.new)
        (map (event_at who.step who.number)
        (status_acts (slot_status_in machine.new.processes.items who.number)))) }
    ensures grows { OnOk result (Grows machine.old who.number machine.new) }
    ensures counted { OnOk result (CountsBelow (who.step + 1) machine.new) }
{
    give_reply(machine, who.number, cursor, reply)?;
    tell_status(who, status_in(&machine.processes, who.number), tracer)?;
    Ok(())
}

// Makes the step of a process that asks: the database is told who asks, and its reply goes to the process.
fn answer_statement<D: Database, T: Tracer>(
    machine: &mut Machine,
    who: Who,
    asker: Asker,
    statement: Statement,
    db: &mut D,
    tracer: &mut T,
) -> Result<(), Stopped>
    requires asks { slot_ask_at machine.old who.number ≡ Some statement }
    requires asker { (r : SlotProcess) → slice_get machine.old.processes.items who.number ≡ Some r
        → asker ≡ asker_held r who machine.old }
    requires within { who.number < length machine.old.processes.items }
    requires room { HasRoom (slice_get machine.old.processes.items who.number) }
    requires step { asker.step ≡ who.step }
    requires counted { CountsBelow who.step machine.old }
    requires later { D.latest db.old < who.step }
    ensures { Moves D.base T.KEEPS who machine.old machine.new (D.seen db.old) (D.seen db.new)
        (D.latest db.new) (T.events tracer.old) (T.events tracer.new) result }
{
    match db.ask(&asker, &statement.text, &statement.params, tracer) {
        Ok(reply) => match give_reply_and_tell(machine, who, statement.cursor, reply, tracer) {
            Ok(()) => Ok(()),
            Err(AllocError) => Err(Stopped::NoMemory),
        },
        Err(Stop::Diverged) => Err(stop_without_reply(machine, who.number)),
        Err(Stop::NoMemory) => Err(Stopped::NoMemory),
    }
}

// Makes the step of a process that asks.
#[tactic(auto, using(crate::proofs::Stepping::asked_within))]
fn step_statement<D: Database, T: Tracer>(
    machine: &mut Machine,
    who: Who,
    statement: Statement,
    db: &mut D,
    tracer: &mut T,
) -> Result<(), Stopped>
    requires asks { slot_ask_at machine.old who.number ≡ Some statement }
    requires room { HasRoom (slice_get machine.old.processes.items who.number) }
    requires counted { CountsBelow who.step machine.old }
    requires later { D.latest db.old < who.step }
    ensures { Moves D.base T.KEEPS who machine.old machine.new (D.seen db.old) (D.seen db.new)
        (D.latest db.new) (T.events tracer.old) (T.events tracer.new) result }
{
    match asker_at(machine, who) {
        Ok(asker) => answer_statement(machine, who, asker, statement, db, tracer),
        Err(AllocError) => Err(Stopped::NoMemory),
    }
}

// Makes the step of a process that asks this statement, or nothing.
fn step_unless_local<D: Database, T: Tracer>(
    machine: &mut Machine,
    who: Who,
    asked: Option<Statement>,
    db: &mut D,
    tracer: &mut T,
) -> Result<(), Stopped>
    requires asked { asked ≡ slot_ask_at machine.old who.number }
    requires room { OnSome asked (HasRoom (slice_get machine.old.processes.items who.number)) }
    requires counted { CountsBelow who.step machine.old }
    requires later { D.latest db.old < who.step }
    ensures { Moves D.base T.KEEPS who machine.old machine.new (D.seen db.old) (D.seen db.new)
        (D.latest db.new) (T.events tracer.old) (T.events tracer.new) result }
{
    match asked {
        None => match step_spawn_or_local(machine, who, tracer) {
            Ok(()) => Ok(()),
            Err(AllocError) => Err(Stopped::NoMemory),
        },
        Some(statement) => step_statement(machine, who, statement, db, tracer),
    }
}

/// Makes a step of a process. Most steps ask nothing and make no process, and are found first.
pub(crate) fn step_process<D: Database, T: Tracer>(
    machine: &mut Machine,
    who: Who,
    db: &mut D,
    tracer: &mut T,
) -> Result<(), Stopped>
    requires counted { CountsBelow who.step machine.old }
    requires later { D.latest db.old < who.step }
    ensures { Moves D.base T.KEEPS who machine.old machine.new (D.seen db.old) (D.seen db.new)
        (D.latest db.new) (T.events tracer.old) (T.events tracer.new) result }
{
    if is_local_at(machine, who.number) {
        match step_local(machine, who, tracer) {
            Ok(()) => Ok(()),
            Err(AllocError) => Err(Stopped::NoMemory),
        }
    } else {
        match statement_at(machine, who.number) {
            Ok(asked) => step_unless_local(machine, who, asked, db, tracer),
            Err(AllocError) => Err(Stopped::NoMemory),
        }
    }
}
