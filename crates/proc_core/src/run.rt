//! Runs over any database.

ghost use Rattle.std.specs.Prelude.{◌≡◌, ◌+◌, ◌<◌, ◌≤◌, ℕ, List as Items, None, [], false, true, length};
ghost use Rattle.std.specs.Prelude.{slice_get};
ghost use Rattle.std.specs.Prelude.{IfOk, IfErr, OnOk};
ghost use Rattle.ldv_value.specs.FileState.{initial_files};
ghost use Rattle.ldv_value.specs.Limits.{max_steps};
ghost use Rattle.proc_core.specs.Types.{Instr, File};
ghost use Rattle.run_model.specs.Core.{have_all_ended, is_over};
ghost use Rattle.run_model.specs.Outcome.{outcome_of};
ghost use Rattle.run_model.specs.Events.{events as events_within, events_of_step, start_events};
ghost use Rattle.run_model.specs.Run.{move, run as state_after, steps as steps_made};
ghost use Rattle.run_model.specs.RunLaw.{MayRun, start_state_of};
ghost use Rattle.run_model.specs.Schedule.{choose};
ghost use Rattle.run_model.specs.State.{State};
ghost use Rattle.proc_core.specs.inner.Counts.{CountsBelow};
ghost use Rattle.proc_core.specs.Running.{Stands, has_ended};
ghost use Rattle.proc_core.specs.Stands.{HasStartScript, IsStartScript, AppendsEvents};
ghost use Rattle.proc_core.specs.Stops.{HasStopped, HasRunStopped};

use crate::error::{RunStop, Stopped};
use crate::machine::Machine;
use crate::outcome::{outcome_from, outcome_of};
use crate::ready::{has_ended, refresh};
use crate::schedule::{choose, schedule};
use crate::start::{machine_at, start_script};
use crate::step::step_process;
use crate::tell::{PathAct, Who, tell_path};
use file_tree::Tree;
use ldv_value::Words;
use run_model::{Database, Outcome, Tracer};
use script_parse::Script;
use std::alloc::AllocError;

// Makes one step of the process that the seed chooses, and brings up to date who may run.
fn make_step<D: Database, T: Tracer>(
    machine: &mut Machine,
    db: &mut D,
    tracer: &mut T,
    steps: u32,
) -> Result<(), Stopped>
    requires going { has_ended machine.old ≡ false }
    requires room { steps < max_steps }
    requires asked { D.latest db.old ≤ steps }
    requires counted { CountsBelow (steps + 1) machine.old }
    ensures state { OnOk result ((s : State D.Db)
        → Stands machine.old (D.seen db.old) s
        → Stands machine.new (D.seen db.new) (move D.base None s).state) }
    ensures told { OnOk result ((s : State D.Db)
        → Stands machine.old (D.seen db.old) s
        → AppendsEvents T.KEEPS (T.events tracer.old) (T.events tracer.new)
        (events_of_step (steps + 1) (move D.base None s))) }
    ensures diverged { IfErr result (λ stop. (s : State D.Db)
        → Stands machine.old (D.seen db.old) s → HasStopped stop (move D.base None s).state) }
    ensures asked { OnOk result (D.latest db.new ≤ steps + 1) }
    ensures counted { OnOk result (CountsBelow (steps + 1 + 1) machine.new) }
{
    let number = choose(machine);
    schedule(machine, number);
    let who = Who {
        step: steps + 1,
        number: number as usize,
    };
    match step_process(machine, who, db, tracer) {
        Err(stop) => Err(stop),
        Ok(()) => {
            refresh(machine, number as usize);
            Ok(())
        }
    }
}

/// A run: its processes and files, the database that it asks, and the tracer that its events are reported to.
#[derive(Drop)]
pub struct Run<D: Database, T: Tracer> {
    machine: Machine,
    db: D,
    tracer: T,
    steps: u32,
    ghost asked: { D.latest db ≤ steps },
    ghost counted: { CountsBelow (steps + 1) machine },
}

impl<D: Database, T: Tracer> Run<D, T> {
    /// A run before its first step: one process, which runs the script at the first start word. The other
    /// start words are its arguments. No path of `tree` should be touched yet. `AllocError` means out of
    /// memory only.
    pub fn start(
        start: &Words,
        seed: u64,
        tree: Tree,
        db: D,
        tracer: T,
    ) -> Result<Run<D, T>, AllocError>
        requires words { 0 < length start.now }
        requires script { HasStartScript start.now tree }
        requires fresh { D.latest db ≡ 0 }
        ensures state { IfOk result (λ begun. (script : Items Instr) (files : Items File)
            → tree ≡ initial_files files
            → IsStartScript start.now tree script
            → Stands begun.machine (D.seen begun.db)
            (start_state_of start.now seed files script (D.seen db))) }
        ensures told { IfOk result (λ begun. AppendsEvents T.KEEPS (T.events tracer) (T.events begun.tracer)
            (start_events (slice_get start.now 0))) }
        ensures steps { IfOk result (λ begun. begun.steps ≡ 0) }
    {
        let script = start_script(start, &tree)?;
        Run::start_parsed(start, &script, seed, tree, db, tracer)
    }

    /// The same run as `start` gives; `script` is the parsed script of the file at the first start word.
    pub fn start_parsed(
        start: &Words,
        script: &Script,
        seed: u64,
        tree: Tree,
        db: D,
        tracer: T,
    ) -> Result<Run<D, T>, AllocError>
        requires words { 0 < length start.now }
        requires script { IsStartScript start.now tree script.now.instructions }
        requires fresh { D.latest db ≡ 0 }
        ensures state { IfOk result (λ begun. (due : Items Instr) (files : Items File)
            → tree ≡ initial_files files
            → IsStartScript start.now tree due
            → Stands begun.machine (D.seen begun.db)
            (start_state_of start.now seed files due (D.seen db))) }
        ensures told { IfOk result (λ begun. AppendsEvents T.KEEPS (T.events tracer) (T.events begun.tracer)
            (start_events (slice_get start.now 0))) }
        ensures steps { IfOk result (λ begun. begun.steps ≡ 0) }
    {
        let mut tracer = tracer;
        match start.items() {
            [] => unreachable!(),
            [path, words @ ..] => {
                let machine = machine_at(start.allocator(), path, words, script, seed, tree)?;
                tell_path(
                    Who { step: 0, number: 0 },
                    PathAct::Started,
                    path,
                    &mut tracer,
                )?;
                Ok(Run {
                    machine,
                    db,
                    tracer,
                    steps: 0,
                })
            }
        }
    }

    /// Whether all processes have ended.
    pub fn ended(&self) -> bool
        ensures ended { (s : State D.Db) → Stands self.now.machine (D.seen self.now.db) s
            → result ≡ have_all_ended s.core }
        ensures slots { result ≡ has_ended self.now.machine }
    {
        has_ended(&self.machine)
    }

    /// How many steps were made, at most 10,000,000.
    pub fn steps(&self) -> u32
        ensures { result ≡ self.now.steps }
    {
        self.steps
    }

    /// Makes one step of the process that the seed chooses. Some process mustn't have ended, and fewer than
    /// 10,000,000 steps may have been made. `Diverged`: the database had no reply.
    pub fn advance(self) -> Result<Run<D, T>, Stopped>
        requires going { has_ended self.machine ≡ false }
        requires room { self.steps < max_steps }
        // The process that makes the step may run.
        ensures runs { (s : State D.Db) → Stands self.machine (D.seen self.db) s
            → MayRun (choose None s.core) s.core }
        ensures state { IfOk result (λ after. (s : State D.Db)
            → Stands self.machine (D.seen self.db) s
            → Stands after.machine (D.seen after.db) (move D.base None s).state) }
        ensures told { IfOk result (λ after. (s : State D.Db)
            → Stands self.machine (D.seen self.db) s
            → AppendsEvents T.KEEPS (T.events self.tracer) (T.events after.tracer)
            (events_of_step (self.steps + 1) (move D.base None s))) }
        ensures steps { IfOk result (λ after. after.steps ≡ self.steps + 1) }
        ensures diverged { IfErr result (λ stop. (s : State D.Db)
            → Stands self.machine (D.seen self.db) s → HasStopped stop (move D.base None s).state) }
    {
        let Run {
            mut machine,
            mut db,
            mut tracer,
            steps,
        } = self;
        match make_step(&mut machine, &mut db, &mut tracer, steps) {
            Err(stop) => Err(stop),
            Ok(()) => Ok(Run {
                machine,
                db,
                tracer,
                steps: steps + 1,
            }),
        }
    }

    /// Makes steps until all processes have ended, at most `budget`, which is at most 10,000,000. `NotEnded`:
    /// some process hasn't ended after `budget` steps. `Diverged`: the database had no reply.
    pub fn to_end(self, budget: u32) -> Result<Run<D, T>, RunStop>
        requires fresh { self.steps ≡ 0 }
        requires few { budget ≤ max_steps }
        ensures state { IfOk result (λ after. (s : State D.Db)
            → Stands self.machine (D.seen self.db) s
            → Stands after.machine (D.seen after.db) (state_after D.base budget [] s)) }
        ensures ended { OnOk result ((s : State D.Db) → Stands self.machine (D.seen self.db) s
            → have_all_ended (state_after D.base budget [] s).core ≡ true) }
        ensures over { IfOk result (λ after. has_ended after.machine ≡ true) }
        ensures told { IfOk result (λ after. (s : State D.Db)
            → Stands self.machine (D.seen self.db) s
            → AppendsEvents T.KEEPS (T.events self.tracer) (T.events after.tracer)
            (events_within D.base budget 1 [] s)) }
        ensures steps { IfOk result (λ after. (s : State D.Db)
            → Stands self.machine (D.seen self.db) s → after.steps ≡ steps_made D.base budget [] s) }
        ensures stopped { IfErr result (λ stop. (s : State D.Db)
            → Stands self.machine (D.seen self.db) s
            → HasRunStopped stop (state_after D.base budget [] s)) }
        // Never stuck: while a process hasn't ended, the one that is chosen may run.
        ensures never_stuck { (s : State D.Db) → Stands self.machine (D.seen self.db) s → (n : ℕ)
            → is_over (state_after D.base n [] s).core ≡ false
            → MayRun (choose None (state_after D.base n [] s).core) (state_after D.base n [] s).core }
    {
        let Run {
            mut machine,
            mut db,
            mut tracer,
            mut steps,
        } = self;
        for _made in 0..budget {
            if has_ended(&machine) {
                return Ok(Run {
                    machine,
                    db,
                    tracer,
                    steps,
                });
            }
            match make_step(&mut machine, &mut db, &mut tracer, steps) {
                Ok(()) => steps += 1,
                Err(Stopped::Diverged { process, index }) => {
                    return Err(RunStop::Diverged { process, index });
                }
                Err(Stopped::NoMemory) => return Err(RunStop::NoMemory),
            }
        }
        if has_ended(&machine) {
            Ok(Run {
                machine,
                db,
                tracer,
                steps,
            })
        } else {
            Err(RunStop::NotEnded)
        }
    }

    /// The outcome of a run that has ended.
    #[tactic(auto, using(crate::proofs::Outcomes::outcome_is))]
    pub fn outcome(&self) -> Result<Outcome, AllocError>
        requires { has_ended self.now.machine ≡ true }
        ensures { IfOk result (λ outcome. (s : State D.Db) → Stands self.now.machine (D.seen self.now.db) s
            → outcome ≡ outcome_of s.core) }
    {
        outcome_of(&self.machine)
    }

    /// The outcome of a run that has ended, as `outcome` gives it. What the processes printed and the replies
    /// to their statements are moved into it; files are copied.
    #[tactic(auto, using(crate::proofs::Outcomes::outcome_is))]
    pub fn into_outcome(self) -> Result<Outcome, AllocError>
        requires { has_ended self.machine ≡ true }
        ensures { IfOk result (λ outcome. (s : State D.Db) → Stands self.machine (D.seen self.db) s
            → outcome ≡ outcome_of s.core) }
    {
        let Run {
            machine,
            db: _,
            tracer: _,
            steps: _,
        } = self;
        outcome_from(machine)
    }

    /// The database.
    pub fn db(&self) -> &D
        ensures { result.now ≡ self.now.db }
    {
        &self.db
    }

    /// The database and the tracer.
    pub fn into_parts(self) -> (D, T)
        ensures db { result.0 ≡ self.db }
        ensures tracer { result.1 ≡ self.tracer }
    {
        let Run {
            machine: _,
            db,
            tracer,
            steps: _,
        } = self;
        (db, tracer)
    }
}
