//! The database of recorded replies.

ghost use Rattle.std.specs.Prelude.{◌≡◌, ◌<◌, ◌≤◌, List as Items, true, length, Err, IfOk, OnOk};
ghost use Rattle.ldv_value.specs.Sorted.{is_strictly_sorted};
ghost use Rattle.run_model.specs.Database.{Notes, Gives, Diverges, asked_event};
ghost use Rattle.run_model.specs.LogDatabase.{log_base, no_lists};
ghost use Rattle.replay_log.specs.Types.{Log as Recorded};
ghost use Rattle.run_model.specs.ValidPackage.{log_precedes};
ghost use Rattle.replay_log.specs.inner.Left.{logs_left, question};
ghost use Rattle.replay_log.specs.inner.Places.{IsAt};

use crate::find::index_of;
use crate::next::take_next;
use ldv_value::{Names, Utf8, Values};
use run_model::{Act, Asker, Database, Event, Log, Logs, ProcName, Stop, Tracer};
use sql_model::{Members, Needs, Reply};
use std::alloc::{AllocError, Global};
use std::marker::Model;

/// A database of recorded replies: a process that asks the same as in the recorded run gets the same reply.
/// Contracts see the logs of the statements that weren't asked yet.
#[derive(Drop)]
pub struct ReplyLog {
    alloc: Global,
    logs: Vec<Log>,
    // How many entries were used, by the index of the log. It is empty until the first question.
    used: Vec<usize>,
}

impl Model for ReplyLog {
    ghost use Rattle.std.specs.Prelude.{◌≡◌, List, true};
    ghost use Rattle.ldv_value.specs.Sorted.{is_strictly_sorted};
    ghost use Rattle.replay_log.specs.Types.{Log};
    ghost use Rattle.run_model.specs.ValidPackage.{log_precedes};
    ghost use Rattle.replay_log.specs.inner.Left.{logs_left};

    ghost Value = { List Log };

    ghost view = { λ a. logs_left a.logs.items a.used.items };

    ghost invariant = { λ a. is_strictly_sorted log_precedes a.logs.items ≡ true };
}

impl ReplyLog {
    /// The database of the replies in logs, before its first statement. The logs must be sorted by process,
    /// each process once. It takes no memory.
    pub fn of_logs(alloc: Global, logs: Logs) -> ReplyLog
        requires { is_strictly_sorted log_precedes logs ≡ true }
        ensures { result ≡ logs }
    {
        ReplyLog {
            alloc,
            logs: logs.into_vec(),
            used: Vec::new(alloc),
        }
    }

    // The reply to the next question of a process.
    fn next(&mut self, process: &ProcName, text: &Utf8, params: &Values) -> Result<Reply, Stop>
        ensures reply { IfOk result (λ reply. log_base self.old (question process.now text.now params.now)
            ≡ Gives reply self.new no_lists) }
        ensures diverged { result ≡ Err Stop.Diverged
            → log_base self.old (question process.now text.now params.now) ≡ Diverges }
    {
        match index_of(&self.logs, process.parts.items()) {
            None => Err(Stop::Diverged),
            Some(index) => {
                count_all(&mut self.used, self.logs.len())?;
                next_at(&mut self.logs, &mut self.used, index, process, text, params)
            }
        }
    }
}

// The next reply of the log at an index, which is that of the process.
fn next_at(
    logs: &mut Vec<Log>,
    used: &mut Vec<usize>,
    index: usize,
    process: &ProcName,
    text: &Utf8,
    params: &Values,
) -> Result<Reply, Stop>
    requires within { index < length logs.old.items }
    requires counted { length logs.old.items ≤ length used.old.items }
    requires at { IsAt process.now.parts index logs.old.items }
    ensures reply { IfOk result (λ reply. log_base (logs_left logs.old.items used.old.items)
        (question process.now text.now params.now)
        ≡ Gives reply (logs_left logs.new.items used.new.items) no_lists) }
    ensures diverged { result ≡ Err Stop.Diverged → log_base (logs_left logs.old.items used.old.items)
        (question process.now text.now params.now) ≡ Diverges }
    ensures sorted { is_strictly_sorted log_precedes logs.new.items
        ≡ is_strictly_sorted log_precedes logs.old.items }
{
    let place = used[index];
    let reply = take_next(&mut logs[index], place, text, params)?;
    used[index] = place + 1;
    Ok(reply)
}

// Makes numbers for all logs, 0 for those that had none.
fn count_all(used: &mut Vec<usize>, count: usize) -> Result<(), AllocError>
    ensures all { OnOk result (count ≤ length used.new.items) }
    ensures same { (logs : Items Recorded) → logs_left logs used.new.items ≡ logs_left logs used.old.items }
{
    if count <= used.len() {
        return Ok(());
    }
    used.resize(count, 0)
}

// The event of a recorded reply: it needs no row and makes none.
fn asked_event(alloc: Global, who: &Asker) -> Event
    ensures { result ≡ asked_event who.now no_lists }
{
    let act = Act::Asked {
        statement: who.statement,
        tables: Names::new(alloc),
        reads: Needs::new(alloc),
        made: Members::new(alloc),
    };
    Event {
        step: who.step,
        process: who.number,
        act,
    }
}

fn note_asked<T: Tracer>(alloc: Global, who: &Asker, tracer: &mut T) -> Result<(), AllocError>
    ensures { OnOk result (Notes T.KEEPS (T.events tracer.old) (T.events tracer.new) who.now no_lists) }
{
    if T::KEEPS {
        tracer.note(asked_event(alloc, who))
    } else {
        Ok(())
    }
}

impl Database for ReplyLog {
    ghost use Rattle.run_model.specs.LogDatabase.{LogDatabase, log_base};

    ghost Db = { LogDatabase };

    ghost seen = { λ logs. logs };

    ghost base = { log_base };

    // It may be asked at any step.
    ghost latest = { λ _. 0 };

    fn ask<T: Tracer>(
        &mut self,
        who: &Asker,
        text: &Utf8,
        params: &Values,
        tracer: &mut T,
    ) -> Result<Reply, Stop> {
        let reply = self.next(&who.name, text, params)?;
        note_asked(self.alloc, who, tracer)?;
        Ok(reply)
    }
}
