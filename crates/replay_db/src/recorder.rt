//! A database that keeps each statement that it is asked, with the reply.

ghost use Rattle.std.specs.Prelude.{◌≡◌, ◌++◌, [], IfOk, OnOk};
ghost use Rattle.sql_model.specs.Sorting.{sorted_by};
ghost use Rattle.run_model.specs.Database.{asked_by};
ghost use Rattle.run_laws.specs.KeptReplies.{kept_of, logs_kept, new_log};
ghost use Rattle.replay_db.specs.inner.KeptGroups.{kept_cmp, logs_of_kept, is_of, logs_with, with_kept, with_last};

use ldv_value::{CopyItem, List, Utf8, Values};
use run_laws::Kept;
use run_model::{Asker, Database, Entries, Entry, Log, Logs, Stop, Tracer};
use sql_model::Reply;
use std::alloc::{AllocError, Global};
use std::cmp::Ordering;

/// A database with the replies of the database in it. It keeps each statement with its reply.
#[derive(Drop)]
pub struct Recorder<D: Database> {
    alloc: Global,
    db: D,
    kept: List<Kept>,
}

impl<D: Database> Recorder<D> {
    /// The recorder over a database. It has kept nothing yet, and takes no memory.
    pub fn over(alloc: Global, db: D) -> Recorder<D>
        ensures db { result.db ≡ db }
        ensures kept { result.kept ≡ [] }
    {
        Recorder {
            alloc,
            db,
            kept: List::new(alloc),
        }
    }

    /// The kept statements and replies as logs, in the order of asking: one log for each process that asked,
    /// sorted by process. `AllocError` means out of memory only.
    pub fn logs(self) -> Result<Logs, AllocError>
        ensures { IfOk result (λ logs. logs ≡ logs_kept self.kept) }
    {
        let Recorder { alloc, db: _, kept } = self;
        logs_of(alloc, kept)
    }
}

// A question with its reply, to be kept.
fn keep_reply(
    alloc: Global,
    who: &Asker,
    text: &Utf8,
    params: &Values,
    reply: &Reply,
) -> Result<Kept, AllocError>
    ensures { IfOk result (λ kept. kept ≡ kept_of (asked_by who.now text.now params.now) reply.now) }
{
    let entry = Entry {
        text: text.copy()?,
        params: params.copy()?,
        reply: reply.copy_item(alloc)?,
    };
    Ok(Kept {
        process: who.name.copy_item(alloc)?,
        entry,
    })
}

impl<D: Database> Database for Recorder<D> {
    ghost use Rattle.run_laws.specs.KeptReplies.{KeepingDatabase, keeping_base};

    ghost Db = { KeepingDatabase D.Db };

    ghost seen = { λ r. record { db = D.seen r.db; kept = r.kept } };

    ghost base = { keeping_base D.base };

    ghost latest = { λ r. D.latest r.db };

    fn ask<T: Tracer>(
        &mut self,
        who: &Asker,
        text: &Utf8,
        params: &Values,
        tracer: &mut T,
    ) -> Result<Reply, Stop> {
        let reply = self.db.ask(who, text, params, tracer)?;
        let kept = keep_reply(self.alloc, who, text, params, &reply)?;
        self.kept.push(kept)?;
        Ok(reply)
    }
}

// ---- the logs

fn compare_names(a: &Kept, b: &Kept) -> Ordering
    ensures { result ≡ kept_cmp a.now b.now }
{
    a.process.parts.cmp(&b.process.parts)
}

// Sorted by process; those of a process stay in order.
fn sort_by_process(kept: List<Kept>) -> Result<Vec<Kept>, AllocError>
    ensures { IfOk result (λ sorted. sorted.items ≡ sorted_by kept_cmp kept) }
{
    let mut items = kept.into_vec();
    items.sort_by(|a, b| compare_names(a, b))?;
    Ok(items)
}

// A log with one entry.
fn log_of(alloc: Global, kept: Kept) -> Result<Log, AllocError>
    ensures { IfOk result (λ log. log ≡ new_log kept) }
{
    let Kept { process, entry } = kept;
    let mut entries = Entries::new(alloc);
    entries.push(entry)?;
    Ok(Log { process, entries })
}

// Adds an entry to a log.
fn with_last(log: Log, kept: Kept) -> Result<Log, AllocError>
    ensures { IfOk result (λ more. more ≡ with_last kept log) }
{
    let Log {
        process,
        mut entries,
    } = log;
    let Kept { process: _, entry } = kept;
    entries.push(entry)?;
    Ok(Log { process, entries })
}

fn is_of(log: &Log, kept: &Kept) -> bool
    ensures { result ≡ is_of kept.now log.now }
{
    kept.process.parts == log.process.parts
}

// Adds to the last log what is of its process, or a log for it after that one.
fn add_after(alloc: Global, logs: &mut Vec<Log>, last: Log, kept: Kept) -> Result<(), AllocError>
    ensures { OnOk result (logs.new.items ≡ logs.old.items ++ logs_with kept last) }
{
    if is_of(&last, &kept) {
        let more = with_last(last, kept)?;
        logs.push(more)?;
    } else {
        let next = log_of(alloc, kept)?;
        logs.push(last)?;
        logs.push(next)?;
    }
    Ok(())
}

// The same, where no log may be there yet.
#[tactic(auto, using(crate::proofs::KeptLogs::first_kept))]
fn add(alloc: Global, logs: &mut Vec<Log>, kept: Kept) -> Result<(), AllocError>
    ensures { OnOk result (logs.new.items ≡ with_kept kept logs.old.items) }
{
    match logs.pop() {
        None => {
            let first = log_of(alloc, kept)?;
            logs.push(first)?;
            Ok(())
        }
        Some(last) => add_after(alloc, logs, last, kept),
    }
}

// Those of a process one after another become its log.
fn logs_of_kept(alloc: Global, sorted: Vec<Kept>) -> Result<Logs, AllocError>
    ensures { IfOk result (λ logs. logs ≡ logs_of_kept sorted.items) }
{
    let mut logs = Vec::new(alloc);
    for kept in sorted {
        add(alloc, &mut logs, kept)?;
    }
    Ok(Logs::of_vec(logs))
}

fn logs_of(alloc: Global, kept: List<Kept>) -> Result<Logs, AllocError>
    ensures { IfOk result (λ logs. logs ≡ logs_kept kept) }
{
    let sorted = sort_by_process(kept)?;
    logs_of_kept(alloc, sorted)
}
