//! The next reply of a log.

ghost use Rattle.std.specs.Prelude.{◌≡◌, ◌<◌, ◌+◌, ◌^◌, ◌&&◌, Some, None, true, is_some, drop};
ghost use Rattle.std.specs.Prelude.{length, slice_get, IfOk, OnOk, OnErr};
ghost use Rattle.sql_model.specs.Keys.{same_values};
ghost use Rattle.sql_model.specs.Scope.{same_text};
ghost use Rattle.run_model.specs.declared.package.Entry.{Entry};
ghost use Rattle.replay_log.specs.inner.Left.{next_reply};

use ldv_value::{Utf8, Values};
use run_model::{Entries, Entry, Log, Stop};
use sql_model::Reply;
use std::mem;

// Whether an entry records a text with parameters.
fn is_recorded(entry: &Entry, text: &Utf8, params: &Values) -> bool
    ensures { result ≡ (same_text text.now entry.now.text && same_values params.now entry.now.params) }
{
    *text == entry.text && params.cmp(&entry.params).is_eq()
}

// Takes the reply of the entry at a place. Neither the entry nor those before it are used again.
fn take_reply(entries: Entries, place: usize) -> (Entries, Reply)
    requires { place < length entries }
    ensures rest { drop (place + 1) result.0 ≡ drop (place + 1) entries }
    ensures reply { (entry : Entry) → slice_get entries place ≡ Some entry → result.1 ≡ entry.reply }
{
    let mut items = entries.into_vec();
    let reply = mem::replace(&mut items[place].reply, Reply::Changed(0));
    (Entries::of_vec(items), reply)
}

// Takes the reply of the entry at a place out of a log.
fn take_from(log: &mut Log, place: usize) -> Reply
    requires { place < length log.old.entries }
    ensures process { log.new.process ≡ log.old.process }
    ensures rest { drop (place + 1) log.new.entries ≡ drop (place + 1) log.old.entries }
    ensures reply { (entry : Entry) → slice_get log.old.entries place ≡ Some entry → result ≡ entry.reply }
{
    let alloc = log.entries.allocator();
    let entries = mem::replace(&mut log.entries, Entries::new(alloc));
    let (left, reply) = take_reply(entries, place);
    log.entries = left;
    reply
}

// Whether the entry at a place records a text with parameters.
#[tactic(auto, using(crate::proofs::LeftLogs::is_next, crate::proofs::LeftLogs::no_next))]
fn has_next(log: &Log, place: usize, text: &Utf8, params: &Values) -> bool
    ensures within { result ≡ true → place < length log.now.entries }
    ensures fits { result ≡ true → place + 1 < 2 ^ 64 }
    ensures next { result ≡ is_some (next_reply (drop place log.now.entries) text.now params.now) }
{
    match log.entries.get(place) {
        None => false,
        Some(entry) => is_recorded(entry, text, params),
    }
}

/// Takes the reply of the entry at a place out of a log, if the entry records this text with these
/// parameters. The entries after it stay.
#[tactic(auto, using(crate::proofs::LeftLogs::none_next))]
pub(crate) fn take_next(
    log: &mut Log,
    place: usize,
    text: &Utf8,
    params: &Values,
) -> Result<Reply, Stop>
    ensures process { log.new.process ≡ log.old.process }
    ensures rest { drop (place + 1) log.new.entries ≡ drop (place + 1) log.old.entries }
    ensures reply { IfOk result (λ reply. next_reply (drop place log.old.entries) text.now params.now
        ≡ Some reply) }
    ensures diverged { OnErr result (next_reply (drop place log.old.entries) text.now params.now ≡ None) }
    ensures fits { OnOk result (place + 1 < 2 ^ 64) }
{
    if has_next(log, place, text, params) {
        Ok(take_from(log, place))
    } else {
        Err(Stop::Diverged)
    }
}
