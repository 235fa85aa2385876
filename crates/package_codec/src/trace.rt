//! Traces.

pub(crate) mod cutting;
mod event;
mod event_part;
pub(crate) mod event_run;
pub(crate) mod expanding;
mod group;
pub(crate) mod law;
pub(crate) mod run_rules;
mod same_act;
pub(crate) mod writing;

ghost use Rattle.std.specs.Prelude.{◌≡◌, ◌<◌, ◌≤◌, ◌^◌, ◌+◌, [], ◌∷◌, true, Some, None, IfSome};
ghost use Rattle.std.specs.Prelude.{◌&&◌, ◌==◌, if◌then◌else◌};
ghost use Rattle.std.specs.Option.{option_map};
ghost use Rattle.std.specs.List.{list_all};
ghost use Rattle.sql_model.specs.SqlNames.{sql_name_test};
ghost use Rattle.ldv_value.specs.Sorted.{is_strictly_sorted, text_precedes};
ghost use Rattle.run_model.specs.ValidTrace.{need_precedes, member_precedes};
ghost use Rattle.package_codec.specs.Runs.{events_in, is_run};
ghost use Rattle.package_codec.specs.inner.EventRunTrace.{made_by, progress_by, run_rule, spawns_fit};
ghost use Rattle.package_codec.specs.inner.Trace.{act_rule, event_rule, asked_after};
ghost use Rattle.package_codec.specs.inner.Trace.{follows, at_start, starts_on, starts};
ghost use Rattle.package_codec.specs.inner.Trace.{trace_test, asked_count, progress_of};

use crate::trace::event_run::EventRun;
use crate::trace::run_rules::last_step;
use crate::trace::same_act::is_asked;
use ldv_value::{Names, Utf8, is_path, is_strictly_sorted};
use run_model::{Act, Event};
use sql_model::{Members, Needs, is_sql_name};

/// How far the events have come: the numbers of processes made and of statements asked, and the step of the
/// last event.
#[derive(Clone, Copy, Drop)]
pub(crate) struct Progress {
    made: u32,
    asked: u64,
    step: u32,
}

/// Whether the events of these runs are a valid trace. Its run starts with the script at `path` and takes
/// `steps` steps.
pub fn is_trace(path: &Utf8, steps: u32, runs: &[EventRun]) -> bool
    requires { list_all is_run runs.now ≡ true }
    ensures { result ≡ trace_test path.now steps (events_in runs.now) }
{
    match runs {
        [] => false,
        [first, rest @ ..] => is_start_of(path, steps, first, rest),
    }
}

// The first event is in a run of its own: no other one starts anything.
fn is_start_of(path: &Utf8, steps: u32, first: &EventRun, rest: &[EventRun]) -> bool
    requires { list_all is_run rest.now ≡ true }
    ensures { result ≡ (starts path.now first.now.first && (first.now.count == 1)
        && follows steps at_start (events_in rest.now)) }
{
    starts(path, &first.first) && first.count == 1 && follows(steps, rest)
}

fn starts(path: &Utf8, event: &Event) -> bool
    ensures { result ≡ starts path.now event.now }
{
    event.step == 0 && event.process == 0 && starts_on(path, &event.act)
}

fn starts_on(path: &Utf8, act: &Act) -> bool
    ensures { result ≡ starts_on path.now act.now }
{
    match act {
        Act::Started { path: started } => *started == *path,
        _ => false,
    }
}

fn follows(steps: u32, runs: &[EventRun]) -> bool
    requires { list_all is_run runs.now ≡ true }
    ensures { result ≡ follows steps at_start (events_in runs.now) }
{
    let mut progress = Progress {
        made: 1,
        asked: 0,
        step: 1,
    };
    let mut left = runs;
    loop {
        match left {
            [] => return true,
            [run, rest @ ..] => {
                let Some(after) = after_run(steps, progress, run) else {
                    return false;
                };
                progress = after;
                left = rest;
            }
        }
    }
}

// How far the events have come after those of a run, where they are valid.
fn after_run(steps: u32, before: Progress, run: &EventRun) -> Option<Progress>
    requires run { is_run run.now ≡ true }
    requires made { before.made ≤ 65535 }
    requires asked { before.asked + 1 < 2 ^ 64 }
    ensures after { option_map progress_of result ≡ (if run_rule steps (progress_of before) run.now
        then Some (progress_by (progress_of before) run.now) else None) }
    ensures made { IfSome result (λ after. after.made ≤ 65535) }
    ensures asked { IfSome result (λ after. after.asked ≤ before.asked + 1) }
{
    if is_valid_run(steps, before, run) {
        Some(progress_by(before, run))
    } else {
        None
    }
}

fn is_valid_run(steps: u32, before: Progress, run: &EventRun) -> bool
    requires { is_run run.now ≡ true }
    ensures { result ≡ run_rule steps (progress_of before) run.now }
{
    is_valid_event(steps, before, &run.first)
        && last_step(run) <= u64::from(steps)
        && spawns_fit(before.made, &run.first.act, run.count)
}

fn spawns_fit(made: u32, act: &Act, times: u32) -> bool
    ensures { result ≡ spawns_fit made act.now times }
{
    if act.is_spawn() {
        u64::from(made) + u64::from(times) <= 65535
    } else {
        true
    }
}

fn is_valid_event(steps: u32, before: Progress, event: &Event) -> bool
    ensures { result ≡ event_rule steps (progress_of before) event.now }
{
    before.step <= event.step
        && event.step <= steps
        && event.process < before.made
        && is_valid_act(before, &event.act)
}

fn is_valid_act(before: Progress, act: &Act) -> bool
    ensures { result ≡ act_rule (progress_of before) act.now }
{
    match act {
        Act::Started { path: _ } => false,
        Act::Spawned { path } => is_path(path.as_str()) && before.made < 65535,
        Act::Unspawned { path, found: _ } => is_path(path.as_str()),
        Act::OpenedRead { path } => is_path(path.as_str()),
        Act::OpenedWrite { path } => is_path(path.as_str()),
        Act::OpenedAppend { path, found: _ } => is_path(path.as_str()),
        Act::OpenedNew { path } => is_path(path.as_str()),
        Act::Unopened { path, found: _ } => is_path(path.as_str()),
        Act::Read { path } => is_path(path.as_str()),
        Act::Wrote { path } => is_path(path.as_str()),
        Act::Removed { path } => is_path(path.as_str()),
        Act::Tested { path, found: _ } => is_path(path.as_str()),
        Act::Waited { child } => *child < before.made,
        Act::Ended { status: _ } => true,
        Act::Asked {
            statement,
            tables,
            reads,
            made,
        } => {
            u64::from(*statement) == before.asked
                && are_names(tables)
                && is_strictly_sorted(tables.items())
                && is_strictly_sorted(reads.items())
                && is_strictly_sorted(made.items())
        }
    }
}

fn are_names(names: &Names) -> bool
    ensures { result ≡ list_all sql_name_test names.now }
{
    names.items().iter().all(|name| is_sql_name(name.as_str()))
}

fn progress_by(before: Progress, run: &EventRun) -> Progress
    requires run { is_run run.now ≡ true }
    requires made { before.made ≤ 65535 }
    requires fits { spawns_fit before.made run.now.first.act run.now.count ≡ true }
    requires asked { before.asked + 1 < 2 ^ 64 }
    ensures after { progress_of result ≡ progress_by (progress_of before) run.now }
    ensures made { result.made ≤ 65535 }
    ensures asked { result.asked ≤ before.asked + 1 }
{
    Progress {
        made: made_after(before.made, &run.first.act, run.count),
        asked: asked_after(before.asked, is_asked(&run.first.act)),
        step: last_step(run) as u32,
    }
}

fn made_after(made: u32, act: &Act, times: u32) -> u32
    requires made { made ≤ 65535 }
    requires fits { spawns_fit made act.now times ≡ true }
    ensures after { result ≡ made + made_by act.now times }
    ensures made { result ≤ 65535 }
{
    if act.is_spawn() { made + times } else { made }
}

fn asked_after(asked: u64, one_more: bool) -> u64
    requires { asked + 1 < 2 ^ 64 }
    ensures after { result ≡ asked_after asked one_more }
    ensures more { result ≤ asked + 1 }
{
    if one_more { asked + 1 } else { asked }
}

/// How many statements the events of these runs ask.
pub fn asked_count(runs: &[EventRun]) -> u64
    requires { list_all is_run runs.now ≡ true }
    ensures { result ≡ asked_count (events_in runs.now) }
{
    let mut asked = 0;
    let mut left = runs;
    loop {
        match left {
            [] => return asked,
            [run, rest @ ..] => {
                asked = asked_after(asked, is_asked(&run.first.act));
                left = rest;
            }
        }
    }
}
