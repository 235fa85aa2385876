//! Whether runs of events are those of a trace: the longest ones, each written in the one way.

ghost use Rattle.std.specs.Prelude.{◌≡◌, ◌&&◌, ◌≤◌, nat_le, Some, None, not, if◌then◌else◌};
ghost use Rattle.std.specs.List.{list_all};
ghost use Rattle.package_codec.specs.Runs.{joins, last_step, is_formed, is_run, stops_before};
ghost use Rattle.package_codec.specs.Runs.{are_longest, are_runs, total, max_events};

use crate::trace::event_run::{EventRun, joins};
use crate::trace::same_act::is_asked;

// The most events of a run: its start, and two for each of at most 10,000,000 steps.
const MAX_EVENTS: u32 = 20_000_001;

/// Whether these are the longest runs of a trace, with no more events than a trace may have.
pub fn are_runs(runs: &[EventRun]) -> bool
    ensures { result ≡ are_runs runs.now }
{
    are_few(runs) && are_good(runs)
}

fn are_few(runs: &[EventRun]) -> bool
    ensures { result ≡ nat_le (total runs.now) max_events }
{
    match count_events(runs) {
        Some(_count) => true,
        None => false,
    }
}

/// How many events runs represent; `None` if they are more than a trace may have.
pub(crate) fn count_events(runs: &[EventRun]) -> Option<u32>
    ensures { result ≡ (if nat_le (total runs.now) max_events then Some (total runs.now) else None) }
{
    let mut room = MAX_EVENTS;
    let mut left = runs;
    loop {
        match left {
            [] => return Some(MAX_EVENTS - room),
            [run, rest @ ..] => {
                if run.count > room {
                    return None;
                }
                room -= run.count;
                left = rest;
            }
        }
    }
}

/// The step of the last event.
pub(crate) fn last_step(run: &EventRun) -> u64
    requires { 1 ≤ run.now.count }
    ensures { result ≡ last_step run.now }
{
    u64::from(run.first.step) + u64::from(run.count - 1) * u64::from(run.stride)
}

fn is_formed(run: &EventRun) -> bool
    ensures { result ≡ is_formed run.now }
{
    if run.count == 0 {
        false
    } else if run.count == 1 {
        run.stride == 0
    } else {
        !is_asked(&run.first.act)
    }
}

// The last step of a run that is one.
fn last_of(run: &EventRun) -> Option<u32>
    ensures { result ≡ (if is_run run.now then Some (last_step run.now) else None) }
{
    if !is_formed(run) {
        return None;
    }
    u32::try_from(last_step(run)).ok()
}

// Whether a run could be longer.
fn goes_on(run: &EventRun, last: u32, rest: &[EventRun]) -> bool
    requires { last ≡ last_step run.now }
    ensures { result ≡ not (stops_before run.now rest.now) }
{
    match rest {
        [] => false,
        [next, ..] => joins(
            &run.first,
            run.count as usize,
            run.stride,
            last,
            &next.first,
        ),
    }
}

fn are_good(runs: &[EventRun]) -> bool
    ensures { result ≡ (list_all is_run runs.now && are_longest runs.now) }
{
    let mut left = runs;
    loop {
        match left {
            [] => return true,
            [run, rest @ ..] => {
                let Some(last) = last_of(run) else {
                    return false;
                };
                if goes_on(run, last, rest) {
                    return false;
                }
                left = rest;
            }
        }
    }
}
