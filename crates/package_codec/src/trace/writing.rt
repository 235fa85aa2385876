//! Traces, written in runs.

ghost use Rattle.std.specs.Prelude.{◌≡◌, ◌++◌, ◌∷◌, OnOk, length};
ghost use Rattle.std.specs.List.{flat_map, AllByRecursion};
ghost use Rattle.package_codec.specs.Typed.{TypedEvent};
ghost use Rattle.package_codec.specs.Runs.{event_run_spelling, runs_from, runs_of, runs_spelling};
ghost use Rattle.package_codec.specs.Runs.{run_of_one};

use crate::codec::Encode;
use crate::number::{encode_count, encode_u32};
use crate::trace::event_run::joins;
use crate::width::Width;
use ldv_value::Bytes;
use run_model::Event;
use std::alloc::AllocError;

/// Appends the spelling of a trace in version 2: the number of its runs, and the runs. No event is copied.
pub fn encode_trace(events: &[Event], to: &mut Bytes) -> Result<(), AllocError>
    ensures bytes { OnOk result (to.new ≡ to.old ++ runs_spelling events.now) }
    ensures typed { OnOk result (AllByRecursion TypedEvent events.now) }
{
    encode_count(Width::Four, count_runs(events), to)?;
    encode_runs(events, to)
}

fn encode_runs(events: &[Event], to: &mut Bytes) -> Result<(), AllocError>
    ensures bytes { OnOk result (to.new ≡ to.old ++ flat_map event_run_spelling (runs_of events.now)) }
    ensures typed { OnOk result (AllByRecursion TypedEvent events.now) }
{
    match events {
        [] => Ok(()),
        [first, rest @ ..] => encode_from(first, rest, to),
    }
}

#[tactic(auto, using(crate::proofs::RunFields::stands_first))]
fn encode_from(first: &Event, rest: &[Event], to: &mut Bytes) -> Result<(), AllocError>
    ensures bytes { OnOk result (to.new ≡ to.old
        ++ flat_map event_run_spelling (runs_from (run_of_one first.now) rest.now)) }
    ensures typed { OnOk result (AllByRecursion TypedEvent (first.now ∷ rest.now)) }
{
    let mut begun = first;
    let mut count = 1;
    let mut stride = 0;
    let mut last = first.step;
    let mut left = rest;
    loop {
        match left {
            [] => return encode_run(begun, count, stride, to),
            [event, others @ ..] => {
                if joins(begun, count, stride, last, event) {
                    count += 1;
                    stride = event.step - last;
                    last = event.step;
                    left = others;
                    continue;
                }
                encode_run(begun, count, stride, to)?;
                begun = event;
                count = 1;
                stride = 0;
                last = event.step;
                left = others;
            }
        }
    }
}

fn encode_run(first: &Event, count: usize, stride: u32, to: &mut Bytes) -> Result<(), AllocError>
    ensures bytes { OnOk result (to.new ≡ to.old
        ++ event_run_spelling (record { first = first.now; count = count; stride = stride })) }
    ensures typed { OnOk result (TypedEvent first.now) }
{
    first.encode(to)?;
    encode_count(Width::Four, count, to)?;
    encode_u32(stride, to)
}

fn count_runs(events: &[Event]) -> usize
    ensures { result ≡ length (runs_of events.now) }
{
    match events {
        [] => 0,
        [first, rest @ ..] => count_from(first, rest),
    }
}

fn count_from(first: &Event, rest: &[Event]) -> usize
    ensures { result ≡ length (runs_from (run_of_one first.now) rest.now) }
{
    let mut runs = 1;
    let mut begun = first;
    let mut count = 1;
    let mut stride = 0;
    let mut last = first.step;
    let mut left = rest;
    loop {
        match left {
            [] => return runs,
            [event, others @ ..] => {
                if joins(begun, count, stride, last, event) {
                    count += 1;
                    stride = event.step - last;
                } else {
                    runs += 1;
                    begun = event;
                    count = 1;
                    stride = 0;
                }
                last = event.step;
                left = others;
            }
        }
    }
}
