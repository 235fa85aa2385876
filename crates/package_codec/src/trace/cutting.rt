//! Reads a trace that is written event by event into runs, and joins its events as they come.

ghost use Rattle.std.specs.Prelude.{◌≡◌, ◌+◌, ◌<◌, ◌≤◌, ◌^◌, ◌∷◌, [], List as Items, Some, IfOk};
ghost use Rattle.run_model.specs.declared.event.Event.{Event};
ghost use Rattle.package_codec.specs.inner.Cutting.{begun_count, cut_onto};
ghost use Rattle.package_codec.specs.Events.{event_at};
ghost use Rattle.package_codec.specs.Fields.{Decodes, items_at, made_at};
ghost use Rattle.package_codec.specs.CompactPackages.{cut_at};
ghost use Rattle.package_codec.specs.Runs.{run_with_event, joins, runs_of, run_of_one};
ghost use Rattle.package_codec.specs.Version.{One};

use crate::codec::Decode;
use crate::cursor::Cursor;
use crate::decode_stop::DecodeStop;
use crate::number::decode_u32;
use crate::trace::event_run::{Begun, EventRun, EventRuns, joins};
use ldv_value::List;
use run_model::Event;
use std::alloc::{AllocError, Global};

/// A trace that is being cut: the complete runs, and the run that has begun.
#[derive(Drop)]
pub(crate) struct Cut {
    done: EventRuns,
    begun: Option<Begun>,
}

/// Reads a trace that is written event by event, as the runs of its events. `Malformed`: the bytes begin with
/// no such trace.
pub fn decode_cut(alloc: Global, cursor: &mut Cursor) -> Result<EventRuns, DecodeStop>
    ensures { Decodes result cursor.new (cut_at One cursor.old) }
{
    let count = decode_u32(cursor)?;
    cut_events(alloc, count, cursor)
}

fn cut_events(alloc: Global, count: u32, cursor: &mut Cursor) -> Result<EventRuns, DecodeStop>
    ensures { Decodes result cursor.new
        (made_at (λ events. Some (runs_of events)) (items_at event_at count) cursor.old) }
{
    let mut cut = Cut {
        done: List::new(alloc),
        begun: None,
    };
    for _turn in 0..count {
        let event = Event::decode(alloc, cursor)?;
        cut = with_event(cut, event)?;
    }
    Ok(runs_of_cut(cut)?)
}

fn with_event(cut: Cut, event: Event) -> Result<Cut, AllocError>
    requires { begun_count cut.begun + 1 < 2 ^ 32 }
    ensures cut { IfOk result (λ new. (es : Items Event) → cut_onto new es ≡ cut_onto cut (event ∷ es)) }
    ensures count { IfOk result (λ new. begun_count new.begun ≤ begun_count cut.begun + 1) }
{
    let Cut { done, begun } = cut;
    match begun {
        Some(begun) => cut_with_event(done, begun, event),
        None => Ok(Cut {
            done,
            begun: Some(run_of_one(event)),
        }),
    }
}

fn cut_with_event(done: EventRuns, begun: Begun, event: Event) -> Result<Cut, AllocError>
    requires { begun.run.count + 1 < 2 ^ 32 }
    ensures cut { IfOk result (λ new. (es : Items Event) →
        cut_onto new es ≡ cut_onto (record { done = done; begun = Some begun }) (event ∷ es)) }
    ensures count { IfOk result (λ new. begun_count new.begun ≤ begun.run.count + 1) }
{
    let Begun { run, last } = begun;
    if joins(&run.first, run.count as usize, run.stride, last, &event) {
        return Ok(Cut {
            done,
            begun: Some(run_with_event(run, last, &event)),
        });
    }
    let mut done = done;
    done.push(run)?;
    Ok(Cut {
        done,
        begun: Some(run_of_one(event)),
    })
}

fn run_of_one(event: Event) -> Begun
    ensures { result ≡ run_of_one event }
{
    Begun {
        last: event.step,
        run: EventRun {
            first: event,
            count: 1,
            stride: 0,
        },
    }
}

fn run_with_event(run: EventRun, last: u32, event: &Event) -> Begun
    requires count { run.count + 1 < 2 ^ 32 }
    requires later { last ≤ event.now.step }
    ensures { result ≡ run_with_event (record { run = run; last = last }) event.now }
{
    Begun {
        run: EventRun {
            first: run.first,
            count: run.count + 1,
            stride: event.step - last,
        },
        last: event.step,
    }
}

fn runs_of_cut(cut: Cut) -> Result<EventRuns, AllocError>
    ensures { IfOk result (λ runs. runs ≡ cut_onto cut []) }
{
    let Cut { done, begun } = cut;
    let mut done = done;
    match begun {
        Some(begun) => done.push(begun.run)?,
        None => {}
    }
    Ok(done)
}
