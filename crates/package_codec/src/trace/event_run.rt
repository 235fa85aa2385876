//! Runs of events, in which a trace is written: a run-length encoding of neighbouring events.

ghost use Rattle.std.specs.Prelude.{◌≡◌};
ghost use Rattle.package_codec.specs.Runs.{joins};

use crate::codec::{Decode, Encode};
use crate::cursor::Cursor;
use crate::decode_stop::DecodeStop;
use crate::number::{decode_u32, encode_u32};
use crate::trace::same_act::is_alike;
use ldv_value::{Bytes, List};
use run_model::Event;
use std::alloc::{AllocError, Global};

/// Neighbouring events of one process and one act, whose steps are evenly apart.
#[derive(Drop)]
pub struct EventRun {
    pub first: Event,
    /// How many events it represents, the first one counted; at least 1.
    pub count: u32,
    /// The steps from each event to the next; 0 if it has only one event.
    pub stride: u32,
}

/// Runs, in the order of their events.
pub type EventRuns = List<EventRun>;

/// A run that has begun, and the step of its last event.
#[derive(Drop)]
pub(crate) struct Begun {
    pub(crate) run: EventRun,
    pub(crate) last: u32,
}

impl Encode for EventRun {
    ghost use Rattle.package_codec.specs.Runs.{event_run_spelling, TypedEventRun};

    ghost spelling = { event_run_spelling };

    ghost typed = { TypedEventRun };

    fn encode(&self, to: &mut Bytes) -> Result<(), AllocError> {
        self.first.encode(to)?;
        encode_u32(self.count, to)?;
        encode_u32(self.stride, to)
    }
}

impl Decode for EventRun {
    ghost use Rattle.package_codec.specs.Runs.{event_run_at};

    ghost reading = { event_run_at };

    fn decode(alloc: Global, cursor: &mut Cursor) -> Result<EventRun, DecodeStop> {
        let first = Event::decode(alloc, cursor)?;
        let count = decode_u32(cursor)?;
        let stride = decode_u32(cursor)?;
        Ok(EventRun {
            first,
            count,
            stride,
        })
    }
}

/// Whether an event continues a run. The run has begun, and its last event has the step `last`.
pub(crate) fn joins(first: &Event, count: usize, stride: u32, last: u32, event: &Event) -> bool
    ensures { result ≡ joins (record {
      run = record { first = first.now; count = count; stride = stride };
      last = last;
    }) event.now }
{
    is_alike(first, event) && last <= event.step && (count == 1 || event.step - last == stride)
}
