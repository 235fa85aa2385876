//! Tracers: observers of what a run does.

ghost use Rattle.std.specs.Prelude.{◌≡◌, ◌++◌, ◌∷◌, [], List, IsTrue, OnOk, OnErr, Bool, true, false};
ghost use Rattle.run_model.specs.declared.event.Event.{Event};

use crate::event::{Event, Events};
use std::alloc::{AllocError, Global};
use std::marker::Model;

/// Observes the events of a run, one by one. It never changes what the run does.
pub trait Tracer: Drop {
    /// Whether it keeps events.
    ghost KEEPS: { Bool };

    /// Whether it keeps events. If it doesn't, no event needs to be made for it.
    const KEEPS: bool;

    /// The events that it observed, if it keeps them.
    ghost events: { Self → List Event };

    /// Notes the next event. On `AllocError` it may have lost it.
    fn note(&mut self, event: Event) -> Result<(), AllocError>
        ensures { IsTrue KEEPS → OnOk result (events self.new ≡ events self.old ++ event ∷ []) };
}

/// A tracer that keeps nothing and takes no memory.
#[derive(Drop)]
pub struct NullTracer;

impl Tracer for NullTracer {
    ghost KEEPS = { false };

    const KEEPS: bool = false;

    ghost events = { λ _. [] };

    fn note(&mut self, _event: Event) -> Result<(), AllocError> {
        Ok(())
    }
}

/// A tracer that keeps all events, in order. Contracts see it as their list.
#[derive(Drop)]
pub struct ListTracer {
    held: Events,
}

impl Model for ListTracer {
    ghost use Rattle.std.specs.Prelude.{List};
    ghost use Rattle.run_model.specs.declared.event.Event.{Event};

    ghost Value = { List Event };

    ghost view = { λ a. a.held };
}

impl ListTracer {
    /// A tracer that has observed nothing yet.
    pub fn new(alloc: Global) -> ListTracer
        ensures { result ≡ [] }
    {
        ListTracer {
            held: Events::new(alloc),
        }
    }

    /// The events that it observed.
    pub fn events(self) -> Events
        ensures { result ≡ self }
    {
        self.held
    }
}

impl Tracer for ListTracer {
    ghost use Rattle.std.specs.Prelude.{◌≡◌, ◌++◌, ◌∷◌, [], OnOk, OnErr, true};

    ghost KEEPS = { true };

    const KEEPS: bool = true;

    ghost events = { λ t. t };

    fn note(&mut self, event: Event) -> Result<(), AllocError>
        ensures ok { OnOk result (self.new ≡ self.old ++ event ∷ []) }
        // More than every tracer promises: where the event is lost, the list is as it was.
        ensures err { OnErr result (self.new ≡ self.old) }
    {
        self.held.push(event)
    }
}
