//! What a step reports to the tracer.

ghost use Rattle.std.specs.Prelude.{◌≡◌, ◌<◌, ◌^◌, ◌∷◌, [], map, OnOk};
ghost use Rattle.run_model.specs.Events.{event_at};
ghost use Rattle.run_model.specs.Step.{status_acts};
ghost use Rattle.proc_core.specs.inner.Acts.{path_act};
ghost use Rattle.proc_core.specs.Stands.{AppendsEvents};

use ldv_value::Utf8;
use run_model::{Act, Event, Tracer};
use std::alloc::AllocError;

/// The number of a step, and the creation number of the process that makes it.
#[derive(Clone, Copy)]
pub(crate) struct Who {
    pub step: u32,
    pub number: usize,
    ghost small: { number < 2 ^ 32 },
}

/// An act that names a path.
#[derive(Clone, Copy)]
pub(crate) enum PathAct {
    Started,
    Spawned,
    Unspawned(bool),
    OpenedRead,
    OpenedWrite,
    OpenedAppend(bool),
    OpenedNew,
    Unopened(bool),
    Read,
    Wrote,
    Removed,
    Tested(bool),
}

fn act_of(kind: PathAct, path: Utf8) -> Act
    ensures { result ≡ path_act kind path }
{
    match kind {
        PathAct::Started => Act::Started { path },
        PathAct::Spawned => Act::Spawned { path },
        PathAct::Unspawned(found) => Act::Unspawned { path, found },
        PathAct::OpenedRead => Act::OpenedRead { path },
        PathAct::OpenedWrite => Act::OpenedWrite { path },
        PathAct::OpenedAppend(found) => Act::OpenedAppend { path, found },
        PathAct::OpenedNew => Act::OpenedNew { path },
        PathAct::Unopened(found) => Act::Unopened { path, found },
        PathAct::Read => Act::Read { path },
        PathAct::Wrote => Act::Wrote { path },
        PathAct::Removed => Act::Removed { path },
        PathAct::Tested(found) => Act::Tested { path, found },
    }
}

/// Reports an act.
pub(crate) fn tell<T: Tracer>(who: Who, act: Act, tracer: &mut T) -> Result<(), AllocError>
    ensures { OnOk result (AppendsEvents T.KEEPS (T.events tracer.old) (T.events tracer.new)
        (event_at who.step who.number act ∷ [])) }
{
    if T::KEEPS {
        tracer.note(Event {
            step: who.step,
            process: who.number as u32,
            act,
        })
    } else {
        Ok(())
    }
}

/// Reports an act that names a path.
pub(crate) fn tell_path<T: Tracer>(
    who: Who,
    kind: PathAct,
    path: &Utf8,
    tracer: &mut T,
) -> Result<(), AllocError>
    ensures { OnOk result (AppendsEvents T.KEEPS (T.events tracer.old) (T.events tracer.new)
        (event_at who.step who.number (path_act kind path.now) ∷ [])) }
{
    if T::KEEPS {
        tell(who, act_of(kind, path.copy()?), tracer)
    } else {
        Ok(())
    }
}

/// Reports the end of a process, if it has ended.
pub(crate) fn tell_status<T: Tracer>(
    who: Who,
    status: Option<u8>,
    tracer: &mut T,
) -> Result<(), AllocError>
    ensures { OnOk result (AppendsEvents T.KEEPS (T.events tracer.old) (T.events tracer.new)
        (map (event_at who.step who.number) (status_acts status))) }
{
    match status {
        None => Ok(()),
        Some(status) => tell(who, Act::Ended { status }, tracer),
    }
}
