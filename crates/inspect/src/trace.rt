//! The report on the trace.

ghost use Rattle.std.specs.Prelude.{◌≡◌, ◌++◌, IfOk, OnOk};
ghost use Rattle.std.specs.List.{flat_map};
ghost use Rattle.run_model.specs.ValidTrace.{IsTrace};
ghost use Rattle.inspect.specs.TraceReports.{act_text, asked_text, event_line, found_act, found_text};
ghost use Rattle.inspect.specs.TraceReports.{path_act, trace_report, waited_text};

use crate::process_names::{Processes, append_process, processes_of};
use ldv_value::{Bytes, Utf8, append_number};
use run_model::{Act, Event, Package};
use std::alloc::{AllocError, Global};
use trace_graph::append_numbered;

/// A line `STEP NAME ACT` for each event of a package, with the fields of the act. The flag `found` or
/// `absent` stands before the path.
pub fn trace_text(alloc: Global, package: &Package) -> Result<Bytes, AllocError>
    requires { IsTrace «package».now.events }
    ensures { IfOk result (λ text. text ≡ trace_report «package».now.events) }
{
    let processes = processes_of(alloc, package.events.items())?;
    let mut text = Bytes::new(alloc);
    append_events(&mut text, &processes, package.events.items())?;
    Ok(text)
}

fn append_events(to: &mut Bytes, processes: &Processes, events: &[Event]) -> Result<(), AllocError>
    ensures { OnOk result (to.new ≡ to.old ++ flat_map (event_line processes.now) events.now) }
{
    for event in events {
        append_event(to, processes, event)?;
    }
    Ok(())
}

fn append_event(to: &mut Bytes, processes: &Processes, event: &Event) -> Result<(), AllocError>
    ensures { OnOk result (to.new ≡ to.old ++ event_line processes.now event.now) }
{
    append_number(event.step as u64, to)?;
    to.extend(b" ")?;
    append_process(to, processes, event.process)?;
    to.extend(b" ")?;
    append_act(to, processes, &event.act)?;
    to.extend(b"\n")
}

fn append_act(to: &mut Bytes, processes: &Processes, act: &Act) -> Result<(), AllocError>
    ensures { OnOk result (to.new ≡ to.old ++ act_text processes.now act.now) }
{
    match act {
        Act::Started { path } => append_path(to, b"started ", path),
        Act::Spawned { path } => append_path(to, b"spawned ", path),
        Act::Unspawned { path, found } => append_found(to, b"unspawned ", *found, path),
        Act::OpenedRead { path } => append_path(to, b"openedread ", path),
        Act::OpenedWrite { path } => append_path(to, b"openedwrite ", path),
        Act::OpenedAppend { path, found } => append_found(to, b"openedappend ", *found, path),
        Act::OpenedNew { path } => append_path(to, b"openednew ", path),
        Act::Unopened { path, found } => append_found(to, b"unopened ", *found, path),
        Act::Read { path } => append_path(to, b"read ", path),
        Act::Wrote { path } => append_path(to, b"wrote ", path),
        Act::Removed { path } => append_path(to, b"removed ", path),
        Act::Tested { path, found } => append_found(to, b"tested ", *found, path),
        Act::Waited { child } => append_waited(to, processes, *child),
        Act::Ended { status } => append_numbered(to, b"ended ", *status as u64),
        Act::Asked {
            statement,
            tables,
            reads,
            made,
        } => append_asked(
            to,
            *statement,
            tables.len() as u64,
            reads.len() as u64,
            made.len() as u64,
        ),
    }
}

fn append_path(to: &mut Bytes, name: &[u8], path: &Utf8) -> Result<(), AllocError>
    ensures { OnOk result (to.new ≡ to.old ++ path_act name.now path.now) }
{
    to.extend(name)?;
    to.extend(path.as_str().as_bytes())
}

fn append_found(to: &mut Bytes, name: &[u8], found: bool, path: &Utf8) -> Result<(), AllocError>
    ensures { OnOk result (to.new ≡ to.old ++ found_act name.now found path.now) }
{
    to.extend(name)?;
    append_flag(to, found)?;
    to.extend(path.as_str().as_bytes())
}

fn append_flag(to: &mut Bytes, found: bool) -> Result<(), AllocError>
    ensures { OnOk result (to.new ≡ to.old ++ found_text found) }
{
    if found {
        to.extend(b"found ")
    } else {
        to.extend(b"absent ")
    }
}

fn append_waited(to: &mut Bytes, processes: &Processes, child: u32) -> Result<(), AllocError>
    ensures { OnOk result (to.new ≡ to.old ++ waited_text processes.now child) }
{
    to.extend(b"waited ")?;
    append_process(to, processes, child)
}

fn append_asked(
    to: &mut Bytes,
    statement: u32,
    tables: u64,
    reads: u64,
    made: u64,
) -> Result<(), AllocError>
    ensures { OnOk result (to.new ≡ to.old ++ asked_text statement tables reads made) }
{
    append_numbered(to, b"asked ", statement as u64)?;
    append_numbered(to, b" tables ", tables)?;
    append_numbered(to, b" reads ", reads)?;
    append_numbered(to, b" made ", made)
}
