//! The report on a row.

ghost use Rattle.std.specs.Prelude.{◌≡◌, ◌++◌, Some, None, option_map, bytes_eq, find, IfOk, OnOk};
ghost use Rattle.ldv_value.specs.Gives.{Gives};
ghost use Rattle.run_model.specs.ValidTrace.{IsTrace};
ghost use Rattle.inspect.specs.Stopping.{Stops};
ghost use Rattle.inspect.specs.WhyReports.{asked_in, asks, reason_line, reason_of, reason_text, row_in};
ghost use Rattle.inspect.specs.WhyReports.{row_numbered, table_named, why_report};

use crate::append::append_rule;
use crate::error::InspectStop;
use crate::process_names::{Processes, append_process, processes_of};
use ldv_value::Bytes;
use run_model::{Act, Event, Package, PackedRow, PackedTable};
use std::alloc::{AllocError, Global};
use trace_graph::append_numbered;

/// A line `statement S process NAME step T rule R` for a row of a package: the first statement that needed
/// it, the process and the step that asked it, and the rule. `NoSuch` if and only if the package's tables
/// don't have that row; `NoMemory` may come in place of either answer.
pub fn why_text(
    alloc: Global,
    package: &Package,
    table: &str,
    row: u32,
) -> Result<Bytes, InspectStop>
    requires { IsTrace «package».now.events }
    ensures { Gives Stops result (why_report «package».now.events «package».now.tables table.now row) }
{
    match find_row(package.tables.items(), table, row) {
        None => Err(InspectStop::NoSuch),
        Some(row) => Ok(reason_of(alloc, package.events.items(), row)?),
    }
}

fn find_row<'a>(tables: &'a [PackedTable], name: &str, number: u32) -> Option<&'a PackedRow>
    ensures { option_map (λ row. row.now) result ≡ row_in tables.now name.now number }
{
    match find_table(tables, name) {
        None => None,
        Some(table) => find_numbered(table.rows.items(), number),
    }
}

fn find_table<'a>(tables: &'a [PackedTable], name: &str) -> Option<&'a PackedTable>
    ensures { option_map (λ table. table.now) result ≡ table_named name.now tables.now }
{
    tables.iter().find(|table| table.name.is_text(name))
}

fn find_numbered(rows: &[PackedRow], number: u32) -> Option<&PackedRow>
    ensures { option_map (λ row. row.now) result ≡ row_numbered number rows.now }
{
    rows.iter().find(|row| row.number == number)
}

fn reason_of(alloc: Global, events: &[Event], row: &PackedRow) -> Result<Bytes, AllocError>
    requires { IsTrace events.now }
    ensures { IfOk result (λ text. text ≡ reason_of events.now row.now) }
{
    let mut text = Bytes::new(alloc);
    match find_asked(events, row.statement) {
        None => {}
        Some(event) => {
            let processes = processes_of(alloc, events)?;
            append_reason(&mut text, &processes, row, event)?;
        }
    }
    Ok(text)
}

fn find_asked(events: &[Event], statement: u32) -> Option<&Event>
    ensures { option_map (λ event. event.now) result ≡ asked_in events.now statement }
{
    events.iter().find(|event| asks(&event.act, statement))
}

// Whether an act asks the statement of this number.
fn asks(act: &Act, statement: u32) -> bool
    ensures { result ≡ asks statement act.now }
{
    match act {
        Act::Asked {
            statement: asked,
            tables: _,
            reads: _,
            made: _,
        } => *asked == statement,
        _ => false,
    }
}

fn append_reason(
    to: &mut Bytes,
    processes: &Processes,
    row: &PackedRow,
    event: &Event,
) -> Result<(), AllocError>
    ensures { OnOk result (to.new ≡ to.old ++ reason_line processes.now row.now event.now) }
{
    append_numbered(to, b"statement ", row.statement as u64)?;
    to.extend(b" process ")?;
    append_process(to, processes, event.process)?;
    append_numbered(to, b" step ", event.step as u64)?;
    to.extend(b" rule ")?;
    append_rule(to, row.rule)?;
    to.extend(b"\n")
}
