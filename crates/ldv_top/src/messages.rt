//! The lines of the exits, written with no memory.

ghost use Rattle.std.specs.Prelude.{◌≡◌, ◌++◌, ◌∷◌, [], option_map};
ghost use Rattle.std.specs.Fmt.{decimal};
ghost use Rattle.run_model.specs.OutcomeText.{parts_text, name_text};
ghost use Rattle.ldv_top.specs.Exits.{fixed_fault, damage_line, fixed_line, line_with_number, line_at_place};
ghost use Rattle.ldv_top.specs.Exits.{bad_script_line, clash_line, clash_line_of, line_of, line_with_name, named_row};
ghost use Rattle.ldv_top.specs.Exits.{numbered_line};
ghost use Rattle.ldv_top.specs.Written.{Writes};

use crate::exit::Exit;
use itoa::Buffer;
use joined_data::{Clash, ClashKind};
use ldv_io::{Sink, WriteStop, write_all};
use package_layout::DamageKind;
use world_json::WorldFault;

#[tactic(auto, using(crate::proofs::WriteLemmas::wrote_all))]
fn write_bytes<K: Sink>(sink: &mut K, bytes: &[u8]) -> Result<(), WriteStop>
    ensures { Writes K.taken K.faults sink.old sink.new bytes.now result }
{
    write_all(sink, bytes)
}

fn write_number<K: Sink>(sink: &mut K, number: u32) -> Result<(), WriteStop>
    ensures { Writes K.taken K.faults sink.old sink.new (decimal number) result }
{
    let mut buffer = Buffer::new();
    write_bytes(sink, buffer.format(number).as_bytes())
}

#[tactic(auto, using(crate::proofs::WriteLemmas::write_steps))]
fn write_headed<K: Sink>(sink: &mut K, head: &[u8], number: u32) -> Result<(), WriteStop>
    ensures { Writes K.taken K.faults sink.old sink.new (head.now ++ decimal number) result }
{
    write_bytes(sink, head)?;
    write_number(sink, number)
}

#[tactic(auto, using(crate::proofs::WriteLemmas::write_steps))]
fn write_numbered<K: Sink>(
    sink: &mut K,
    head: &[u8],
    number: u32,
    tail: &[u8],
) -> Result<(), WriteStop>
    ensures { Writes K.taken K.faults sink.old sink.new (line_with_number head.now number tail.now) result }
{
    write_headed(sink, head, number)?;
    write_bytes(sink, tail)
}

// A point and a number for each of the parts.
fn write_parts<K: Sink>(sink: &mut K, parts: &[u32]) -> Result<(), WriteStop>
    ensures { Writes K.taken K.faults sink.old sink.new (parts_text parts.now) result }
{
    for part in parts {
        match write_headed(sink, b".", *part) {
            Ok(()) => {}
            Err(stop) => return Err(stop),
        }
    }
    Ok(())
}

#[tactic(auto, using(crate::proofs::WriteLemmas::write_steps))]
fn write_first_parts<K: Sink>(sink: &mut K, first: u32, rest: &[u32]) -> Result<(), WriteStop>
    ensures { Writes K.taken K.faults sink.old sink.new (decimal first ++ parts_text rest.now) result }
{
    write_number(sink, first)?;
    write_parts(sink, rest)
}

fn write_name<K: Sink>(sink: &mut K, parts: &[u32]) -> Result<(), WriteStop>
    ensures { Writes K.taken K.faults sink.old sink.new (name_text parts.now) result }
{
    match parts {
        [] => Ok(()),
        [first, rest @ ..] => write_first_parts(sink, *first, rest),
    }
}

#[tactic(auto, using(crate::proofs::WriteLemmas::write_steps))]
fn write_named<K: Sink>(sink: &mut K, head: &[u8], parts: &[u32]) -> Result<(), WriteStop>
    ensures { Writes K.taken K.faults sink.old sink.new (head.now ++ name_text parts.now) result }
{
    write_bytes(sink, head)?;
    write_name(sink, parts)
}

#[tactic(auto, using(crate::proofs::WriteLemmas::write_steps))]
fn write_located<K: Sink>(
    sink: &mut K,
    head: &[u8],
    parts: &[u32],
    middle: &[u8],
    number: u32,
) -> Result<(), WriteStop>
    ensures { Writes K.taken K.faults sink.old sink.new
        (line_at_place head.now parts.now middle.now number (10 ∷ [])) result }
{
    write_named(sink, head, parts)?;
    write_numbered(sink, middle, number, b"\n")
}

fn fault_line(fault: &WorldFault) -> Option<&'static [u8]>
    ensures { option_map (λ x. x.now) result ≡ fixed_fault fault.now }
{
    match fault {
        WorldFault::NotJson => Some(b"ldv: not a world: not json\n"),
        WorldFault::Shape => Some(b"ldv: not a world: shape\n"),
        WorldFault::Name => Some(b"ldv: not a world: name\n"),
        WorldFault::Limit => Some(b"ldv: not a world: limit\n"),
        WorldFault::RowType => Some(b"ldv: not a world: row type\n"),
        WorldFault::NotNull => Some(b"ldv: not a world: not null\n"),
        WorldFault::Key => Some(b"ldv: not a world: key\n"),
        WorldFault::Reference => Some(b"ldv: not a world: reference\n"),
        WorldFault::NoStart => Some(b"ldv: not a world: no start\n"),
        WorldFault::BadScript(_) => None,
    }
}

fn kind_line(kind: &DamageKind) -> &'static [u8]
    ensures { result.now ≡ damage_line kind.now }
{
    match kind {
        DamageKind::Magic => b"ldv: damaged: magic\n",
        DamageKind::Digest => b"ldv: damaged: digest\n",
        DamageKind::Form => b"ldv: damaged: form\n",
    }
}

// The line of an exit in which no number and no name stands.
fn fixed_message(exit: &Exit) -> Option<&'static [u8]>
    ensures { option_map (λ x. x.now) result ≡ fixed_line exit.now }
{
    match exit {
        Exit::Done => Some(b""),
        Exit::Usage => Some(b"ldv: usage\n"),
        Exit::ReadFault => Some(b"ldv: read fault\n"),
        Exit::WriteFault => Some(b"ldv: write fault\n"),
        Exit::TooLong => Some(b"ldv: input longer than 67108864 bytes\n"),
        Exit::NotWorld(fault) => fault_line(fault),
        Exit::NotEnded { steps: _ } => None,
        Exit::Damaged(kind) => Some(kind_line(kind)),
        Exit::Diverged {
            process: _,
            index: _,
        } => None,
        Exit::NoSuch => Some(b"ldv: no such item\n"),
        Exit::Clash(_) => None,
        Exit::NoMemory => Some(b"ldv: out of memory\n"),
        Exit::PackageTooLong => Some(b"ldv: package longer than 67108864 bytes\n"),
        Exit::NotPrivate => Some(b"ldv: package is not private\n"),
        Exit::NotProv => Some(b"ldv: not a provenance document\n"),
    }
}

fn write_bad_script<K: Sink>(sink: &mut K, fault: &WorldFault) -> Result<(), WriteStop>
    ensures { Writes K.taken K.faults sink.old sink.new (bad_script_line fault.now) result }
{
    match fault {
        WorldFault::BadScript(line) => write_numbered(
            sink,
            b"ldv: not a world: bad script line ",
            *line,
            b"\n",
        ),
        _ => write_bytes(sink, b""),
    }
}

#[tactic(auto, using(crate::proofs::WriteLemmas::write_steps))]
fn write_head_and_name<K: Sink>(sink: &mut K, head: &[u8], name: &[u8]) -> Result<(), WriteStop>
    ensures { Writes K.taken K.faults sink.old sink.new (head.now ++ name.now) result }
{
    write_bytes(sink, head)?;
    write_bytes(sink, name)
}

// A name, which may have any bytes but a LF.
#[tactic(auto, using(crate::proofs::WriteLemmas::write_steps))]
fn write_line_of<K: Sink>(sink: &mut K, head: &[u8], name: &[u8]) -> Result<(), WriteStop>
    ensures { Writes K.taken K.faults sink.old sink.new (line_with_name head.now name.now) result }
{
    write_head_and_name(sink, head, name)?;
    write_bytes(sink, b"\n")
}

#[tactic(auto, using(crate::proofs::WriteLemmas::write_steps))]
fn write_row_of<K: Sink>(sink: &mut K, head: &[u8], name: &[u8], row: u32) -> Result<(), WriteStop>
    ensures { Writes K.taken K.faults sink.old sink.new (named_row head.now name.now row) result }
{
    write_head_and_name(sink, head, name)?;
    write_numbered(sink, b" ", row, b"\n")
}

fn write_clash_of<K: Sink>(
    sink: &mut K,
    kind: ClashKind,
    name: &[u8],
    row: u32,
) -> Result<(), WriteStop>
    ensures { Writes K.taken K.faults sink.old sink.new (clash_line_of kind name.now row) result }
{
    match kind {
        ClashKind::File => write_line_of(sink, b"ldv: clash: file ", name),
        ClashKind::Table => write_line_of(sink, b"ldv: clash: table ", name),
        ClashKind::Row => write_row_of(sink, b"ldv: clash: row ", name, row),
        ClashKind::Key => write_row_of(sink, b"ldv: clash: key ", name, row),
    }
}

fn write_clash<K: Sink>(sink: &mut K, clash: &Clash) -> Result<(), WriteStop>
    ensures { Writes K.taken K.faults sink.old sink.new (clash_line clash.now) result }
{
    write_clash_of(sink, clash.kind, clash.name.as_str().as_bytes(), clash.row)
}

fn write_with_number<K: Sink>(sink: &mut K, exit: &Exit) -> Result<(), WriteStop>
    ensures { Writes K.taken K.faults sink.old sink.new (numbered_line exit.now) result }
{
    match exit {
        Exit::NotWorld(fault) => write_bad_script(sink, fault),
        Exit::NotEnded { steps } => write_numbered(
            sink,
            b"ldv: not ended after ",
            *steps,
            b" steps\n",
        ),
        Exit::Diverged { process, index } => write_located(
            sink,
            b"ldv: diverged: process ",
            process.parts.items(),
            b" statement ",
            *index,
        ),
        Exit::Clash(clash) => write_clash(sink, clash),
        _ => write_bytes(sink, b""),
    }
}

/// Writes the line of an exit, and nothing for `Done`. It takes no memory. `Fault` comes only if a write
/// failed, and then the sink took a proper prefix of the line.
pub fn exit_line<K: Sink>(exit: &Exit, sink: &mut K) -> Result<(), WriteStop>
    ensures { Writes K.taken K.faults sink.old sink.new (line_of exit.now) result }
{
    match fixed_message(exit) {
        Some(line) => write_bytes(sink, line),
        None => write_with_number(sink, exit),
    }
}
