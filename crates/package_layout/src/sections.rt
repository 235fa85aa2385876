//! All of a package between its magic and its digest.

ghost use Rattle.std.specs.Prelude.{◌≡◌, ◌++◌, OnOk};
ghost use Rattle.std.specs.List.{AllByRecursion};
ghost use Rattle.package_layout.specs.inner.Bare.{BareParts, BareNumbers, IsTypedBare};
ghost use Rattle.package_codec.specs.Fields.{Decodes, Makes};
ghost use Rattle.package_layout.specs.CompactReading.{compact_sections_at, compact_sections_of};
ghost use Rattle.package_codec.specs.CompactPackages.{cut_at, expanded_package};
ghost use Rattle.package_codec.specs.Runs.{IsCut};
ghost use Rattle.package_codec.specs.Typed.{TypedEvent};
ghost use Rattle.package_codec.specs.declared.version.Version.TheVariants.{Two};
ghost use Rattle.package_layout.specs.Whole.{mode_number, mode_of, mode_at, parts, numbers};
ghost use Rattle.package_layout.specs.Whole.{bytes_before_trace, bare_at};
ghost use Rattle.package_layout.specs.Whole.{sections, trace_spelling, IsTyped};

use ldv_value::{Bytes, List};
use package_codec::{
    CompactPackage, Cursor, DecodeStop, EventRuns, Version, Width, decode_cut, decode_list,
    decode_tables, decode_u8, decode_u32, decode_u64, encode_list, encode_tables, encode_trace,
    encode_u8, encode_u32, encode_u64,
};
use run_model::{Events, Mode, Package};
use std::alloc::{AllocError, Global};

fn number_of_mode(mode: Mode) -> u8
    ensures { result ≡ mode_number mode }
{
    match mode {
        Mode::Included => 1,
        Mode::Excluded => 2,
    }
}

fn decode_mode(cursor: &mut Cursor) -> Result<Mode, DecodeStop>
    ensures { Decodes result cursor.new (mode_at cursor.old) }
{
    let number = decode_u8(cursor)?;
    mode_of(number)
}

fn mode_of(number: u8) -> Result<Mode, DecodeStop>
    ensures { Makes result (mode_of number) }
{
    match number {
        1 => Ok(Mode::Included),
        2 => Ok(Mode::Excluded),
        _ => Err(DecodeStop::Malformed),
    }
}

/// Appends the sections of a package.
pub(crate) fn encode_sections(
    package: &Package,
    version: Version,
    to: &mut Bytes,
) -> Result<(), AllocError>
    ensures bytes { OnOk result (to.new ≡ to.old ++ sections version «package».now) }
    ensures typed { OnOk result (IsTyped «package».now) }
{
    encode_bare(package, version, to)?;
    encode_events(version, &package.events, to)
}

/// Appends the sections of a package whose trace is kept as runs, in the second version.
pub(crate) fn encode_compact_sections(
    package: &CompactPackage,
    to: &mut Bytes,
) -> Result<(), AllocError>
    requires { IsCut «package».now.runs }
    ensures { OnOk result (to.new ≡ to.old ++ sections Two (expanded_package «package».now)) }
{
    encode_bare(&package.bare, Version::Two, to)?;
    encode_list(Width::Four, &package.runs, to)
}

fn encode_events(version: Version, events: &Events, to: &mut Bytes) -> Result<(), AllocError>
    ensures bytes { OnOk result (to.new ≡ to.old ++ trace_spelling version events.now) }
    ensures typed { OnOk result (AllByRecursion TypedEvent events.now) }
{
    match version {
        Version::One => encode_list(Width::Four, events, to),
        Version::Two => encode_trace(events.items(), to),
    }
}

fn encode_bare(package: &Package, version: Version, to: &mut Bytes) -> Result<(), AllocError>
    ensures bytes { OnOk result (to.new ≡ to.old ++ bytes_before_trace version «package».now) }
    ensures typed { OnOk result (IsTypedBare «package».now) }
{
    encode_u8(number_of_mode(package.mode), to)?;
    encode_list(Width::Two, &package.start, to)?;
    encode_numbers(package, version, to)
}

fn encode_numbers(package: &Package, version: Version, to: &mut Bytes) -> Result<(), AllocError>
    ensures bytes { OnOk result (to.new ≡ to.old ++ numbers version «package».now) }
    ensures typed { OnOk result (BareNumbers «package».now) }
{
    encode_u64(package.seed, to)?;
    encode_u32(package.steps, to)?;
    encode_parts(package, version, to)
}

fn encode_parts(package: &Package, version: Version, to: &mut Bytes) -> Result<(), AllocError>
    ensures bytes { OnOk result (to.new ≡ to.old ++ parts version «package».now) }
    ensures typed { OnOk result (BareParts «package».now) }
{
    encode_list(Width::Four, &package.files, to)?;
    encode_tables(version, &package.tables, to)?;
    encode_list(Width::Four, &package.logs, to)
}

fn decode_bare(alloc: Global, version: Version, cursor: &mut Cursor) -> Result<Package, DecodeStop>
    ensures { Decodes result cursor.new (bare_at version cursor.old) }
{
    let mode = decode_mode(cursor)?;
    let start = decode_list(alloc, Width::Two, cursor)?;
    let seed = decode_u64(cursor)?;
    let steps = decode_u32(cursor)?;
    let files = decode_list(alloc, Width::Four, cursor)?;
    let tables = decode_tables(alloc, version, cursor)?;
    let logs = decode_list(alloc, Width::Four, cursor)?;
    Ok(Package {
        mode,
        start,
        seed,
        steps,
        files,
        tables,
        logs,
        events: List::new(alloc),
    })
}

fn decode_runs(
    alloc: Global,
    version: Version,
    cursor: &mut Cursor,
) -> Result<EventRuns, DecodeStop>
    ensures { Decodes result cursor.new (cut_at version cursor.old) }
{
    match version {
        Version::One => decode_cut(alloc, cursor),
        Version::Two => decode_list(alloc, Width::Four, cursor),
    }
}

fn decode_sections(
    alloc: Global,
    version: Version,
    cursor: &mut Cursor,
) -> Result<CompactPackage, DecodeStop>
    ensures { Decodes result cursor.new (compact_sections_at version cursor.old) }
{
    let bare = decode_bare(alloc, version, cursor)?;
    let runs = decode_runs(alloc, version, cursor)?;
    Ok(CompactPackage { bare, runs })
}

/// Reads the sections of a package from all of the bytes, with its trace as runs.
pub(crate) fn decode_all(
    alloc: Global,
    version: Version,
    bytes: &[u8],
) -> Result<CompactPackage, DecodeStop>
    ensures { Makes result (compact_sections_of version bytes.now) }
{
    let mut cursor = Cursor::of(bytes);
    let package = decode_sections(alloc, version, &mut cursor)?;
    if cursor.is_empty() {
        Ok(package)
    } else {
        Err(DecodeStop::Malformed)
    }
}
