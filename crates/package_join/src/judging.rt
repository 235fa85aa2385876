//! Whether joining the packages of its two runs gives the joined package that was read. No list of events is
//! made.

ghost use Rattle.std.specs.Prelude.{◌≡◌, IfOk};
ghost use Rattle.std.specs.List.{AllByRecursion};
ghost use Rattle.package_codec.specs.Fields.{Makes};
ghost use Rattle.joined_data.specs.Rooms.{TypedCommonTable};
ghost use Rattle.joined_data.specs.declared.joined.Which.TheVariants.{First, Second};
ghost use Rattle.package_join.specs.CompactValid.{compact_joined_in};
ghost use Rattle.joined_data.specs.CompactJoins.{join_of_packages, picked_run, picked_runs};
ghost use Rattle.package_join.specs.ParsedJoins.{StartRuns, cut_of, parsed_anew, parsed_join, parsed_joined_in};
ghost use Rattle.package_join.specs.ParsedJoins.{if_sections_are, valid_start};

use crate::choosing::picked_package;
use joined_data::{
    CompactJoined, CompactRun, JoinStop, ParsedJoined, decode_all, encode_compact_joined,
    join_with_runs,
};
use ldv_value::Bytes;
use package_codec::{CompactPackage, DecodeStop, Version};
use package_layout::valid_script;
use run_model::PackedFiles;
use script_parse::Script;
use sql_model::Tables;
use std::alloc::{AllocError, Global};

// The packages of both runs.
#[derive(Drop)]
struct Pair {
    first: CompactPackage,
    second: CompactPackage,
}

fn picked_run(
    alloc: Global,
    run: CompactRun,
    files: &PackedFiles,
    tables: &Tables,
) -> Result<CompactPackage, AllocError>
    ensures { IfOk result (λ p. p ≡ picked_run run files.now tables.now) }
{
    let CompactRun { bare, runs } = run;
    let bare = picked_package(alloc, &bare, files, tables)?;
    Ok(CompactPackage { bare, runs })
}

fn picked_pair(alloc: Global, joined: CompactJoined) -> Result<Pair, AllocError>
    ensures first { IfOk result (λ pair. pair.first ≡ picked_runs First joined) }
    ensures second { IfOk result (λ pair. pair.second ≡ picked_runs Second joined) }
{
    let CompactJoined {
        files,
        tables,
        first,
        second,
    } = joined;
    Ok(Pair {
        first: picked_run(alloc, first, &files, &tables)?,
        second: picked_run(alloc, second, &files, &tables)?,
    })
}

fn join_of_packages(
    alloc: Global,
    a: CompactPackage,
    b: CompactPackage,
) -> Result<CompactJoined, DecodeStop>
    ensures { Makes result (join_of_packages a b) }
{
    match join_with_runs(alloc, a, b) {
        Ok(joined) => Ok(joined),
        Err(JoinStop::Clash(_)) => Err(DecodeStop::Malformed),
        Err(JoinStop::NoMemory) => Err(DecodeStop::NoMemory),
    }
}

fn some_script(found: Option<Script>) -> Result<Script, DecodeStop>
    ensures { Makes result found }
{
    match found {
        Some(script) => Ok(script),
        None => Err(DecodeStop::Malformed),
    }
}

// The script of a package, which has to be valid.
fn valid_start(alloc: Global, package: &CompactPackage) -> Result<Script, DecodeStop>
    ensures { Makes result (valid_start «package».now) }
{
    let found = valid_script(alloc, Version::Two, package)?;
    some_script(found)
}

fn parsed_join(
    alloc: Global,
    a: CompactPackage,
    b: CompactPackage,
) -> Result<ParsedJoined, DecodeStop>
    ensures { Makes result (parsed_join a b) }
{
    let first = valid_start(alloc, &a)?;
    let second = valid_start(alloc, &b)?;
    let cut = join_of_packages(alloc, a, b)?;
    Ok(ParsedJoined { cut, first, second })
}

fn parsed_anew(alloc: Global, joined: CompactJoined) -> Result<ParsedJoined, DecodeStop>
    ensures { Makes result (parsed_anew joined) }
{
    let Pair { first, second } = picked_pair(alloc, joined)?;
    parsed_join(alloc, first, second)
}

fn if_spelling_is(
    alloc: Global,
    bytes: &[u8],
    joined: ParsedJoined,
) -> Result<ParsedJoined, DecodeStop>
    ensures so { Makes result (if_sections_are bytes.now joined) }
    ensures typed { IfOk result (λ p. AllByRecursion TypedCommonTable p.cut.tables) }
{
    let mut made = Bytes::new(alloc);
    encode_compact_joined(&joined.cut, &mut made)?;
    if made.as_slice() == bytes {
        Ok(joined)
    } else {
        Err(DecodeStop::Malformed)
    }
}

fn joined_by_parts(alloc: Global, bytes: &[u8]) -> Result<ParsedJoined, DecodeStop>
    ensures made { Makes result (parsed_joined_in bytes.now) }
    ensures typed { IfOk result (λ p. AllByRecursion TypedCommonTable p.cut.tables) }
{
    let read = decode_all(alloc, bytes)?;
    let anew = parsed_anew(alloc, read)?;
    if_spelling_is(alloc, bytes, anew)
}

/// The valid joined package whose sections these bytes are, with the first scripts of its runs. The packages
/// of its runs are joined anew, and must be spelled by the same bytes: so no list of it needs a test of its
/// own.
pub(crate) fn parsed_joined_in(alloc: Global, bytes: &[u8]) -> Result<ParsedJoined, DecodeStop>
    ensures cuts { Makes (cut_of result) (compact_joined_in bytes.now) }
    ensures parsed { IfOk result StartRuns }
    // The numbers of its tables are those of their types.
    ensures typed { IfOk result (λ p. AllByRecursion TypedCommonTable p.cut.tables) }
{
    joined_by_parts(alloc, bytes)
}
