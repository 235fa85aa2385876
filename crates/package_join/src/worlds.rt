//! The world of a run: all tables, all whole files, and the files that the run needs present.

ghost use Rattle.std.specs.Prelude.{◌≡◌, IfOk};
ghost use Rattle.std.specs.List.{filter_map};
ghost use Rattle.run_model.specs.Start.{IsParsed};
ghost use Rattle.run_model.specs.Packing.{has_name};
ghost use Rattle.joined_data.specs.CompactJoins.{whole_join};
ghost use Rattle.package_join.specs.ParsedJoins.{StartRuns, script_by};
ghost use Rattle.package_join.specs.Worlds.{empty_if, joined_world, seen_by, world_by, world_file, world_of};

use crate::choosing::name_set;
use joined_data::{CompactJoined, Joined, JoinedRun, ParsedJoined, Which};
use ldv_value::{Bytes, File, Files, Utf8};
use run_model::{NameSet, PackedFile, PackedFiles, ParsedWorld, World, has_name};
use script_parse::Script;
use sql_model::Tables;
use std::alloc::{AllocError, Global};

/// The world of a run. A file that only the other run needs present isn't in it. `AllocError` means out of
/// memory only.
pub fn joined_world(alloc: Global, joined: &Joined, which: Which) -> Result<World, AllocError>
    ensures { IfOk result (λ world. world ≡ joined_world which joined.now) }
{
    match which {
        Which::First => world_of(alloc, &joined.first, joined),
        Which::Second => world_of(alloc, &joined.second, joined),
    }
}

fn world_of(alloc: Global, run: &JoinedRun, joined: &Joined) -> Result<World, AllocError>
    ensures { IfOk result (λ world. world ≡ world_of run.now joined.now) }
{
    let files = joined.files.copy()?;
    Ok(World {
        start: run.start.copy()?,
        seed: run.seed,
        files: world_files(alloc, run, files)?,
        tables: joined.tables.copy()?,
    })
}

/// The world of a run with its first script, for a joined package that was read with its scripts. It takes
/// the joined package's own memory: no file and no row is copied. A file that only the other run needs
/// present isn't in it.
pub fn joined_parsed_world(
    alloc: Global,
    joined: ParsedJoined,
    which: Which,
) -> Result<ParsedWorld, AllocError>
    requires { StartRuns joined }
    ensures world { IfOk result (λ p. p.world ≡ joined_world which (whole_join joined.cut)) }
    ensures parsed { IfOk result IsParsed }
{
    let ParsedJoined { cut, first, second } = joined;
    let script = script_by(which, first, second);
    let world = world_owned(alloc, cut, which)?;
    Ok(ParsedWorld { world, script })
}

fn script_by(which: Which, first: Script, second: Script) -> Script
    ensures { result ≡ script_by which first second }
{
    match which {
        Which::First => first,
        Which::Second => second,
    }
}

fn world_owned(alloc: Global, joined: CompactJoined, which: Which) -> Result<World, AllocError>
    ensures { IfOk result (λ world. world ≡ joined_world which (whole_join joined)) }
{
    let CompactJoined {
        files,
        tables,
        first,
        second,
    } = joined;
    match which {
        Which::First => world_from(alloc, first.bare, files, tables),
        Which::Second => world_from(alloc, second.bare, files, tables),
    }
}

fn world_from(
    alloc: Global,
    run: JoinedRun,
    files: PackedFiles,
    tables: Tables,
) -> Result<World, AllocError>
    ensures { IfOk result (λ world. world ≡ world_by run files tables) }
{
    let files = world_files(alloc, &run, files)?;
    Ok(World {
        start: run.start,
        seed: run.seed,
        files,
        tables,
    })
}

fn world_files(alloc: Global, run: &JoinedRun, files: PackedFiles) -> Result<Files, AllocError>
    ensures { IfOk result (λ seen. seen ≡ filter_map (world_file run.now) files) }
{
    let presents = name_set(alloc, &run.presents)?;
    files_seen(alloc, &presents, files)
}

fn files_seen(alloc: Global, presents: &NameSet, files: PackedFiles) -> Result<Files, AllocError>
    ensures { IfOk result (λ seen. seen ≡ filter_map (seen_by (has_name presents.now)) files) }
{
    let mut seen = Files::new(alloc);
    for file in files.into_vec() {
        seen.push_some(seen_by(alloc, presents, file))?;
    }
    Ok(seen)
}

fn seen_by(alloc: Global, presents: &NameSet, file: PackedFile) -> Option<File>
    ensures { result ≡ seen_by (has_name presents.now) file }
{
    let PackedFile { path, content } = file;
    match content {
        Some(content) => Some(File { path, content }),
        None => empty_if(alloc, has_name(presents, &path), path),
    }
}

fn empty_if(alloc: Global, present: bool, path: Utf8) -> Option<File>
    ensures { result ≡ empty_if present path }
{
    if present {
        Some(File {
            path,
            content: Bytes::new(alloc),
        })
    } else {
        None
    }
}
