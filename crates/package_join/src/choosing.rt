//! The package of a run, picked out of a joined package.

ghost use Rattle.std.specs.Prelude.{◌≡◌, ◌++◌, ℕ, List as Items, [], IfOk, OnOk, map, filter};
ghost use Rattle.std.specs.List.{filter_map};
ghost use Rattle.std.specs.Option.{option_or};
ghost use Rattle.run_model.specs.Packing.{has_name, reason_at};
ghost use Rattle.joined_data.specs.Joined.{as_present, is_among, picked_file, picked_package, picked_table};
ghost use Rattle.joined_data.specs.Joined.{run_package};
ghost use Rattle.package_join.specs.inner.Picked.{file_by, reason_for, reason_if};

use joined_data::{Joined, JoinedRun, Reason, Reasons, Which};
use ldv_value::{CopyItem, List, Names};
use run_model::{
    Mode, NameSet, Package, PackedFile, PackedFiles, PackedTables, Reasons as FirstReasons, Why,
    has_name, note_named, pack_tables, set_of_names,
};
use sql_model::Tables;
use std::alloc::{AllocError, Global};

/// The package of a run: the files, tables and rows that it needs, each row with its reason. `AllocError`
/// means out of memory only.
pub fn run_of(alloc: Global, joined: &Joined, which: Which) -> Result<Package, AllocError>
    ensures { IfOk result (λ p. p ≡ run_package which joined.now) }
{
    match which {
        Which::First => picked_package(alloc, &joined.first, &joined.files, &joined.tables),
        Which::Second => picked_package(alloc, &joined.second, &joined.files, &joined.tables),
    }
}

/// The package that the lists of a run pick out of files and tables.
pub(crate) fn picked_package(
    alloc: Global,
    run: &JoinedRun,
    files: &PackedFiles,
    tables: &Tables,
) -> Result<Package, AllocError>
    ensures { IfOk result (λ p. p ≡ picked_package run.now files.now tables.now) }
{
    Ok(Package {
        mode: Mode::Included,
        start: run.start.copy()?,
        seed: run.seed,
        steps: run.steps,
        files: picked_files(alloc, run, files)?,
        tables: picked_tables(alloc, run, tables)?,
        logs: List::new(alloc),
        events: run.events.copy()?,
    })
}

/// The set of these names, or paths.
#[tactic(auto, using(crate::proofs::PickedBy::set_of_names))]
pub(crate) fn name_set(alloc: Global, names: &Names) -> Result<NameSet, AllocError>
    ensures { IfOk result (λ set. (q : Items ℕ) → has_name set q ≡ is_among q names.now) }
{
    let set = set_of_names(alloc, names.items())?;
    Ok(set)
}

fn picked_files(
    alloc: Global,
    run: &JoinedRun,
    files: &PackedFiles,
) -> Result<PackedFiles, AllocError>
    ensures { IfOk result (λ picked. picked ≡ filter_map (picked_file run.now) files.now) }
{
    let wholes = name_set(alloc, &run.wholes)?;
    let presents = name_set(alloc, &run.presents)?;
    files_by(alloc, &wholes, &presents, files.items())
}

fn files_by(
    alloc: Global,
    wholes: &NameSet,
    presents: &NameSet,
    files: &[PackedFile],
) -> Result<PackedFiles, AllocError>
    ensures { IfOk result (λ picked.
        picked ≡ filter_map (file_by (has_name wholes.now) (has_name presents.now)) files.now) }
{
    let mut picked = PackedFiles::new(alloc);
    for file in files {
        picked.push_some(file_by(alloc, wholes, presents, file)?)?;
    }
    Ok(picked)
}

fn file_by(
    alloc: Global,
    wholes: &NameSet,
    presents: &NameSet,
    file: &PackedFile,
) -> Result<Option<PackedFile>, AllocError>
    ensures { IfOk result (λ picked.
        picked ≡ file_by (has_name wholes.now) (has_name presents.now) file.now) }
{
    if has_name(wholes, &file.path) {
        Ok(Some(file.copy_item(alloc)?))
    } else if has_name(presents, &file.path) {
        Ok(Some(as_present(file)?))
    } else {
        Ok(None)
    }
}

fn as_present(file: &PackedFile) -> Result<PackedFile, AllocError>
    ensures { IfOk result (λ present. present ≡ as_present file.now) }
{
    Ok(PackedFile {
        path: file.path.copy()?,
        content: None,
    })
}

// Each table and each reason is looked up once.
fn picked_tables(
    alloc: Global,
    run: &JoinedRun,
    tables: &Tables,
) -> Result<PackedTables, AllocError>
    ensures { IfOk result (λ picked. picked ≡ map (picked_table run.now)
        (filter (λ table. is_among table.name run.now.tables) tables.now)) }
{
    let names = name_set(alloc, &run.tables)?;
    let reasons = first_reasons(alloc, &run.reasons)?;
    pack_tables(alloc, &names, &reasons, tables.items())
}

fn first_reasons(alloc: Global, reasons: &Reasons) -> Result<FirstReasons, AllocError>
    ensures { IfOk result (λ first. (table : Items ℕ) (row : ℕ)
        → reason_at first table row ≡ reason_for reasons.now table row) }
{
    let mut first = FirstReasons::new(alloc);
    for reason in reasons.items() {
        note_reason(alloc, &mut first, reason)?;
    }
    Ok(first)
}

fn note_reason(alloc: Global, first: &mut FirstReasons, reason: &Reason) -> Result<(), AllocError>
    ensures { OnOk result ((table : Items ℕ) (row : ℕ) → reason_at first.new table row
        ≡ option_or (reason_at first.old table row) (reason_if reason.now table row)) }
{
    let why = Why {
        statement: reason.statement,
        rule: reason.rule,
    };
    note_named(alloc, first, &reason.table, reason.row, why)
}
