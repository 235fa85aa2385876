//! Needed files.

ghost use Rattle.std.specs.Prelude.{◌≡◌, ◌||◌, ◌&&◌, not, List, ℕ, OnOk, IfOk, Option, Some, None};
ghost use Rattle.std.specs.Prelude.{if◌then◌else◌};
ghost use Rattle.std.specs.List.{filter_map};
ghost use Rattle.std.specs.Option.{option_map};
ghost use Rattle.slicer.specs.inner.Marks.{need_as, packed_by};
ghost use Rattle.run_model.specs.Packing.{has_name};
ghost use Rattle.run_model.specs.Slice.{is_path, whole_path, present_path, changed_path, names_initial};
ghost use Rattle.run_model.specs.Slice.{packed_as, files_needed};

use ldv_value::{File, Utf8};
use run_model::{Act, Event, NameSet, PackedFile, PackedFiles, add_name, has_name};
use std::alloc::{AllocError, Global};

fn only_if(path: &Utf8, found: bool) -> Option<&Utf8>
    ensures { option_map (λ p. p.now) result ≡ (if found then Some path.now else None) }
{
    if found { Some(path) } else { None }
}

fn whole_path(act: &Act) -> Option<&Utf8>
    ensures { option_map (λ p. p.now) result ≡ whole_path act.now }
{
    match act {
        Act::Started { path } => Some(path),
        Act::Spawned { path } => Some(path),
        Act::Unspawned { path, found } => only_if(path, *found),
        Act::OpenedRead { path } => Some(path),
        Act::OpenedAppend { path, found } => only_if(path, *found),
        _ => None,
    }
}

fn present_path(act: &Act) -> Option<&Utf8>
    ensures { option_map (λ p. p.now) result ≡ present_path act.now }
{
    match act {
        Act::Unopened { path, found } => only_if(path, *found),
        Act::Tested { path, found } => only_if(path, *found),
        Act::Removed { path } => Some(path),
        _ => None,
    }
}

fn changed_path(act: &Act) -> Option<&Utf8>
    ensures { option_map (λ p. p.now) result ≡ changed_path act.now }
{
    match act {
        Act::OpenedWrite { path } => Some(path),
        Act::OpenedAppend { path, found: _ } => Some(path),
        Act::OpenedNew { path } => Some(path),
        Act::Removed { path } => Some(path),
        _ => None,
    }
}

// Adds a path, unless it is changed.
fn add_unchanged(
    alloc: Global,
    names: &mut NameSet,
    changed: &NameSet,
    path: &Utf8,
) -> Result<(), AllocError>
    ensures { OnOk result ((q : List ℕ) → has_name names.new q
        ≡ (has_name names.old q || (not (has_name changed.now q) && is_path q (Some path.now)))) }
{
    if has_name(changed, path) {
        return Ok(());
    }
    add_name(alloc, names, path)
}

fn note_needed(
    alloc: Global,
    names: &mut NameSet,
    changed: &NameSet,
    path: Option<&Utf8>,
) -> Result<(), AllocError>
    ensures { OnOk result ((q : List ℕ) → has_name names.new q
        ≡ (has_name names.old q || (not (has_name changed.now q)
        && is_path q (option_map (λ p. p.now) path.entry)))) }
{
    match path {
        None => Ok(()),
        Some(path) => add_unchanged(alloc, names, changed, path),
    }
}

fn note_changed(alloc: Global, changed: &mut NameSet, path: Option<&Utf8>) -> Result<(), AllocError>
    ensures { OnOk result ((q : List ℕ) → has_name changed.new q
        ≡ (has_name changed.old q || is_path q (option_map (λ p. p.now) path.entry))) }
{
    match path {
        None => Ok(()),
        Some(path) => add_name(alloc, changed, path),
    }
}

// The paths that events need whole and those that they need present, where no earlier event changes them.
#[derive(Drop)]
struct Paths {
    whole: NameSet,
    present: NameSet,
}

// Adds the paths of events, but for those that are changed before.
fn note_events(
    alloc: Global,
    paths: &mut Paths,
    changed: &mut NameSet,
    events: &[Event],
) -> Result<(), AllocError>
    ensures whole { OnOk result ((q : List ℕ) → has_name paths.new.whole q
        ≡ (has_name paths.old.whole q
        || (not (has_name changed.old q) && names_initial whole_path q events.now))) }
    ensures present { OnOk result ((q : List ℕ) → has_name paths.new.present q
        ≡ (has_name paths.old.present q
        || (not (has_name changed.old q) && names_initial present_path q events.now))) }
{
    for event in events {
        note_needed(alloc, &mut paths.whole, changed, whole_path(&event.act))?;
        note_needed(alloc, &mut paths.present, changed, present_path(&event.act))?;
        note_changed(alloc, changed, changed_path(&event.act))?;
    }
    Ok(())
}

fn initial_paths(alloc: Global, events: &[Event]) -> Result<Paths, AllocError>
    ensures whole { IfOk result (λ paths. (q : List ℕ) → has_name paths.whole q
        ≡ names_initial whole_path q events.now) }
    ensures present { IfOk result (λ paths. (q : List ℕ) → has_name paths.present q
        ≡ names_initial present_path q events.now) }
{
    let mut paths = Paths {
        whole: NameSet::new(alloc),
        present: NameSet::new(alloc),
    };
    let mut changed = NameSet::new(alloc);
    note_events(alloc, &mut paths, &mut changed, events)?;
    Ok(paths)
}

fn pack_file(
    file: &File,
    whole: &NameSet,
    present: &NameSet,
) -> Result<Option<PackedFile>, AllocError>
    ensures { IfOk result (λ packed. packed ≡ packed_by whole.now present.now file.now) }
{
    if has_name(whole, &file.path) {
        return Ok(Some(PackedFile {
            path: file.path.copy()?,
            content: Some(file.content.copy()?),
        }));
    }
    if has_name(present, &file.path) {
        return Ok(Some(PackedFile {
            path: file.path.copy()?,
            content: None,
        }));
    }
    Ok(None)
}

fn pack_files(
    alloc: Global,
    files: &[File],
    whole: &NameSet,
    present: &NameSet,
) -> Result<PackedFiles, AllocError>
    ensures { IfOk result (λ packed. packed ≡ filter_map (packed_by whole.now present.now) files.now) }
{
    let mut packed = PackedFiles::new(alloc);
    for file in files {
        packed.push_some(pack_file(file, whole, present)?)?;
    }
    Ok(packed)
}

/// The initial files that the run needed. `AllocError` means out of memory only.
pub(crate) fn needed_files(
    alloc: Global,
    events: &[Event],
    files: &[File],
) -> Result<PackedFiles, AllocError>
    ensures { IfOk result (λ packed. packed ≡ files_needed events.now files.now) }
{
    let Paths { whole, present } = initial_paths(alloc, events)?;
    pack_files(alloc, files, &whole, &present)
}
