//! The open files of a process, by slot.

ghost use Rattle.std.specs.Prelude.{◌≡◌, IsTrue, Some, None, IfOk, replicate, slice_get, slice_set};
ghost use Rattle.std.specs.Prelude.{option_map};
ghost use Rattle.ldv_value.specs.Names.{path_test};
ghost use Rattle.run_model.specs.Core.{OpenFile};
ghost use Rattle.proc_core.specs.inner.Slots.{flatten_option};

use ldv_value::{OpenMode, Utf8};
use std::alloc::{AllocError, Global};
use std::marker::Model;

/// An open file names its path, so that it sees what any process writes there. Contracts see an `OpenFile`.
#[derive(Drop)]
pub(crate) struct SlotFile {
    path: Utf8,
    mode: OpenMode,
    place: u32,
}

impl Model for SlotFile {
    ghost use Rattle.std.specs.Prelude.{IsTrue};
    ghost use Rattle.ldv_value.specs.Names.{path_test};
    ghost use Rattle.run_model.specs.Core.{OpenFile};

    ghost Value = { OpenFile };

    ghost view = { λ a. record { path = a.path; mode = a.mode; place = a.place } };

    ghost invariant = { λ a. IsTrue (path_test a.path) };
}

impl SlotFile {
    /// A file that was opened at its start.
    pub(crate) fn at_start(path: Utf8, mode: OpenMode) -> SlotFile
        requires { IsTrue (path_test path) }
        ensures { result ≡ record { path = path; mode = mode; place = 0 } }
    {
        SlotFile {
            path,
            mode,
            place: 0,
        }
    }

    /// Its path.
    pub(crate) fn path(&self) -> &Utf8
        ensures path { result.now ≡ self.now.path }
        ensures valid { IsTrue (path_test result.now) }
    {
        &self.path
    }

    /// Its mode.
    pub(crate) fn mode(&self) -> OpenMode
        ensures { result ≡ self.now.mode }
    {
        self.mode
    }

    /// How many of its bytes were read.
    pub(crate) fn place(&self) -> u32
        ensures { result ≡ self.now.place }
    {
        self.place
    }

    // Moves how far it was read.
    fn move_to(&mut self, place: u32)
        ensures { self.new ≡ record self.old { place = place } }
    {
        self.place = place;
    }
}

/// Open files by slot. Contracts see a list.
#[derive(Drop)]
pub(crate) struct FileSlots {
    slots: Vec<Option<SlotFile>>,
}

impl Model for FileSlots {
    ghost use Rattle.std.specs.Prelude.{List as Items, Option};
    ghost use Rattle.run_model.specs.Core.{OpenFile};

    ghost Value = { Items (Option OpenFile) };

    ghost view = { λ a. a.slots.items };
}

impl FileSlots {
    /// `count` slots, in none of which a file is open.
    pub(crate) fn closed_slots(alloc: Global, count: usize) -> Result<FileSlots, AllocError>
        ensures { IfOk result (λ slots. slots ≡ replicate count None) }
    {
        let mut slots = Vec::with_capacity(alloc, count)?;
        for _slot in 0..count {
            slots.push(None)?;
        }
        Ok(FileSlots { slots })
    }

    /// The open file in a slot.
    pub(crate) fn get(&self, slot: usize) -> Option<&SlotFile>
        ensures { option_map (λ file. file.now) result ≡ flatten_option (slice_get self.now slot) }
    {
        match self.slots.get(slot) {
            None => None,
            Some(None) => None,
            Some(Some(file)) => Some(file),
        }
    }

    /// Puts an open file, or none, into a slot.
    pub(crate) fn set(&mut self, slot: usize, file: Option<SlotFile>)
        ensures { self.new ≡ slice_set self.old slot file }
    {
        if slot < self.slots.len() {
            self.slots[slot] = file;
        }
    }

    /// Moves the place of the open file in a slot.
    pub(crate) fn move_to(&mut self, slot: usize, place: u32)
        ensures { (file : OpenFile) → flatten_option (slice_get self.old slot) ≡ Some file
            → self.new ≡ slice_set self.old slot (Some (record file { place = place })) }
    {
        if slot < self.slots.len() {
            if let Some(file) = &mut self.slots[slot] {
                file.move_to(place);
            }
        }
    }
}
