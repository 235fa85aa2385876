//! Processes, with slots in place of names.

ghost use Rattle.std.specs.Prelude.{◌≡◌, ◌+◌, ◌<◌, ◌^◌, OnOk};
ghost use Rattle.proc_core.specs.inner.Slots.{slot_ended, slot_went_on, slot_went_to, slot_with_variable};

use crate::file_slots::FileSlots;
use crate::variable_slots::VariableSlots;
use ldv_value::{Bytes, List, Parts, Value};
use sql_model::Replies;
use std::alloc::AllocError;

/// The index of a reply among those of the process, and how many of its rows were fetched.
#[derive(Clone, Copy)]
pub(crate) struct SlotCursor {
    pub reply: usize,
    pub fetched: usize,
}

/// A process. The values of its variables, and what its other names mean, are found by slot.
#[derive(Drop)]
pub(crate) struct SlotProcess {
    /// The parts of its name.
    pub name: Parts,
    /// The index of its resolved script.
    pub code: usize,
    /// The index of its next instruction.
    pub place: usize,
    pub variables: VariableSlots,
    pub files: FileSlots,
    pub cursors: List<Option<SlotCursor>>,
    /// The creation numbers of the children that its slots mean.
    pub children: List<Option<u32>>,
    /// How many children it made.
    pub spawned: u32,
    pub printed: Bytes,
    /// The replies to its statements, in order.
    pub replies: Replies,
    /// None while it runs.
    pub status: Option<u8>,
}

impl SlotProcess {
    /// Ends the process.
    pub(crate) fn end(&mut self, status: u8)
        ensures { self.new ≡ slot_ended status self.old }
    {
        self.status = Some(status);
    }

    /// Goes on at the next instruction.
    #[inline(always)]
    pub(crate) fn go_on(&mut self)
        requires { self.old.place + 1 < 2 ^ 64 }
        ensures { self.new ≡ slot_went_on self.old }
    {
        self.place += 1;
    }

    /// Goes on at the place of a label.
    #[inline(always)]
    pub(crate) fn go_to(&mut self, place: usize)
        ensures { self.new ≡ slot_went_to place self.old }
    {
        self.place = place;
    }

    /// Gives a variable a value.
    #[inline(always)]
    pub(crate) fn set_variable(&mut self, slot: usize, value: Value) -> Result<(), AllocError>
        ensures { OnOk result (self.new ≡ slot_with_variable slot value self.old) }
    {
        self.variables.set(slot, value)?;
        Ok(())
    }
}
