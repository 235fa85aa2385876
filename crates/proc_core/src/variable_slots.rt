//! The values of the variables of a process, by slot.

ghost use Rattle.std.specs.Prelude.{◌≡◌, OnOk, replicate, slice_get, slice_set};
ghost use Rattle.sql_model.specs.Meaning.{or_null};
ghost use Rattle.proc_core.specs.Types.{Null};
ghost use Rattle.proc_core.specs.inner.Paged.{value_in};

use crate::pages::{Pages, item_in, put};
use ldv_value::Value;
use std::alloc::{AllocError, Global};
use std::marker::Model;

/// Values by slot, and NULL in each slot that was never set. Contracts see a list.
#[derive(Drop)]
pub(crate) struct VariableSlots {
    count: usize,
    set: Pages<Value>,
}

impl Model for VariableSlots {
    ghost use Rattle.std.specs.Prelude.{List as Items};
    ghost use Rattle.proc_core.specs.inner.Paged.{each_from, value_in};
    ghost use Rattle.ldv_value.specs.declared.value.Value.{Value as Held};

    ghost Value = { Items Held };

    ghost view = { λ a. each_from (value_in a.set.items) 0 a.count };
}

impl VariableSlots {
    /// `count` slots, none of which was set.
    #[tactic(auto, using(crate::proofs::Paging::none_set_is))]
    pub(crate) fn of_count(alloc: Global, count: usize) -> VariableSlots
        ensures { result ≡ replicate count Null }
    {
        VariableSlots {
            count,
            set: Vec::new(alloc),
        }
    }

    /// The value in a slot. If there is no such slot, or it was never set, the caller's NULL.
    #[tactic(auto, using(crate::proofs::Paging::get_rules))]
    #[inline(always)]
    pub(crate) fn get<'a>(&'a self, slot: usize, null: &'a Value) -> &'a Value
        requires { null.now ≡ Null }
        ensures { result.now ≡ or_null (slice_get self.now slot) }
    {
        if slot < self.count {
            value_in(&self.set, slot, null)
        } else {
            null
        }
    }

    /// Puts a value into a slot, if there is such a slot. `AllocError` means out of memory only.
    #[tactic(auto, using(crate::proofs::Paging::set_rules))]
    pub(crate) fn set(&mut self, slot: usize, value: Value) -> Result<(), AllocError>
        ensures { OnOk result (self.new ≡ slice_set self.old slot value) }
    {
        if slot >= self.count {
            return Ok(());
        }
        put(&mut self.set, slot, value)?;
        Ok(())
    }
}

// The value in a slot. If it was never set, the caller's NULL.
#[inline(always)]
fn value_in<'a>(set: &'a Pages<Value>, slot: usize, null: &'a Value) -> &'a Value
    requires { null.now ≡ Null }
    ensures { result.now ≡ value_in set.now.items slot }
{
    match item_in(set, slot) {
        None => null,
        Some(value) => value,
    }
}
