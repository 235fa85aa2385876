//! Slots in the place of names and operands. Each call adds the names that it meets first.

ghost use Rattle.std.specs.Prelude.{IfOk, OnOk};
ghost use Rattle.script_code.specs.Resolved.{AreSlots, IsOperand, IsOperands, IsSlot, Extends};

use crate::code::{SlotOperand, SlotOperands, Slots};
use crate::name_table::NameTable;
use ldv_value::{CopyItem, Names, Utf8};
use script_parse::{Operand, Operands};
use std::alloc::{AllocError, Global};

/// An operand with the slot of its name.
#[tactic(auto, using(crate::proofs::KnownNames::known_steps))]
pub(crate) fn operand(
    alloc: Global,
    names: &mut NameTable,
    operand: &Operand,
) -> Result<SlotOperand, AllocError>
    ensures slotted { IfOk result (IsOperand names.new operand.now) }
    ensures keeps { OnOk result (Extends names.old names.new) }
{
    match operand {
        Operand::Constant(value) => Ok(SlotOperand::Constant(value.copy_item(alloc)?)),
        Operand::Variable(name) => Ok(SlotOperand::Slot(names.intern(name)?)),
    }
}

/// Operands with the slots of their names.
pub(crate) fn operands(
    alloc: Global,
    names: &mut NameTable,
    operands: &Operands,
) -> Result<SlotOperands, AllocError>
    ensures slotted { IfOk result (IsOperands names.new operands.now) }
    ensures keeps { OnOk result (Extends names.old names.new) }
{
    let mut slotted = SlotOperands::with_capacity(alloc, operands.len())?;
    let mut rest = operands.items();
    while let [item, others @ ..] = rest {
        slotted.push(operand(alloc, names, item)?)?;
        rest = others;
    }
    Ok(slotted)
}

/// The slots of names.
pub(crate) fn slots(
    alloc: Global,
    names: &mut NameTable,
    wanted: &Names,
) -> Result<Slots, AllocError>
    ensures slots { IfOk result (AreSlots names.new wanted.now) }
    ensures keeps { OnOk result (Extends names.old names.new) }
{
    let mut slots = Slots::with_capacity(alloc, wanted.len())?;
    let mut rest = wanted.items();
    while let [name, others @ ..] = rest {
        slots.push(names.intern(name)?)?;
        rest = others;
    }
    Ok(slots)
}

/// The slots of two names.
#[tactic(auto, using(crate::proofs::KnownNames::known_steps))]
pub(crate) fn two_slots(
    names: &mut NameTable,
    first: &Utf8,
    second: &Utf8,
) -> Result<(usize, usize), AllocError>
    ensures first { IfOk result (λ pair. IsSlot names.new first.now pair.0) }
    ensures second { IfOk result (λ pair. IsSlot names.new second.now pair.1) }
    ensures keeps { OnOk result (Extends names.old names.new) }
{
    let one = names.intern(first)?;
    let other = names.intern(second)?;
    Ok((one, other))
}

/// Two operands with the slots of their names.
#[tactic(auto, using(crate::proofs::KnownNames::known_steps))]
pub(crate) fn two_operands(
    alloc: Global,
    names: &mut NameTable,
    left: &Operand,
    right: &Operand,
) -> Result<(SlotOperand, SlotOperand), AllocError>
    ensures left { IfOk result (λ pair. IsOperand names.new left.now pair.0) }
    ensures right { IfOk result (λ pair. IsOperand names.new right.now pair.1) }
    ensures keeps { OnOk result (Extends names.old names.new) }
{
    let one = operand(alloc, names, left)?;
    let other = operand(alloc, names, right)?;
    Ok((one, other))
}

/// An operand and the others of its line, with the slots of their names.
#[tactic(auto, using(crate::proofs::KnownNames::known_steps))]
pub(crate) fn first_and_others(
    alloc: Global,
    names: &mut NameTable,
    first: &Operand,
    others: &Operands,
) -> Result<(SlotOperand, SlotOperands), AllocError>
    ensures first { IfOk result (λ pair. IsOperand names.new first.now pair.0) }
    ensures others { IfOk result (λ pair. IsOperands names.new others.now pair.1) }
    ensures keeps { OnOk result (Extends names.old names.new) }
{
    let one = operand(alloc, names, first)?;
    let more = operands(alloc, names, others)?;
    Ok((one, more))
}
