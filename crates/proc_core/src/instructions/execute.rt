//! The instructions that change their own process only, told apart.

ghost use Rattle.std.specs.Prelude.{◌≡◌, ◌+◌, ◌<◌, ◌^◌, OnOk};
ghost use Rattle.proc_core.specs.inner.SlotOwn.{slot_own};

use crate::instructions::cut::cut;
use crate::instructions::replies::{close, count, fetch, status};
use crate::instructions::variables::{
    calculate, exit, glue, jump_if, let_number, let_value, print,
};
use crate::process::SlotProcess;
use script_code::OwnInstr;
use std::alloc::{AllocError, Global};

/// Executes an instruction that changes its own process only.
pub(crate) fn execute_own(
    alloc: Global,
    instr: &OwnInstr,
    process: &mut SlotProcess,
) -> Result<(), AllocError>
    requires { process.old.place + 1 < 2 ^ 64 }
    ensures { OnOk result (process.new ≡ slot_own instr.now process.old) }
{
    match instr {
        OwnInstr::Let { to, value } => let_value(alloc, *to, value, process),
        OwnInstr::Calc {
            to,
            op,
            left,
            right,
        } => calculate(*to, *op, left, right, process),
        OwnInstr::Glue { to, left, right } => glue(alloc, *to, left, right, process),
        OwnInstr::ToInt { to, value } => let_number(*to, value, process),
        OwnInstr::Cut { before, after, by } => cut(alloc, *before, *after, by, process),
        OwnInstr::Jump { place } => {
            process.go_to(*place);
            Ok(())
        }
        OwnInstr::JumpIf {
            op,
            left,
            right,
            place,
        } => {
            jump_if(*op, left, right, *place, process);
            Ok(())
        }
        OwnInstr::Print { values } => print(alloc, values, process),
        OwnInstr::Exit { status } => {
            exit(status, process);
            Ok(())
        }
        OwnInstr::Close { file } => {
            close(*file, process);
            Ok(())
        }
        OwnInstr::Fetch { cursor, to, place } => fetch(*cursor, to, *place, process),
        OwnInstr::Count { to, cursor } => count(*to, *cursor, process),
        OwnInstr::Status { to, cursor } => status(*to, *cursor, process),
    }
}
