//! Scripts, read and resolved.

ghost use Rattle.std.specs.Prelude.{◌≡◌, Some, IfOk};
ghost use Rattle.script_parse.specs.Script.{script_of};
ghost use Rattle.script_code.specs.Resolved.{IsCode, IsRead};

use crate::code::Code;
use crate::resolve::resolve;
use ldv_value::Bytes;
use script_parse::{Instrs, ScriptStop, parse_script};
use std::alloc::{AllocError, Global};

/// The resolved form of the script that bytes spell, or `None` if they spell none. `AllocError` means out of
/// memory only.
pub fn read_code(alloc: Global, bytes: &[u8]) -> Result<Option<Code>, AllocError>
    ensures { IfOk result (IsRead bytes.now) }
{
    match parse_script(alloc, bytes) {
        Ok(script) => Ok(Some(code_of(alloc, bytes, &script.instructions)?)),
        Err(ScriptStop::Line(_)) => Ok(None),
        Err(ScriptStop::NoMemory) => Err(AllocError),
    }
}

/// The resolved form of a script that was parsed from these bytes. `AllocError` means out of memory only.
pub fn code_of(alloc: Global, bytes: &[u8], script: &Instrs) -> Result<Code, AllocError>
    requires { script_of bytes.now ≡ Some script.now }
    ensures { IfOk result (λ code. IsCode code script.now) }
{
    let source = Bytes::of_slice(alloc, bytes)?;
    resolve(alloc, source, script)
}
