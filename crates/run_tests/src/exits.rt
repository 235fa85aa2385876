//! The status and the line of the exit that no input can cause.

ghost use Rattle.std.specs.Prelude.{◌<◌};

use ldv_io::MemorySink;
use ldv_top::{Exit, exit_line, status};
use ldv_value::Calls;
use std::alloc::{AllocError, Global};
use std::process::Abort;
use std::test::Fail;

fn is_told(exit: &Exit, sink: &mut MemorySink, line: &str) -> bool {
    exit_line(exit, sink).is_ok() && sink.taken() == line.as_bytes()
}

fn expect(
    rt: &impl Abort,
    alloc: Global,
    exit: &Exit,
    number: u8,
    line: &str,
) -> Result<(), AllocError> {
    let mut sink = MemorySink::new(alloc, 100, 7, Calls::new(alloc))?;
    assert!(rt; status(exit) == number && is_told(exit, &mut sink, line));
    Ok(())
}

#[test]
fn out_of_memory_has_a_status_and_a_line(rt: HostRuntime) -> Result<(), Fail> {
    expect(&rt, rt.alloc(), &Exit::NoMemory, 11, "ldv: out of memory\n")?;
    Ok(())
}
