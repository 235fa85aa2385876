//! The law of the flags of processes.

ghost use Rattle.proc_core.specs.FlagsLaw.{FlagsLaw};

/// The flag of a process says whether it is runnable. The scheduler chooses among processes with set flags. A
/// flag changes only if its process goes on, waits, ends, is woken by the end of its child, or is made. The
/// function has no body: its contract is the theorem.
pub fn flags_law()
    ensures { FlagsLaw }
{}
