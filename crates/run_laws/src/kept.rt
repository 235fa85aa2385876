//! The questions and replies of a run, kept in order.

ghost use Rattle.run_laws.specs.KeptLaw.{KeptLaw};

use run_model::{Entry, ProcName};

/// A question of a process with its reply.
#[derive(Drop)]
pub struct Kept {
    pub process: ProcName,
    pub entry: Entry,
}

/// Over any database, keeping the replies doesn't change a run, and the kept questions and replies are the
/// logs of its processes. The function has no body: its contract is the theorem.
pub fn kept_law<Db>()
    ensures { KeptLaw Db }
{}
