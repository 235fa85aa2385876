//! Databases, which reply to the statements of a run.

ghost use Rattle.std.specs.Prelude.{◌≡◌, ◌≤◌, ◌<◌, ℕ, Err, IfOk, OnOk};
ghost use Rattle.run_model.specs.Database.{Base, Lists, Gives, Diverges, asked_by, Notes};
ghost use Rattle.run_model.specs.declared.database.Stop.{Stop};

use crate::name::ProcName;
use crate::tracer::Tracer;
use ldv_value::{Utf8, Values};
use sql_model::Reply;
use std::alloc::AllocError;

/// Who asks a statement: the name and the creation number, from 0, of the process, the number of the step,
/// from 1, and the number of the statement among all of the run, from 0.
#[derive(Drop)]
pub struct Asker {
    pub name: ProcName,
    pub number: u32,
    pub step: u32,
    pub statement: u32,
}

/// Why a question has no reply.
#[derive(Clone, Copy, Debug, PartialEq, Eq)]
pub enum Stop {
    /// The database has no reply.
    Diverged,
    /// Out of memory.
    NoMemory,
}

impl From<AllocError> for Stop {
    ghost from_gives = { λ _ stop. stop ≡ Stop.NoMemory };

    fn from(_error: AllocError) -> Stop {
        Stop::NoMemory
    }
}

/// Replies to statements. The reply and the next state are a function of its state and the question; they
/// never depend on the tracer.
pub trait Database: Drop {
    /// The type of its state, as contracts see it.
    ghost Db: { Type 0 };

    /// Its state, as contracts see it.
    ghost seen: { Self → Db };

    /// The function from its state and a question to the answer.
    ghost base: { Base Db };

    /// The last step at which it was asked; 0 before the first.
    ghost latest: { Self → ℕ };

    /// Asks a text with its parameters. A tracer that keeps events notes one, with the lists of the
    /// statement. `Diverged` comes if and only if the database has no reply, unless memory runs out first.
    /// After a `Stop` nothing is promised of the database or the tracer, and neither is used again.
    fn ask<T: Tracer>(
        &mut self,
        who: &Asker,
        text: &Utf8,
        params: &Values,
        tracer: &mut T,
    ) -> Result<Reply, Stop>
        requires later { latest self.old < who.now.step }
        ensures reply { IfOk result (λ reply. (lists : Lists)
            × (base (seen self.old) (asked_by who.now text.now params.now)
            ≡ Gives reply (seen self.new) lists)
            × Notes T.KEEPS (T.events tracer.old) (T.events tracer.new) who.now lists) }
        ensures diverged { result ≡ Err Stop.Diverged
            → base (seen self.old) (asked_by who.now text.now params.now) ≡ Diverges }
        ensures latest { OnOk result (latest self.new ≤ who.now.step) };
}
