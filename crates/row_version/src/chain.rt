//! The chain of one row's versions.

ghost use Rattle.std.specs.Prelude.{◌≡◌, ◌+◌, ◌-◌, ◌^◌, ◌<◌, ◌≤◌, ◌∷◌, [], ◌++◌};
ghost use Rattle.std.specs.Prelude.{IfOk, IsOk, IsSome, OnOk, OnErr};
ghost use Rattle.std.specs.Option.{option_map};
ghost use Rattle.row_version.specs.History.{write_at, delete_at, as_of, current_values, version, last_time, IsSorted};
ghost use Rattle.row_version.specs.inner.Versions.{ended_by};

use crate::versions::{Version, last_values, latest_by};
use ldv_value::Values;
use std::alloc::{AllocError, Global};
use std::marker::Model;

/// The values of one row through time. Contracts see the list of its changes, sorted by time, and `spare`,
/// the number of values that the chain can take without more memory.
#[derive(Drop)]
pub struct Chain {
    held: Vec<Version>,
    // The time of the end is kept apart from the versions, so that an end takes no memory.
    ended: Option<u32>,
}

impl Model for Chain {
    ghost use Rattle.row_version.specs.History.{History};

    ghost Value = { History };

    ghost use Rattle.row_version.specs.inner.Versions.{history_of, IsChain};

    ghost view = { history_of };

    ghost invariant = { IsChain };
}

impl Chain {
    /// The chain whose first values are written at `time`.
    pub fn new(alloc: Global, time: u32, values: Values) -> Result<Chain, AllocError>
        ensures { IfOk result (λ chain. chain.changes ≡ write_at time values ∷ []) }
    {
        let mut held = Vec::with_capacity(alloc, 1)?;
        held.push(Version { time, values })?;
        Ok(Chain { held, ended: None })
    }

    /// The current values; `None` once the chain has ended.
    #[tactic(auto, using(crate::proofs::Parts::current_ended))]
    pub fn current(&self) -> Option<&Values>
        ensures values { option_map (λ x. x.now) result ≡ current_values self.now.changes }
        ensures sorted { IsSorted self.now.changes }
    {
        if self.ended.is_some() {
            return None;
        }
        last_values(self.held.as_slice())
    }

    /// The values as of `time`; `None` before the first values and from the chain's end on.
    #[tactic(auto, using(crate::proofs::Parts::as_of_ended, crate::proofs::Parts::sorted_front))]
    pub fn as_of(&self, time: u32) -> Option<&Values>
        ensures values { option_map (λ x. x.now) result ≡ as_of self.now.changes time }
        ensures sorted { IsSorted self.now.changes }
    {
        if is_ended_by(self.ended, time) {
            return None;
        }
        latest_by(self.held.as_slice(), time)
    }

    /// The number of changes by `add` and `end` since `new`.
    pub fn version(&self) -> u32
        ensures { result ≡ version self.now.changes }
    {
        let earlier = (self.held.len() - 1) as u32;
        match self.ended {
            Some(_) => earlier + 1,
            None => earlier,
        }
    }

    /// Reserves memory for one more value, so that `spare` is at least 1. On `AllocError` the chain is as it
    /// was.
    pub fn reserve(&mut self) -> Result<(), AllocError>
        ensures changes { self.new.changes ≡ self.old.changes }
        ensures room { OnOk result (1 ≤ self.new.spare) }
        ensures kept { self.old.spare ≤ self.new.spare }
        ensures err { OnErr result (self.new ≡ self.old) }
    {
        self.held.reserve(1)
    }

    /// Gives the row new values from `time` on, which is later than the last change. The chain hasn't ended,
    /// and its `version` is below 2^32 - 1. `AllocError` never comes if `spare` is at least 1, and leaves the
    /// chain as it was.
    #[tactic(auto, using(crate::proofs::Later::sorted_after))]
    pub fn add(&mut self, time: u32, values: Values) -> Result<(), AllocError>
        requires live { IsSome (current_values self.old.changes) }
        requires few { version self.old.changes < 2 ^ 32 - 1 }
        requires later { last_time self.old.changes < time }
        ensures ok { OnOk result (self.new.changes ≡ self.old.changes ++ write_at time values ∷ []) }
        ensures spare { self.old.spare ≤ self.new.spare + 1 }
        ensures succeeds { 1 ≤ self.old.spare → IsOk result }
        ensures err { OnErr result (self.new ≡ self.old) }
    {
        self.held.reserve(1)?;
        self.held.push(Version { time, values })?;
        Ok(())
    }

    /// Ends the row at `time`, which is later than the last change: from then on it has no values. The chain
    /// hasn't ended, and its `version` is below 2^32 - 1.
    #[tactic(auto, using(crate::proofs::Later::sorted_after))]
    pub fn end(&mut self, time: u32)
        requires live { IsSome (current_values self.old.changes) }
        requires few { version self.old.changes < 2 ^ 32 - 1 }
        requires later { last_time self.old.changes < time }
        ensures changes { self.new.changes ≡ self.old.changes ++ delete_at time ∷ [] }
        ensures spare { self.new.spare ≡ self.old.spare }
    {
        self.ended = Some(time);
    }
}

// Whether the row has ended by a time.
fn is_ended_by(ended: Option<u32>, time: u32) -> bool
    ensures { result ≡ ended_by ended time }
{
    match ended {
        Some(end) => end <= time,
        None => false,
    }
}
