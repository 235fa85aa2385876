//! The numbers of a table's next row through time.

ghost use Rattle.std.specs.Prelude.{◌≡◌, List, [], ◌∷◌, IfOk};
ghost use Rattle.table_store.specs.Histories.{last_next_number, last_since, next_as_of};
ghost use Rattle.table_store.specs.inner.Nexts.{nexts_of, AreInTime};

use std::alloc::{AllocError, Global};

/// The number of the next row from a time on.
#[derive(Clone, Copy, Debug, PartialEq, Eq)]
pub(crate) struct NextSince {
    pub(crate) time: u32,
    pub(crate) next: u32,
}

/// The numbers of the next row at the start: `next` from time 0 on.
pub(crate) fn nexts_at_start(alloc: Global, next: u32) -> Result<Vec<NextSince>, AllocError>
    ensures { IfOk result (λ nexts. nexts_of nexts.items ≡ record { time = 0; next = next } ∷ []) }
{
    let mut nexts = Vec::with_capacity(alloc, 1)?;
    nexts.push(NextSince { time: 0, next })?;
    Ok(nexts)
}

/// The number of the next row after a time, found by bisection.
pub(crate) fn next_as_of(nexts: &[NextSince], time: u32) -> u32
    requires { AreInTime (nexts_of nexts.now) }
    ensures { result ≡ next_as_of time (nexts_of nexts.now) }
{
    let after = nexts.partition_point(|since| since.time <= time);
    last_next_number(&nexts[..after])
}

// The last number; 0 where there is none.
#[tactic(auto, using(crate::proofs::NextLaws::last_is))]
fn last_next_number(nexts: &[NextSince]) -> u32
    ensures { result ≡ last_next_number (nexts_of nexts.now) }
{
    match nexts.last() {
        None => 0,
        Some(since) => since.next,
    }
}

/// The time of the last change; 0 if there is none.
#[tactic(auto, using(crate::proofs::NextLaws::last_time_is))]
pub(crate) fn last_since(nexts: &[NextSince]) -> u32
    ensures { result ≡ last_since (nexts_of nexts.now) }
{
    match nexts.last() {
        None => 0,
        Some(since) => since.time,
    }
}
