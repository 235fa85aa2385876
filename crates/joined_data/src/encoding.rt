//! The parts of a joined package, from values to bytes.

ghost use Rattle.std.specs.Prelude.{◌≡◌, ◌++◌, OnOk};
ghost use Rattle.std.specs.List.{AllByRecursion};
ghost use Rattle.joined_data.specs.Layout.{bare_run_spelling, both_runs_spelling, joined_sections};
ghost use Rattle.joined_data.specs.Layout.{needs_spelling, numbers_spelling, run_spelling};
ghost use Rattle.joined_data.specs.Rooms.{TypedBareRun, TypedCommonTable, IsTypedJoined};
ghost use Rattle.joined_data.specs.Rooms.{TypedJoinedRun, TypedNeeds, TypedRunNumbers};
ghost use Rattle.joined_data.specs.CompactJoins.{both_compact_spelling, compact_run_spelling};
ghost use Rattle.joined_data.specs.CompactJoins.{compact_sections, whole_join};
ghost use Rattle.package_codec.specs.Runs.{IsCut};

use crate::compact_joined::{CompactJoined, CompactRun};
use crate::joined::{Joined, JoinedRun, Reason};
use ldv_value::Bytes;
use package_codec::{
    Encode, Width, encode_list, encode_reason, encode_text, encode_trace, encode_u32, encode_u64,
};
use std::alloc::AllocError;

impl Encode for Reason {
    ghost use Rattle.joined_data.specs.Layout.{named_reason_spelling};
    ghost use Rattle.joined_data.specs.Rooms.{TypedReason};

    ghost spelling = { named_reason_spelling };

    ghost typed = { TypedReason };

    fn encode(&self, to: &mut Bytes) -> Result<(), AllocError> {
        encode_text(&self.table, to)?;
        self.row.encode(to)?;
        encode_reason(self.statement, self.rule, to)
    }
}

fn encode_needs(run: &JoinedRun, to: &mut Bytes) -> Result<(), AllocError>
    ensures bytes { OnOk result (to.new ≡ to.old ++ needs_spelling run.now) }
    ensures typed { OnOk result (TypedNeeds run.now) }
{
    encode_list(Width::Four, &run.wholes, to)?;
    encode_list(Width::Four, &run.presents, to)?;
    encode_list(Width::Two, &run.tables, to)?;
    encode_list(Width::Four, &run.reasons, to)
}

fn encode_run_numbers(run: &JoinedRun, to: &mut Bytes) -> Result<(), AllocError>
    ensures bytes { OnOk result (to.new ≡ to.old ++ numbers_spelling run.now) }
    ensures typed { OnOk result (TypedRunNumbers run.now) }
{
    encode_u64(run.seed, to)?;
    encode_u32(run.steps, to)?;
    encode_needs(run, to)
}

fn encode_bare_run(run: &JoinedRun, to: &mut Bytes) -> Result<(), AllocError>
    ensures bytes { OnOk result (to.new ≡ to.old ++ bare_run_spelling run.now) }
    ensures typed { OnOk result (TypedBareRun run.now) }
{
    encode_list(Width::Two, &run.start, to)?;
    encode_run_numbers(run, to)
}

fn encode_run(run: &JoinedRun, to: &mut Bytes) -> Result<(), AllocError>
    ensures bytes { OnOk result (to.new ≡ to.old ++ run_spelling run.now) }
    ensures typed { OnOk result (TypedJoinedRun run.now) }
{
    encode_bare_run(run, to)?;
    encode_trace(run.events.items(), to)
}

fn encode_both_runs(joined: &Joined, to: &mut Bytes) -> Result<(), AllocError>
    ensures bytes { OnOk result (to.new ≡ to.old ++ both_runs_spelling joined.now) }
    ensures typed { OnOk result (TypedJoinedRun joined.now.first × TypedJoinedRun joined.now.second) }
{
    encode_run(&joined.first, to)?;
    encode_run(&joined.second, to)
}

/// Appends all bytes of a joined package between its magic and its digest.
pub fn encode_joined(joined: &Joined, to: &mut Bytes) -> Result<(), AllocError>
    ensures bytes { OnOk result (to.new ≡ to.old ++ joined_sections joined.now) }
    ensures typed { OnOk result (IsTypedJoined joined.now) }
{
    encode_list(Width::Four, &joined.files, to)?;
    encode_list(Width::Two, &joined.tables, to)?;
    encode_both_runs(joined, to)
}

fn encode_compact_run(run: &CompactRun, to: &mut Bytes) -> Result<(), AllocError>
    ensures { OnOk result (to.new ≡ to.old ++ compact_run_spelling run.now) }
{
    encode_bare_run(&run.bare, to)?;
    encode_list(Width::Four, &run.runs, to)
}

fn encode_both_compact(joined: &CompactJoined, to: &mut Bytes) -> Result<(), AllocError>
    ensures { OnOk result (to.new ≡ to.old ++ both_compact_spelling joined.now) }
{
    encode_compact_run(&joined.first, to)?;
    encode_compact_run(&joined.second, to)
}

fn encode_compact_sections(joined: &CompactJoined, to: &mut Bytes) -> Result<(), AllocError>
    ensures bytes { OnOk result (to.new ≡ to.old ++ compact_sections joined.now) }
    ensures typed { OnOk result (AllByRecursion TypedCommonTable joined.now.tables) }
{
    encode_list(Width::Four, &joined.files, to)?;
    encode_list(Width::Two, &joined.tables, to)?;
    encode_both_compact(joined, to)
}

/// Appends all bytes, between its magic and its digest, of a joined package whose traces are kept as runs. If
/// the runs are those of their events, the bytes are those of the joined package with its events.
pub fn encode_compact_joined(joined: &CompactJoined, to: &mut Bytes) -> Result<(), AllocError>
    ensures bytes { OnOk result (to.new ≡ to.old ++ compact_sections joined.now) }
    ensures typed { OnOk result (AllByRecursion TypedCommonTable joined.now.tables) }
    ensures whole { IsCut joined.now.first.runs → IsCut joined.now.second.runs →
        OnOk result (to.new ≡ to.old ++ joined_sections (whole_join joined.now)) }
{
    encode_compact_sections(joined, to)
}
