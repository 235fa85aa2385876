//! From bytes to joined packages.

ghost use Rattle.std.specs.Prelude.{◌≡◌, ◌↔◌, [], true, false, Err, IfOk, IfSome};
ghost use Rattle.std.specs.List.{AllByRecursion};
ghost use Rattle.package_codec.specs.Runs.{are_runs};
ghost use Rattle.package_layout.specs.Valid.{HasDigest, has_digest};
ghost use Rattle.joined_data.specs.Rooms.{TypedCommonTable};
ghost use Rattle.package_join.specs.CompactValid.{CompactJoinedReadsAs, JoinedReadsAs};
ghost use Rattle.joined_data.specs.CompactJoins.{whole_join, whole_run};
ghost use Rattle.package_join.specs.ParsedJoins.{StartRuns, cut_of};
ghost use Rattle.package_join.specs.Valid.{IsJoinedRead, IsNoJoined, digested_reading};
ghost use Rattle.package_join.specs.Valid.{has_joined_magic, joined_damage_before, joined_reading};

use crate::judging::parsed_joined_in;
use crate::spelling::joined_magic;
use joined_data::{CompactJoined, CompactRun, Joined, JoinedRun, ParsedJoined};
use package_codec::{DecodeStop, events_in, first_eight};
use package_layout::{DamageKind, PackageStop, has_digest, middle};
use std::alloc::{AllocError, Global};

/// The valid joined package that bytes spell. If there is none they are `Damaged`: by `Magic` if they begin
/// with another magic, else by `Digest` if they are too short for a digest or end with another one, else by
/// `Form`. `NoMemory` may come in place of any answer.
///
/// The lists of its events are made last, after all tests. They may be far larger than the bytes: if no
/// events are needed, take `read_parsed_joined`.
pub fn read_joined(alloc: Global, bytes: &[u8]) -> Result<Joined, PackageStop>
    ensures found { IfOk result (IsJoinedRead bytes.now) }
    ensures magic { (result ≡ Err (PackageStop.Damaged DamageKind.Magic))
        ↔ (has_joined_magic bytes.now ≡ false) }
    ensures digest { (result ≡ Err (PackageStop.Damaged DamageKind.Digest))
        ↔ ((has_joined_magic bytes.now ≡ true) × (¬ HasDigest bytes.now)) }
    ensures form { result ≡ Err (PackageStop.Damaged DamageKind.Form) →
        HasDigest bytes.now × IsNoJoined bytes.now }
    // The same as one function of the bytes.
    ensures reading { JoinedReadsAs result (joined_reading bytes.now) }
{
    answer(alloc, bytes)
}

/// The same joined package, with its traces kept as runs and with the first scripts of its runs. The memory
/// grows with the bytes, and never with the number of events. The errors are those of `read_joined`.
pub fn read_parsed_joined(alloc: Global, bytes: &[u8]) -> Result<ParsedJoined, PackageStop>
    ensures found { IfOk result (λ p. IsJoinedRead bytes.now (whole_join p.cut)) }
    // The numbers of its tables are those of their types.
    ensures typed { IfOk result (λ p. AllByRecursion TypedCommonTable p.cut.tables) }
    // No events stand beside the runs.
    ensures bare { IfOk result (λ p.
        (p.cut.first.bare.events ≡ []) × (p.cut.second.bare.events ≡ [])) }
    ensures first { IfOk result (λ p. are_runs p.cut.first.runs ≡ true) }
    ensures second { IfOk result (λ p. are_runs p.cut.second.runs ≡ true) }
    ensures parsed { IfOk result StartRuns }
    ensures magic { (result ≡ Err (PackageStop.Damaged DamageKind.Magic))
        ↔ (has_joined_magic bytes.now ≡ false) }
    ensures digest { (result ≡ Err (PackageStop.Damaged DamageKind.Digest))
        ↔ ((has_joined_magic bytes.now ≡ true) × (¬ HasDigest bytes.now)) }
    ensures form { result ≡ Err (PackageStop.Damaged DamageKind.Form) →
        HasDigest bytes.now × IsNoJoined bytes.now }
    ensures reading { CompactJoinedReadsAs (cut_of result) (joined_reading bytes.now) }
{
    parsed_answer(alloc, bytes)
}

fn answer(alloc: Global, bytes: &[u8]) -> Result<Joined, PackageStop>
    ensures due { JoinedReadsAs result (joined_reading bytes.now) }
    ensures at_once { IfSome (joined_damage_before bytes.now)
        (λ kind. result ≡ Err (PackageStop.Damaged kind)) }
{
    match parsed_answer(alloc, bytes) {
        Ok(parsed) => {
            let ParsedJoined {
                cut,
                first: _,
                second: _,
            } = parsed;
            whole_answer(alloc, cut)
        }
        Err(stop) => Err(stop),
    }
}

fn whole_answer(alloc: Global, joined: CompactJoined) -> Result<Joined, PackageStop>
    requires first { are_runs joined.first.runs ≡ true }
    requires second { are_runs joined.second.runs ≡ true }
    ensures ok { IfOk result (λ j. j ≡ whole_join joined) }
    ensures err { (stop : PackageStop) → result ≡ Err stop → stop ≡ PackageStop.NoMemory }
{
    match whole_join(alloc, joined) {
        Ok(joined) => Ok(joined),
        Err(_) => Err(PackageStop::NoMemory),
    }
}

fn whole_join(alloc: Global, joined: CompactJoined) -> Result<Joined, AllocError>
    requires first { are_runs joined.first.runs ≡ true }
    requires second { are_runs joined.second.runs ≡ true }
    ensures { IfOk result (λ j. j ≡ whole_join joined) }
{
    let CompactJoined {
        files,
        tables,
        first,
        second,
    } = joined;
    Ok(Joined {
        files,
        tables,
        first: whole_run(alloc, first)?,
        second: whole_run(alloc, second)?,
    })
}

#[tactic(auto, using(package_codec::proofs::Runs::are_all_runs))]
fn whole_run(alloc: Global, run: CompactRun) -> Result<JoinedRun, AllocError>
    requires { are_runs run.runs ≡ true }
    ensures { IfOk result (λ made. made ≡ whole_run run) }
{
    let CompactRun { bare, runs } = run;
    let mut whole = bare;
    whole.events = events_in(alloc, runs)?;
    Ok(whole)
}

fn parsed_answer(alloc: Global, bytes: &[u8]) -> Result<ParsedJoined, PackageStop>
    ensures due { CompactJoinedReadsAs (cut_of result) (joined_reading bytes.now) }
    ensures at_once { IfSome (joined_damage_before bytes.now)
        (λ kind. cut_of result ≡ Err (PackageStop.Damaged kind)) }
    ensures first { IfOk result (λ p. are_runs p.cut.first.runs ≡ true) }
    ensures second { IfOk result (λ p. are_runs p.cut.second.runs ≡ true) }
    ensures typed { IfOk result (λ p. AllByRecursion TypedCommonTable p.cut.tables) }
    ensures bare { IfOk result (λ p.
        (p.cut.first.bare.events ≡ []) × (p.cut.second.bare.events ≡ [])) }
    ensures parsed { IfOk result StartRuns }
{
    if has_joined_magic(bytes) {
        digested_answer(alloc, bytes)
    } else {
        Err(PackageStop::Damaged(DamageKind::Magic))
    }
}

fn has_joined_magic(bytes: &[u8]) -> bool
    ensures { result ≡ has_joined_magic bytes.now }
{
    first_eight(bytes) == joined_magic()
}

fn digested_answer(alloc: Global, bytes: &[u8]) -> Result<ParsedJoined, PackageStop>
    ensures due { CompactJoinedReadsAs (cut_of result) (digested_reading bytes.now) }
    ensures at_once { has_digest bytes.now ≡ false
        → cut_of result ≡ Err (PackageStop.Damaged DamageKind.Digest) }
    ensures first { IfOk result (λ p. are_runs p.cut.first.runs ≡ true) }
    ensures second { IfOk result (λ p. are_runs p.cut.second.runs ≡ true) }
    ensures typed { IfOk result (λ p. AllByRecursion TypedCommonTable p.cut.tables) }
    ensures bare { IfOk result (λ p.
        (p.cut.first.bare.events ≡ []) × (p.cut.second.bare.events ≡ [])) }
    ensures parsed { IfOk result StartRuns }
{
    if has_digest(bytes) {
        middle_answer(alloc, bytes)
    } else {
        Err(PackageStop::Damaged(DamageKind::Digest))
    }
}

fn middle_answer(alloc: Global, bytes: &[u8]) -> Result<ParsedJoined, PackageStop>
    requires { has_digest bytes.now ≡ true }
    ensures due { CompactJoinedReadsAs (cut_of result) (digested_reading bytes.now) }
    ensures first { IfOk result (λ p. are_runs p.cut.first.runs ≡ true) }
    ensures second { IfOk result (λ p. are_runs p.cut.second.runs ≡ true) }
    ensures typed { IfOk result (λ p. AllByRecursion TypedCommonTable p.cut.tables) }
    ensures bare { IfOk result (λ p.
        (p.cut.first.bare.events ≡ []) × (p.cut.second.bare.events ≡ [])) }
    ensures parsed { IfOk result StartRuns }
{
    match parsed_joined_in(alloc, middle(bytes)) {
        Ok(joined) => Ok(joined),
        Err(DecodeStop::Malformed) => Err(PackageStop::Damaged(DamageKind::Form)),
        Err(DecodeStop::NoMemory) => Err(PackageStop::NoMemory),
    }
}
