//! The audit of a package: whether it is the package of its own world's run.

ghost use Rattle.std.specs.Prelude.{◌≡◌, ◌≤◌, ◌+◌, Some, length, drop, nat_eq, IfOk, IsSome, IsTrue};
ghost use Rattle.std.specs.List.{common_prefix_len};
ghost use Rattle.ldv_value.specs.Limits.{max_steps};
ghost use Rattle.package_codec.specs.Version.{version_of};
ghost use Rattle.package_codec.specs.declared.version.Version.{Version};
ghost use Rattle.run_model.specs.Package.{own_world};
ghost use Rattle.run_model.specs.Start.{IsParsed};
ghost use Rattle.replay_db.specs.Auditing.{Audits, AuditsWorld, HasTables, verdict_on};
ghost use Rattle.replay_db.specs.Runs.{CanRun};
ghost use Rattle.value_laws.specs.Fitting.{fits_world};

use crate::error::EndStop;
use crate::own::parsed_copy;
use crate::record::record_parsed;
use package_codec::{Version, version_of};
use package_layout::{SpellStop, spell_as};
use run_model::{Mode, Package, ParsedWorld};
use std::alloc::{AllocError, Global};
use value_laws::fitting_law;

/// The verdict of an audit.
#[derive(Clone, Copy, Debug, PartialEq, Eq)]
pub enum Verdict {
    /// The bytes are those of the included package of the own world's run, in their own version.
    Sound,
    /// They aren't: the two differ first at this byte, from 0. If one is the start of the other, it is the
    /// length of the shorter one.
    Unsound { at: u64 },
}

/// Why there is no verdict.
#[derive(Clone, Copy, Debug, PartialEq, Eq)]
pub enum AuditStop {
    /// The run of the own world hasn't ended after the steps of the budget.
    NotEnded,
    /// The package of the own world has more than 67,108,864 bytes in that version.
    TooLong,
    /// Out of memory.
    NoMemory,
}

// How many bytes are the same from the front on.
fn common_length(bytes: &[u8], due: &[u8]) -> usize
    ensures { result ≡ common_prefix_len nat_eq bytes.now due.now }
{
    let mut at = 0;
    while at < bytes.len() && at < due.len() && bytes[at] == due[at] {
        at += 1;
    }
    at
}

// The verdict on bytes, where others are due.
fn verdict_on(bytes: &[u8], due: &[u8]) -> Verdict
    ensures { result ≡ verdict_on bytes.now due.now }
{
    if bytes == due {
        return Verdict::Sound;
    }
    Verdict::Unsound {
        at: common_length(bytes, due) as u64,
    }
}

/// Compares the bytes of an included package with those of the package of its own world's run, within a
/// budget of at most 10,000,000 steps. The version of the bytes must be able to write the package's tables,
/// and the package of that run is spelled in it. The recorded trace isn't looked at.
///
/// `NotEnded` comes if and only if that run hasn't ended after these steps, and `TooLong` if and only if it
/// has and its package has more than 67,108,864 bytes in that version. `NoMemory` may come in place of any
/// answer.
pub fn audit(
    alloc: Global,
    package: &Package,
    bytes: &[u8],
    budget: u32,
) -> Result<Verdict, AuditStop>
    requires can_run { CanRun (own_world «package».now) }
    requires bounded { budget ≤ max_steps }
    requires versioned { IsSome (version_of bytes.now) }
    requires fits { HasTables bytes.now (own_world «package».now) }
    ensures { (version : Version) → version_of bytes.now ≡ Some version
        → Audits budget version «package».now bytes.now result }
{
    match parsed_copy(alloc, package) {
        Ok(own) => audit_parsed(alloc, &own, bytes, budget),
        Err(AllocError) => Err(AuditStop::NoMemory),
    }
}

/// The same as `audit`, for the own world of the package with its first script parsed before.
pub fn audit_parsed(
    alloc: Global,
    own: &ParsedWorld,
    bytes: &[u8],
    budget: u32,
) -> Result<Verdict, AuditStop>
    requires can_run { CanRun own.now.world }
    requires parsed { IsParsed own.now }
    requires bounded { budget ≤ max_steps }
    requires versioned { IsSome (version_of bytes.now) }
    requires fits { HasTables bytes.now own.now.world }
    ensures { (version : Version) → version_of bytes.now ≡ Some version
        → AuditsWorld budget version own.now.world bytes.now result }
{
    match version_of(bytes) {
        Some(version) => audit_as(alloc, version, own, bytes, budget),
        None => unreachable!(),
    }
}

fn audit_as(
    alloc: Global,
    version: Version,
    own: &ParsedWorld,
    bytes: &[u8],
    budget: u32,
) -> Result<Verdict, AuditStop>
    requires can_run { CanRun own.now.world }
    requires parsed { IsParsed own.now }
    requires bounded { budget ≤ max_steps }
    requires fits { IsTrue (fits_world version own.now.world) }
    ensures { AuditsWorld budget version own.now.world bytes.now result }
{
    fitting_law();
    let package = match record_parsed(alloc, own, Mode::Included, budget) {
        Ok(package) => package,
        Err(EndStop::NotEnded) => return Err(AuditStop::NotEnded),
        Err(EndStop::NoMemory) => return Err(AuditStop::NoMemory),
    };
    match spell_as(alloc, &package, version) {
        Ok(due) => Ok(verdict_on(bytes, due.as_slice())),
        Err(SpellStop::TooLong) => Err(AuditStop::TooLong),
        Err(SpellStop::NoMemory) => Err(AuditStop::NoMemory),
    }
}
