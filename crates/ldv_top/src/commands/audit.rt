//! `audit`: from a package to its verdict.

ghost use Rattle.std.specs.Prelude.{◌≡◌, ◌≤◌, Some, length, IfOk, IsSome};
ghost use Rattle.ldv_value.specs.Limits.{input_limit, max_steps};
ghost use Rattle.package_layout.specs.StartScript.{StartsWith};
ghost use Rattle.package_codec.specs.Version.{version_of};
ghost use Rattle.run_model.specs.Package.{own_world};
ghost use Rattle.run_model.specs.Start.{IsParsed, start_script};
ghost use Rattle.replay_db.specs.Auditing.{HasTables};
ghost use Rattle.replay_db.specs.Runs.{CanRun};
ghost use Rattle.replay_db.specs.declared.soundness.Verdict.TheVariants.{Unsound};
ghost use Rattle.ldv_top.specs.Due.{response_due};
ghost use Rattle.ldv_top.specs.DueOfAudits.{audited_package, audited_world, due_audit, verdict_text};

use crate::response::Response;
use ldv_value::{Bytes, append_number};
use package_codec::{CompactPackage, ParsedPackage};
use package_layout::{PackageStop, read_parsed};
use replay_db::{AuditStop, Verdict, audit_parsed, own_parsed_world, package_law};
use run_model::{Mode, Package, ParsedWorld};
use script_parse::Script;
use std::alloc::{AllocError, Global};

/// The response of `audit` to an input. The trace is only compared byte by byte, and no list of its events is
/// made.
pub(crate) fn audit_response(
    alloc: Global,
    budget: u32,
    input: &Bytes,
) -> Result<Response, AllocError>
    requires short { length input.now ≤ input_limit }
    requires bounded { budget ≤ max_steps }
    ensures { IfOk result (λ response. response_due response ≡ due_audit budget input.now) }
{
    bytes_response(alloc, budget, input.as_slice())
}

fn bytes_response(alloc: Global, budget: u32, input: &[u8]) -> Result<Response, AllocError>
    requires short { length input.now ≤ input_limit }
    requires bounded { budget ≤ max_steps }
    ensures { IfOk result (λ response. response_due response ≡ due_audit budget input.now) }
{
    package_law();
    match read_parsed(alloc, input) {
        Ok(parsed) => audited_response(alloc, budget, input, parsed),
        Err(PackageStop::Damaged(kind)) => Ok(Response::Damaged(kind)),
        Err(PackageStop::NoMemory) => Err(AllocError),
    }
}

fn audited_response(
    alloc: Global,
    budget: u32,
    input: &[u8],
    parsed: ParsedPackage,
) -> Result<Response, AllocError>
    requires can_run { CanRun (own_world parsed.cut.bare) }
    requires parsed { StartsWith parsed }
    requires bounded { budget ≤ max_steps }
    requires versioned { IsSome (version_of input.now) }
    requires fits { HasTables input.now (own_world parsed.cut.bare) }
    ensures { IfOk result (λ response. response_due response
        ≡ audited_package budget input.now parsed.cut.bare) }
{
    let ParsedPackage { cut, script } = parsed;
    let CompactPackage { bare, runs: _ } = cut;
    match bare.mode {
        Mode::Excluded => Ok(Response::NoSuch),
        Mode::Included => included_response(alloc, budget, input, bare, script),
    }
}

fn included_response(
    alloc: Global,
    budget: u32,
    input: &[u8],
    package: Package,
    script: Script,
) -> Result<Response, AllocError>
    requires can_run { CanRun (own_world «package») }
    requires parsed { start_script (own_world «package») ≡ Some script.instructions }
    requires bounded { budget ≤ max_steps }
    requires versioned { IsSome (version_of input.now) }
    requires fits { HasTables input.now (own_world «package») }
    ensures { IfOk result (λ response. response_due response
        ≡ audited_world budget input.now (own_world «package»)) }
{
    let own = own_parsed_world(alloc, package, script)?;
    world_response(alloc, budget, input, &own)
}

#[tactic(auto, using(crate::proofs::AuditResponses::audit_done))]
fn world_response(
    alloc: Global,
    budget: u32,
    input: &[u8],
    own: &ParsedWorld,
) -> Result<Response, AllocError>
    requires can_run { CanRun own.now.world }
    requires parsed { IsParsed own.now }
    requires bounded { budget ≤ max_steps }
    requires versioned { IsSome (version_of input.now) }
    requires fits { HasTables input.now own.now.world }
    ensures { IfOk result (λ response. response_due response
        ≡ audited_world budget input.now own.now.world) }
{
    match audit_parsed(alloc, own, input, budget) {
        Ok(verdict) => Ok(Response::Written(verdict_text(alloc, verdict)?)),
        Err(AuditStop::NotEnded) => Ok(Response::NotEnded(budget)),
        Err(AuditStop::TooLong) => Ok(Response::PackageTooLong),
        Err(AuditStop::NoMemory) => Err(AllocError),
    }
}

fn verdict_text(alloc: Global, verdict: Verdict) -> Result<Bytes, AllocError>
    ensures { IfOk result (λ text. text ≡ verdict_text verdict) }
{
    match verdict {
        Verdict::Sound => Bytes::of_slice(alloc, b"sound\n"),
        Verdict::Unsound { at } => unsound_text(alloc, at),
    }
}

fn unsound_text(alloc: Global, at: u64) -> Result<Bytes, AllocError>
    ensures { IfOk result (λ text. text ≡ verdict_text (Unsound at)) }
{
    let mut text = Bytes::new(alloc);
    text.extend(b"unsound ")?;
    append_number(at, &mut text)?;
    text.extend(b"\n")?;
    Ok(text)
}
