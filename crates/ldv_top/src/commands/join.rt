//! `join`: from two packages to their joined package. No list of their events is made.

ghost use Rattle.std.specs.Prelude.{◌≡◌, ◌≤◌, length, map, string_bytes, IfOk, IfSome, Ok};
ghost use Rattle.std.specs.Option.{option_map};
ghost use Rattle.ldv_value.specs.Limits.{input_limit};
ghost use Rattle.joined_data.specs.Joined.{joined_of};
ghost use Rattle.package_join.specs.Layout.{joined_spelling};
ghost use Rattle.joined_data.specs.CompactJoins.{whole_join};
ghost use Rattle.package_codec.specs.CompactPackages.{expanded_package};
ghost use Rattle.package_codec.specs.Runs.{IsCut};
ghost use Rattle.package_layout.specs.Valid.{reading};
ghost use Rattle.run_model.specs.declared.package.Mode.TheVariants.{Included};
ghost use Rattle.ldv_top.specs.Due.{response_due, due_spelling};
ghost use Rattle.ldv_top.specs.DueOfJoins.{PairReadsAs, both_read, due_join, due_join_bytes, joined_packages};
ghost use Rattle.ldv_top.specs.DueOfJoins.{pair_in, pair_reading};
ghost use Rattle.ldv_top.specs.Words.{IsBounded};
ghost use Rattle.ldv_top.specs.WordsOfJoins.{join_of};

use crate::command::Command;
use crate::response::Response;
use joined_data::{CompactJoined, JoinStop};
use ldv_value::Bytes;
use package_codec::{CompactPackage, Cursor};
use package_join::{join_compact, spell_compact_joined};
use package_layout::{DamageKind, PackageStop, SpellStop, read_compact};
use run_model::Mode;
use std::alloc::{AllocError, Global};

/// The command of the words after `join`.
pub(crate) fn join_of(words: &[String]) -> Option<Command>
    ensures command { result ≡ join_of (map string_bytes words.now) }
    ensures bounded { IfSome result (λ command. IsBounded command) }
{
    match words {
        [] => Some(Command::Join),
        _ => None,
    }
}

// Both packages, where the input is made of them and their lengths.
#[tactic(auto, using(crate::proofs::JoinResponses::pairs))]
fn pair_in<'a>(input: &'a [u8]) -> Option<(&'a [u8], &'a [u8])>
    ensures { option_map (λ pair. (pair.0.now, pair.1.now)) result ≡ pair_in input.now }
{
    let mut cursor = Cursor::of(input);
    let first = cursor.next_with_length()?;
    let second = cursor.next_with_length()?;
    if cursor.is_empty() {
        Some((first, second))
    } else {
        None
    }
}

/// The response of `join` to an input. The input isn't kept while the packages are joined.
pub(crate) fn join_response(alloc: Global, input: Bytes) -> Result<Response, AllocError>
    requires short { length input ≤ input_limit }
    ensures { IfOk result (λ response. response_due response ≡ due_join input) }
{
    match read_pair(alloc, input) {
        Ok((a, b)) => packages_response(alloc, a, b),
        Err(PackageStop::Damaged(kind)) => Ok(Response::Damaged(kind)),
        Err(PackageStop::NoMemory) => Err(AllocError),
    }
}

// Both packages that the input is made of. The call drops it.
fn read_pair(alloc: Global, input: Bytes) -> Result<(CompactPackage, CompactPackage), PackageStop>
    ensures due { PairReadsAs result (pair_reading (pair_in input)) }
    ensures first_cut { IfOk result (λ pair. IsCut pair.0.runs) }
    ensures second_cut { IfOk result (λ pair. IsCut pair.1.runs) }
{
    match pair_in(input.as_slice()) {
        Some((first, second)) => read_both(alloc, first, second),
        None => Err(PackageStop::Damaged(DamageKind::Form)),
    }
}

fn read_both(
    alloc: Global,
    first: &[u8],
    second: &[u8],
) -> Result<(CompactPackage, CompactPackage), PackageStop>
    ensures due { PairReadsAs result (both_read (reading first.now) (reading second.now)) }
    ensures first_cut { IfOk result (λ pair. IsCut pair.0.runs) }
    ensures second_cut { IfOk result (λ pair. IsCut pair.1.runs) }
{
    match read_compact(alloc, first) {
        Ok(a) => read_second(alloc, a, second),
        Err(PackageStop::Damaged(kind)) => Err(PackageStop::Damaged(kind)),
        Err(PackageStop::NoMemory) => Err(PackageStop::NoMemory),
    }
}

fn read_second(
    alloc: Global,
    a: CompactPackage,
    second: &[u8],
) -> Result<(CompactPackage, CompactPackage), PackageStop>
    requires { IsCut a.runs }
    ensures due { PairReadsAs result (both_read (Ok (expanded_package a)) (reading second.now)) }
    ensures first_cut { IfOk result (λ pair. IsCut pair.0.runs) }
    ensures second_cut { IfOk result (λ pair. IsCut pair.1.runs) }
{
    match read_compact(alloc, second) {
        Ok(b) => Ok((a, b)),
        Err(PackageStop::Damaged(kind)) => Err(PackageStop::Damaged(kind)),
        Err(PackageStop::NoMemory) => Err(PackageStop::NoMemory),
    }
}

// Both have to have the needed rows.
fn packages_response(
    alloc: Global,
    a: CompactPackage,
    b: CompactPackage,
) -> Result<Response, AllocError>
    requires first { IsCut a.runs }
    requires second { IsCut b.runs }
    ensures { IfOk result (λ response. response_due response
        ≡ joined_packages (expanded_package a) (expanded_package b)) }
{
    match a.bare.mode {
        Mode::Included => match b.bare.mode {
            Mode::Included => joined_response(alloc, a, b),
            Mode::Excluded => Ok(Response::NoSuch),
        },
        Mode::Excluded => Ok(Response::NoSuch),
    }
}

fn joined_response(
    alloc: Global,
    a: CompactPackage,
    b: CompactPackage,
) -> Result<Response, AllocError>
    requires first { IsCut a.runs }
    requires second { IsCut b.runs }
    ensures { IfOk result (λ response. response_due response
        ≡ due_join_bytes (joined_of (expanded_package a) (expanded_package b))) }
{
    match join_compact(alloc, a, b) {
        Ok(joined) => spelled_response(alloc, &joined),
        Err(JoinStop::Clash(clash)) => Ok(Response::Clash(clash)),
        Err(JoinStop::NoMemory) => Err(AllocError),
    }
}

#[tactic(auto, using(crate::proofs::RecordLaws::spelling_ends))]
fn spelled_response(alloc: Global, joined: &CompactJoined) -> Result<Response, AllocError>
    requires first { IsCut joined.now.first.runs }
    requires second { IsCut joined.now.second.runs }
    ensures { IfOk result (λ response. response_due response
        ≡ due_spelling (joined_spelling (whole_join joined.now))) }
{
    match spell_compact_joined(alloc, joined) {
        Ok(bytes) => Ok(Response::Written(bytes)),
        Err(SpellStop::TooLong) => Ok(Response::PackageTooLong),
        Err(SpellStop::NoMemory) => Err(AllocError),
    }
}
