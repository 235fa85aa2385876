//! From bytes to packages.

ghost use Rattle.std.specs.Prelude.{◌≡◌, ◌↔◌, [], true, false, Some, None, Ok, Err, IfOk, IfSome, IsSome};
ghost use Rattle.std.specs.Option.{option_map};
ghost use Rattle.package_layout.specs.ReadResult.{ReadsAs, CompactReadsAs, damage_before};
ghost use Rattle.package_codec.specs.CompactPackages.{expanded_package};
ghost use Rattle.package_layout.specs.CompactReading.{compact_in};
ghost use Rattle.package_codec.specs.Runs.{IsCut, are_runs};
ghost use Rattle.package_codec.specs.Fields.{Makes};
ghost use Rattle.package_layout.specs.StartScript.{StartsWith, cut_of, package_if, valid_script};
ghost use Rattle.package_layout.specs.Valid.{IsValidPackage, HasDigest, IsSpelled, IsUnspelled, has_digest};
ghost use Rattle.package_layout.specs.Valid.{reading, reading_as};
ghost use Rattle.package_codec.specs.Version.{version_of};
ghost use Rattle.package_layout.specs.Whole.{IsTyped};

use crate::damage::DamageKind;
use crate::digest::{has_digest, middle};
use crate::sections::decode_all;
use crate::validity::valid_script;
use package_codec::{
    CompactPackage, DecodeStop, ParsedPackage, Version, expanded_package, version_of,
};
use run_model::Package;
use script_parse::Script;
use std::alloc::{AllocError, Global};

/// Why a package has no bytes.
#[derive(Clone, Copy, Debug, PartialEq, Eq)]
pub enum SpellStop {
    /// Its spelling has more than 67,108,864 bytes.
    TooLong,
    /// Out of memory.
    NoMemory,
}

/// Why bytes aren't read as a package.
#[derive(Clone, Copy, Debug, PartialEq, Eq)]
pub enum PackageStop {
    /// They spell no valid package.
    Damaged(DamageKind),
    /// Out of memory.
    NoMemory,
}

impl From<AllocError> for SpellStop {
    ghost use Rattle.std.specs.Prelude.{◌≡◌};
    ghost use Rattle.package_layout.specs.declared.layout.SpellStop.TheVariants.{NoMemory};

    ghost from_gives = { λ _ stop. stop ≡ NoMemory };

    fn from(_error: AllocError) -> Self {
        SpellStop::NoMemory
    }
}

/// The valid package that bytes spell, in the version of their magic. If there is none they are `Damaged`: by
/// `Magic` if they begin with no version's magic, else by `Digest` if they are too short for a digest or end
/// with another one, else by `Form`. `NoMemory` may come in place of each.
///
/// The list of its events is made last, after all tests. It may be far larger than the bytes: if no events
/// are needed, take `read_compact`.
pub fn read_package(alloc: Global, bytes: &[u8]) -> Result<Package, PackageStop>
    ensures found { IfOk result (λ p. IsTyped p × IsValidPackage p × IsSpelled bytes.now p) }
    ensures magic { (result ≡ Err (PackageStop.Damaged DamageKind.Magic)) ↔ (version_of bytes.now ≡ None) }
    ensures digest { (result ≡ Err (PackageStop.Damaged DamageKind.Digest))
        ↔ (IsSome (version_of bytes.now) × (¬ HasDigest bytes.now)) }
    ensures form { result ≡ Err (PackageStop.Damaged DamageKind.Form) →
        HasDigest bytes.now × IsUnspelled bytes.now }
    // The same as one function of the bytes.
    ensures reading { ReadsAs result (reading bytes.now) }
{
    decode_package(alloc, bytes)
}

/// The same package, with its trace kept as runs. Its memory grows with the bytes, and never with the number
/// of events. Its errors are those of `read_package`.
pub fn read_compact(alloc: Global, bytes: &[u8]) -> Result<CompactPackage, PackageStop>
    ensures found { IfOk result (λ r. IsTyped (expanded_package r) × IsValidPackage (expanded_package r)
        × IsSpelled bytes.now (expanded_package r)) }
    ensures runs { IfOk result (λ r. are_runs r.runs ≡ true) }
    ensures cut { IfOk result (λ r. IsCut r.runs) }
    ensures bare { IfOk result (λ r. r.bare.events ≡ []) }
    ensures magic { (result ≡ Err (PackageStop.Damaged DamageKind.Magic)) ↔ (version_of bytes.now ≡ None) }
    ensures digest { (result ≡ Err (PackageStop.Damaged DamageKind.Digest))
        ↔ (IsSome (version_of bytes.now) × (¬ HasDigest bytes.now)) }
    ensures form { result ≡ Err (PackageStop.Damaged DamageKind.Form) →
        HasDigest bytes.now × IsUnspelled bytes.now }
    // The same as one function of the bytes.
    ensures reading { CompactReadsAs result (reading bytes.now) }
{
    compact_answer(alloc, bytes)
}

/// The package of `read_compact`, with its first script. `expanded_package` makes its events. Its errors are
/// those of `read_package`.
pub fn read_parsed(alloc: Global, bytes: &[u8]) -> Result<ParsedPackage, PackageStop>
    ensures found { IfOk result (λ p. IsTyped (expanded_package p.cut)
        × IsValidPackage (expanded_package p.cut) × IsSpelled bytes.now (expanded_package p.cut)) }
    ensures parsed { IfOk result StartsWith }
    ensures runs { IfOk result (λ p. are_runs p.cut.runs ≡ true) }
    ensures cut { IfOk result (λ p. IsCut p.cut.runs) }
    ensures bare { IfOk result (λ p. p.cut.bare.events ≡ []) }
    ensures magic { (result ≡ Err (PackageStop.Damaged DamageKind.Magic)) ↔ (version_of bytes.now ≡ None) }
    ensures digest { (result ≡ Err (PackageStop.Damaged DamageKind.Digest))
        ↔ (IsSome (version_of bytes.now) × (¬ HasDigest bytes.now)) }
    ensures form { result ≡ Err (PackageStop.Damaged DamageKind.Form) →
        HasDigest bytes.now × IsUnspelled bytes.now }
    ensures reading { CompactReadsAs (cut_of result) (reading bytes.now) }
{
    parsed_answer(alloc, bytes)
}

fn decode_package(alloc: Global, bytes: &[u8]) -> Result<Package, PackageStop>
    ensures due { ReadsAs result (reading bytes.now) }
    ensures at_once { IfSome (damage_before bytes.now) (λ kind. result ≡ Err (PackageStop.Damaged kind)) }
{
    match compact_answer(alloc, bytes) {
        Ok(package) => whole_answer(alloc, package),
        Err(stop) => Err(stop),
    }
}

fn whole_answer(alloc: Global, package: CompactPackage) -> Result<Package, PackageStop>
    requires { are_runs «package».runs ≡ true }
    ensures ok { IfOk result (λ p. p ≡ expanded_package «package») }
    ensures err { (stop : PackageStop) → result ≡ Err stop → stop ≡ PackageStop.NoMemory }
{
    match expanded_package(alloc, package) {
        Ok(package) => Ok(package),
        Err(_) => Err(PackageStop::NoMemory),
    }
}

fn compact_answer(alloc: Global, bytes: &[u8]) -> Result<CompactPackage, PackageStop>
    ensures due { CompactReadsAs result (reading bytes.now) }
    ensures at_once { IfSome (damage_before bytes.now) (λ kind. result ≡ Err (PackageStop.Damaged kind)) }
    ensures runs { IfOk result (λ r. are_runs r.runs ≡ true) }
    ensures bare { IfOk result (λ r. r.bare.events ≡ []) }
{
    match parsed_answer(alloc, bytes) {
        Ok(parsed) => {
            let ParsedPackage { cut, script: _ } = parsed;
            Ok(cut)
        }
        Err(stop) => Err(stop),
    }
}

fn parsed_answer(alloc: Global, bytes: &[u8]) -> Result<ParsedPackage, PackageStop>
    ensures due { CompactReadsAs (cut_of result) (reading bytes.now) }
    ensures at_once { IfSome (damage_before bytes.now)
        (λ kind. cut_of result ≡ Err (PackageStop.Damaged kind)) }
    ensures runs { IfOk result (λ p. are_runs p.cut.runs ≡ true) }
    ensures bare { IfOk result (λ p. p.cut.bare.events ≡ []) }
    ensures parsed { IfOk result StartsWith }
{
    match version_of(bytes) {
        Some(version) => answer_as(alloc, version, bytes),
        None => Err(PackageStop::Damaged(DamageKind::Magic)),
    }
}

fn answer_as(alloc: Global, version: Version, bytes: &[u8]) -> Result<ParsedPackage, PackageStop>
    ensures due { CompactReadsAs (cut_of result) (reading_as version bytes.now) }
    ensures at_once { has_digest bytes.now ≡ false
        → cut_of result ≡ Err (PackageStop.Damaged DamageKind.Digest) }
    ensures runs { IfOk result (λ p. are_runs p.cut.runs ≡ true) }
    ensures bare { IfOk result (λ p. p.cut.bare.events ≡ []) }
    ensures parsed { IfOk result StartsWith }
{
    if has_digest(bytes) {
        middle_answer(alloc, version, bytes)
    } else {
        Err(PackageStop::Damaged(DamageKind::Digest))
    }
}

fn middle_answer(
    alloc: Global,
    version: Version,
    bytes: &[u8],
) -> Result<ParsedPackage, PackageStop>
    requires { has_digest bytes.now ≡ true }
    ensures due { CompactReadsAs (cut_of result) (reading_as version bytes.now) }
    ensures runs { IfOk result (λ p. are_runs p.cut.runs ≡ true) }
    ensures bare { IfOk result (λ p. p.cut.bare.events ≡ []) }
    ensures parsed { IfOk result StartsWith }
{
    match parsed_in(alloc, version, middle(bytes)) {
        Ok(parsed) => Ok(parsed),
        Err(DecodeStop::Malformed) => Err(PackageStop::Damaged(DamageKind::Form)),
        Err(DecodeStop::NoMemory) => Err(PackageStop::NoMemory),
    }
}

// Nothing is expanded before all is judged: a few bytes can stand for 20,000,001 events.
fn parsed_in(alloc: Global, version: Version, middle: &[u8]) -> Result<ParsedPackage, DecodeStop>
    ensures made { Makes (cut_of result) (compact_in version middle.now) }
    ensures parsed { IfOk result StartsWith }
{
    match decode_all(alloc, version, middle) {
        Ok(package) => judged_package(alloc, version, package),
        Err(DecodeStop::Malformed) => Err(DecodeStop::Malformed),
        Err(DecodeStop::NoMemory) => Err(DecodeStop::NoMemory),
    }
}

fn judged_package(
    alloc: Global,
    version: Version,
    package: CompactPackage,
) -> Result<ParsedPackage, DecodeStop>
    ensures made { Makes (cut_of result) (package_if (valid_script version «package») «package») }
    ensures parsed { IfOk result StartsWith }
{
    let found = valid_script(alloc, version, &package)?;
    with_script(package, found)
}

fn with_script(package: CompactPackage, found: Option<Script>) -> Result<ParsedPackage, DecodeStop>
    ensures made { Makes (cut_of result) (package_if (option_map (λ s. s.instructions) found) «package») }
    ensures parts { IfOk result (λ p. (p.cut ≡ «package»)
        × (option_map (λ s. s.instructions) found ≡ Some p.script.instructions)) }
{
    match found {
        Some(script) => Ok(ParsedPackage {
            cut: package,
            script,
        }),
        None => Err(DecodeStop::Malformed),
    }
}
