//! From packages to bytes.

ghost use Rattle.std.specs.Prelude.{◌≡◌, ◌<◌, ◌≤◌, ◌-◌, ◌++◌, IfOk, OnOk, IsErrOf, IsTrue, length};
ghost use Rattle.sha2.specs.Sha256.{sha256};
ghost use Rattle.ldv_value.specs.Limits.{input_limit};
ghost use Rattle.package_codec.specs.CompactPackages.{expanded_package};
ghost use Rattle.package_codec.specs.Plain.{fits_version};
ghost use Rattle.package_codec.specs.Runs.{IsCut};
ghost use Rattle.package_codec.specs.declared.version.Version.TheVariants.{Two};
ghost use Rattle.package_layout.specs.Whole.{body, spelling, spelling_as, IsTyped};

use crate::digest::{DIGEST_LENGTH, with_digest};
use crate::layout::SpellStop;
use crate::sections::{encode_compact_sections, encode_sections};
use ldv_value::{Bytes, INPUT_LIMIT};
use package_codec::{CompactPackage, Version, magic};
use run_model::Package;
use std::alloc::{AllocError, Global};

/// The one spelling of a package in the second version. `TooLong` if and only if it has more than 67,108,864
/// bytes, its digest counted; `NoMemory` may come in place of either answer.
pub fn spell(alloc: Global, package: &Package) -> Result<Bytes, SpellStop>
    ensures bytes { IfOk result (λ bytes. bytes ≡ spelling «package».now) }
    ensures within { IfOk result (λ bytes. length bytes ≤ input_limit) }
    ensures too_long { IsErrOf result SpellStop.TooLong → input_limit < length (spelling «package».now) }
    // What every package in memory meets, and a law over all packages asks for.
    ensures typed { OnOk result (IsTyped «package».now) }
{
    spell_as(alloc, package, Version::Two)
}

/// The one spelling of a package in a version. The version must be able to write the package: `fits_version`
/// tests it, and the second version always is. `TooLong` if and only if the spelling has more than 67,108,864
/// bytes, its digest counted; `NoMemory` may come in place of either answer.
pub fn spell_as(alloc: Global, package: &Package, version: Version) -> Result<Bytes, SpellStop>
    requires fits { IsTrue (fits_version version «package».now) }
    ensures bytes { IfOk result (λ bytes. bytes ≡ spelling_as version «package».now) }
    ensures within { IfOk result (λ bytes. length bytes ≤ input_limit) }
    ensures too_long { IsErrOf result SpellStop.TooLong →
        input_limit < length (spelling_as version «package».now) }
    // What every package in memory meets, and a law over all packages asks for.
    ensures typed { OnOk result (IsTyped «package».now) }
{
    let body = body_of(alloc, package, version)?;
    append_digest(body)
}

/// The spelling of a package whose trace is kept as runs, in the second version. No list of events is made.
/// `TooLong` if and only if it has more than 67,108,864 bytes, its digest counted; `NoMemory` may come in
/// place of either answer.
pub fn spell_compact(alloc: Global, package: &CompactPackage) -> Result<Bytes, SpellStop>
    requires { IsCut «package».now.runs }
    ensures bytes { IfOk result (λ bytes. bytes ≡ spelling (expanded_package «package».now)) }
    ensures within { IfOk result (λ bytes. length bytes ≤ input_limit) }
    ensures too_long { IsErrOf result SpellStop.TooLong →
        input_limit < length (spelling (expanded_package «package».now)) }
{
    let body = body_of_compact(alloc, package)?;
    append_digest(body)
}

fn body_of(alloc: Global, package: &Package, version: Version) -> Result<Bytes, AllocError>
    ensures bytes { IfOk result (λ bytes. bytes ≡ body version «package».now) }
    ensures typed { OnOk result (IsTyped «package».now) }
{
    let mut bytes = Bytes::of_slice(alloc, magic(version))?;
    encode_sections(package, version, &mut bytes)?;
    Ok(bytes)
}

fn body_of_compact(alloc: Global, package: &CompactPackage) -> Result<Bytes, AllocError>
    requires { IsCut «package».now.runs }
    ensures { IfOk result (λ bytes. bytes ≡ body Two (expanded_package «package».now)) }
{
    let mut bytes = Bytes::of_slice(alloc, magic(Version::Two))?;
    encode_compact_sections(package, &mut bytes)?;
    Ok(bytes)
}

/// The bytes, followed by their digest. `TooLong` if and only if both have more than 67,108,864 bytes;
/// `NoMemory` may come in place of either answer.
pub fn append_digest(body: Bytes) -> Result<Bytes, SpellStop>
    ensures bytes { IfOk result (λ bytes. bytes ≡ body ++ sha256 body) }
    ensures within { IfOk result (λ bytes. length bytes ≤ input_limit) }
    ensures too_long { IsErrOf result SpellStop.TooLong → input_limit < length (body ++ sha256 body) }
{
    if body.len() > INPUT_LIMIT - DIGEST_LENGTH {
        return Err(SpellStop::TooLong);
    }
    Ok(with_digest(body)?)
}
