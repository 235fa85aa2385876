//! The versions of the rows of one block.

ghost use Rattle.std.specs.Prelude.{◌≡◌, ◌==◌, ◌++◌, ◌+◌, ◌^◌, ◌<◌, ◌≤◌, ℕ, length, get_or, replicate, cond, IfOk, OnOk};
ghost use Rattle.lineage.specs.inner.Blocks.{version_of, HasPlace};

use ldv_value::List;
use std::alloc::{AllocError, Global};

/// The versions of rows from `first` on, four bytes each. All other rows have version 0.
#[derive(Drop)]
pub(crate) struct Versions {
    pub(crate) first: u32,
    pub(crate) numbers: List<u32>,
}

/// The version of a row of the block.
pub(crate) fn version_at(versions: &Versions, n: usize) -> u32
    ensures { result ≡ version_of versions.now n }
{
    let first = versions.first as usize;
    if n < first {
        return 0;
    }
    number_at(&versions.numbers, n - first)
}

// The number at a place; 0 past the end.
fn number_at(numbers: &List<u32>, place: usize) -> u32
    ensures { result ≡ get_or numbers.now place 0 }
{
    if place >= numbers.len() {
        return 0;
    }
    numbers.items()[place]
}

// Begins at a row, where no version is noted.
fn begin(versions: &mut Versions, n: usize)
    requires { n < 2 ^ 32 }
    ensures same { (m : ℕ) → version_of versions.new m ≡ version_of versions.old m }
    ensures stays { (m : ℕ) → HasPlace versions.old m → HasPlace versions.new m }
{
    if versions.numbers.is_empty() {
        versions.first = n as u32;
    }
}

// `count` zeros, and then some numbers.
fn after_zeros(alloc: Global, count: usize, numbers: &List<u32>) -> Result<List<u32>, AllocError>
    ensures { IfOk result (λ made. made ≡ replicate count 0 ++ numbers.now) }
{
    let mut made = vec![in alloc; 0; count]?;
    made.extend_from_slice(numbers.items())?;
    Ok(List::of_vec(made))
}

// Makes room for the versions of all rows below the first that is noted.
#[tactic(auto, using(crate::proofs::VersionLaws::lowered))]
fn make_room_below(alloc: Global, versions: &mut Versions) -> Result<(), AllocError>
    ensures same { (m : ℕ) → version_of versions.new m ≡ version_of versions.old m }
    ensures stays { (m : ℕ) → HasPlace versions.old m → HasPlace versions.new m }
    ensures low { OnOk result (versions.new.first ≡ 0) }
{
    versions.numbers = after_zeros(alloc, versions.first as usize, &versions.numbers)?;
    versions.first = 0;
    Ok(())
}

/// Reserves memory for the versions of the rows from `first` up to `end`. No version changes, also on
/// `AllocError`.
pub(crate) fn grow(versions: &mut Versions, end: usize) -> Result<(), AllocError>
    requires { versions.old.first ≤ end }
    ensures same { (m : ℕ) → version_of versions.new m ≡ version_of versions.old m }
    ensures stays { (m : ℕ) → HasPlace versions.old m → HasPlace versions.new m }
    ensures first { versions.new.first ≡ versions.old.first }
    ensures end { OnOk result (end ≤ versions.new.first + length versions.new.numbers) }
{
    let count = end - versions.first as usize;
    while versions.numbers.len() < count {
        versions.numbers.push(0)?;
    }
    Ok(())
}

// Makes room down to a row.
fn reach_down(alloc: Global, versions: &mut Versions, n: usize) -> Result<(), AllocError>
    ensures same { (m : ℕ) → version_of versions.new m ≡ version_of versions.old m }
    ensures stays { (m : ℕ) → HasPlace versions.old m → HasPlace versions.new m }
    ensures low { OnOk result (versions.new.first ≤ n) }
{
    if versions.first as usize <= n {
        return Ok(());
    }
    make_room_below(alloc, versions)
}

// Makes room down to a row, and begins at it where no version is noted.
fn reach(alloc: Global, versions: &mut Versions, n: usize) -> Result<(), AllocError>
    requires { n < 2 ^ 32 }
    ensures same { (m : ℕ) → version_of versions.new m ≡ version_of versions.old m }
    ensures stays { (m : ℕ) → HasPlace versions.old m → HasPlace versions.new m }
    ensures low { OnOk result (versions.new.first ≤ n) }
{
    begin(versions, n);
    reach_down(alloc, versions, n)
}

/// Reserves memory for the versions of the rows from `from` up to `end`. No version changes, also on
/// `AllocError`.
pub(crate) fn make_places(
    alloc: Global,
    versions: &mut Versions,
    from: usize,
    end: usize,
) -> Result<(), AllocError>
    requires within { from < 2 ^ 32 }
    requires onward { from ≤ end }
    ensures same { (m : ℕ) → version_of versions.new m ≡ version_of versions.old m }
    ensures stays { (m : ℕ) → HasPlace versions.old m → HasPlace versions.new m }
    ensures places { OnOk result ((m : ℕ) → from ≤ m → m < end → HasPlace versions.new m) }
{
    match reach(alloc, versions, from) {
        Ok(()) => grow(versions, end),
        Err(stop) => Err(stop),
    }
}

/// Stores the version of a row.
#[tactic(auto, using(crate::proofs::VersionLaws::noted))]
pub(crate) fn set_version(versions: &mut Versions, n: usize, version: u32)
    requires { HasPlace versions.old n }
    ensures same { (m : ℕ) → version_of versions.new m
        ≡ cond (m == n) version (version_of versions.old m) }
    ensures stays { (m : ℕ) → HasPlace versions.old m → HasPlace versions.new m }
{
    versions
        .numbers
        .replace(n - versions.first as usize, version);
}
