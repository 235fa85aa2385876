//! Rows as bits: blocks of 1,024 words, each for 65,536 rows of one table.

ghost use Rattle.std.specs.Prelude.{◌≡◌, ◌==◌, ◌||◌, ◌&&◌, ◌/◌, ◌<◌, ℕ, length, not, false, cond};
ghost use Rattle.std.specs.Prelude.{OnOk, IfOk, MatchOption, true, ◌^◌};
ghost use Rattle.lanes.specs.Sets.{member};
ghost use Rattle.lineage.specs.inner.Blocks.{block_of, version_of, HasRoomIn, HasPlace, IsRoomier};

use crate::versions::{Versions, make_places, set_version};
use lanes::{next_one, or_into};
use ldv_value::List;
use std::alloc::{AllocError, Global};
use std::collections::BTreeMap;

/// A row: the place of its table among the names of all tables, and its number.
pub(crate) type Row = (u32, u32);

/// The rows of a table in one block, as bits, and their versions.
#[derive(Drop)]
pub(crate) struct Block {
    pub(crate) words: Vec<u64>,
    pub(crate) versions: Versions,
}

/// Blocks by the place of their table and by their number.
pub(crate) type Blocks = BTreeMap<(u32, u32), Block>;

/// The number of words of a block.
const BLOCK_WORDS: usize = 1024;

/// The table and the block of a row.
pub(crate) fn block_of(row: Row) -> (u32, u32)
    ensures { result ≡ block_of row }
{
    (row.0, row.1 / 65_536)
}

// Words without a member.
fn no_members(alloc: Global, count: usize) -> Result<Vec<u64>, AllocError>
    ensures long { IfOk result (λ words. length words.items ≡ count) }
    ensures none { IfOk result (λ words. (n : ℕ) → member words.items n ≡ false) }
{
    vec![in alloc; 0; count]
}

/// A block without rows.
pub(crate) fn no_rows(alloc: Global) -> Result<Block, AllocError>
    ensures long { IfOk result (λ block. length block.words.items ≡ 1024) }
    ensures words { IfOk result (λ block. (n : ℕ) → member block.words.items n ≡ false) }
    ensures versions { IfOk result (λ block. (n : ℕ) → version_of block.versions n ≡ 0) }
{
    Ok(Block {
        words: no_members(alloc, BLOCK_WORDS)?,
        versions: Versions {
            first: 0,
            numbers: List::new(alloc),
        },
    })
}

/// Whether a number is in a set.
pub(crate) fn has_bit(words: &[u64], number: usize) -> bool
    ensures { result ≡ member words.now number }
{
    let place = number / 64;
    if place >= words.len() {
        return false;
    }
    (words[place] >> (number % 64)) & 1 == 1
}

// Adds a number to a set.
fn set_bit(words: &mut [u64], number: usize)
    requires { number / 64 < length words.old }
    ensures bits { (n : ℕ) → member words.new n ≡ (n == number || member words.old n) }
    ensures long { length words.new ≡ length words.old }
{
    words[number / 64] |= 1 << (number % 64);
}

/// Reserves memory for the version of a row. Version 0 takes none.
#[tactic(auto, using(crate::proofs::BlockLaws::room_here))]
pub(crate) fn make_room(
    alloc: Global,
    block: &mut Block,
    n: usize,
    version: u32,
) -> Result<(), AllocError>
    requires { n < 65536 }
    ensures roomier { IsRoomier block.old block.new }
    ensures room { OnOk result (HasRoomIn block.new.versions n version) }
{
    if version == 0 {
        return Ok(());
    }
    make_places(alloc, &mut block.versions, n, n + 1)
}

/// Reserves memory for the versions of all rows of another block.
#[tactic(auto, using(crate::proofs::BlockLaws::room_like, crate::proofs::BlockLaws::room_of_none))]
pub(crate) fn make_room_like(
    alloc: Global,
    block: &mut Block,
    other: &Block,
) -> Result<(), AllocError>
    ensures roomier { IsRoomier block.old block.new }
    ensures room { OnOk result ((n : ℕ)
        → HasRoomIn block.new.versions n (version_of other.now.versions n)) }
{
    let from = other.versions.first as usize;
    let count = other.versions.numbers.items().len();
    if count == 0 {
        return Ok(());
    }
    make_places(alloc, &mut block.versions, from, from + count)
}

// Notes the version of a row for which none is noted, which stands for 0.
fn note(versions: &mut Versions, n: usize, version: u32)
    requires room { HasRoomIn versions.old n version }
    requires clear { version_of versions.old n ≡ 0 }
    ensures same { (m : ℕ) → version_of versions.new m
        ≡ cond (m == n) version (version_of versions.old m) }
    ensures stays { (m : ℕ) → HasPlace versions.old m → HasPlace versions.new m }
{
    if version > 0 {
        set_version(versions, n, version);
    }
}

/// Adds a row that isn't in the block.
pub(crate) fn put_in(block: &mut Block, n: usize, version: u32)
    requires long { length block.old.words.items ≡ 1024 }
    requires within { n < 65536 }
    requires room { HasRoomIn block.old.versions n version }
    requires clear { version_of block.old.versions n ≡ 0 }
    ensures words { (m : ℕ) → member block.new.words.items m
        ≡ (m == n || member block.old.words.items m) }
    ensures versions { (m : ℕ) → version_of block.new.versions m
        ≡ cond (m == n) version (version_of block.old.versions m) }
    ensures long { length block.new.words.items ≡ 1024 }
    ensures stays { (m : ℕ) → HasPlace block.old.versions m → HasPlace block.new.versions m }
{
    set_bit(&mut block.words, n);
    note(&mut block.versions, n, version);
}

// Notes the version of a row of another block, unless the row is here.
fn take_version(words: &[u64], versions: &mut Versions, n: usize, version: u32)
    requires room { HasRoomIn versions.old n version }
    requires clear { member words.now n ≡ false → version_of versions.old n ≡ 0 }
    ensures same { (m : ℕ) → version_of versions.new m
        ≡ cond (m == n && not (member words.now n)) version (version_of versions.old m) }
    ensures stays { (m : ℕ) → HasPlace versions.old m → HasPlace versions.new m }
{
    if !has_bit(words, n) {
        note(versions, n, version);
    }
}

// Notes the versions of the rows of another block that aren't here.
#[tactic(auto, using(crate::proofs::BlockLaws::taken_rules))]
fn take_versions(words: &[u64], versions: &mut Versions, others: &Versions)
    requires room { (n : ℕ) → HasRoomIn versions.old n (version_of others.now n) }
    requires clear { (n : ℕ) → member words.now n ≡ false → version_of versions.old n ≡ 0 }
    ensures same { (m : ℕ) → version_of versions.new m
        ≡ cond (member words.now m) (version_of versions.old m) (version_of others.now m) }
    ensures stays { (m : ℕ) → HasPlace versions.old m → HasPlace versions.new m }
{
    let first = others.first as usize;
    let numbers = others.numbers.items();
    for place in 0..numbers.len() {
        take_version(words, versions, first + place, numbers[place]);
    }
}

/// Adds the rows of another block. A row that is in both keeps the version that it has here.
pub(crate) fn unite_in(block: &mut Block, other: &Block)
    requires long { length block.old.words.items ≡ 1024 }
    requires also_long { length other.now.words.items ≡ 1024 }
    requires room { (n : ℕ) → HasRoomIn block.old.versions n (version_of other.now.versions n) }
    requires clear { (n : ℕ) → member block.old.words.items n ≡ false
        → version_of block.old.versions n ≡ 0 }
    ensures words { (n : ℕ) → member block.new.words.items n
        ≡ (member block.old.words.items n || member other.now.words.items n) }
    ensures versions { (n : ℕ) → version_of block.new.versions n
        ≡ cond (member block.old.words.items n) (version_of block.old.versions n)
        (version_of other.now.versions n) }
    ensures long { length block.new.words.items ≡ 1024 }
    ensures stays { (m : ℕ) → HasPlace block.old.versions m → HasPlace block.new.versions m }
{
    take_versions(&block.words, &mut block.versions, &other.versions);
    or_into(&mut block.words, &other.words);
}

/// The words, if they have a member; `None` if they have none.
pub(crate) fn with_member(words: &[u64]) -> Option<&[u64]>
    requires { length words.now < 2 ^ 57 }
    ensures none { MatchOption result ((n : ℕ) → member words.now n ≡ false)
        (λ _. (n : ℕ) × (member words.now n ≡ true)) }
    ensures words { MatchOption result (Unit {0}) (λ lent. lent.now ≡ words.now) }
{
    match next_one(words, 0) {
        None => None,
        Some(_) => Some(words),
    }
}
