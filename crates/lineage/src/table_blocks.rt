//! The blocks of all tables.

ghost use Rattle.std.specs.Prelude.{◌≡◌, ◌<◌, ℕ, cond, false, is_some, IsSome, None, Some, OnOk};
ghost use Rattle.std.specs.BTreeMap as tree;
ghost use Rattle.std.specs.BTreeMap.{is_at};
ghost use Rattle.std.specs.FinMap.{find};
ghost use Rattle.std.specs.Option.{option_or};
ghost use Rattle.std.specs.Ordering.{eq_by_cmp};
ghost use Rattle.lineage.specs.Lineage.{row_cmp, Row as Place};
ghost use Rattle.lineage.specs.inner.Blocks.{block_of, found_at, row_at, row_of_both, HasRoom, AllRoom};
ghost use Rattle.lineage.specs.inner.Blocks.{IsRoomy};
ghost use Rattle.lineage.specs.inner.Blocks.{AreRoomy, IsKept, AreKept, AreRoomier, Stays};

use crate::blocks::{
    Block, Blocks, Row, block_of, has_bit, make_room, make_room_like, no_rows, put_in, unite_in,
};
use std::alloc::{AllocError, Global};

/// Whether a row is in one of the blocks.
pub(crate) fn has_row(blocks: &Blocks, row: Row) -> bool
    ensures { result ≡ is_some (found_at blocks.now row) }
{
    match blocks.get(&block_of(row)) {
        None => false,
        Some(block) => has_bit(&block.words, (row.1 % 65_536) as usize),
    }
}

// ---- room for a row

// Makes a block, where there is none.
#[tactic(auto, using(crate::proofs::RoomLaws::roomier_itself, crate::proofs::RoomLaws::roomier_unchanged))]
fn make_block(alloc: Global, blocks: &mut Blocks, place: (u32, u32)) -> Result<(), AllocError>
    requires { place.1 < 65536 }
    ensures roomier { AreRoomier blocks.old blocks.new }
    ensures there { OnOk result (IsSome (tree.get row_cmp blocks.new place)) }
{
    if blocks.contains_key(&place) {
        return Ok(());
    }
    let block = no_rows(alloc)?;
    blocks.insert(place, block)?;
    Ok(())
}

// Makes room in the block of a row.
#[tactic(auto, using(crate::proofs::RoomLaws::roomier_itself))]
fn make_room_there(
    alloc: Global,
    blocks: &mut Blocks,
    row: Row,
    version: u32,
) -> Result<(), AllocError>
    requires { IsSome (tree.get row_cmp blocks.old (block_of row)) }
    ensures roomier { AreRoomier blocks.old blocks.new }
    ensures room { OnOk result (HasRoom blocks.new row version) }
{
    let place = block_of(row);
    match blocks.get_mut(&place) {
        Some(block) => make_room(alloc, block, (row.1 % 65_536) as usize, version),
        None => Ok(()),
    }
}

/// Reserves memory for a row. No row changes, also on `AllocError`.
#[tactic(auto, using(crate::proofs::RoomLaws::roomier_still))]
pub(crate) fn make_row_room(
    alloc: Global,
    blocks: &mut Blocks,
    row: Row,
    version: u32,
) -> Result<(), AllocError>
    ensures roomier { AreRoomier blocks.old blocks.new }
    ensures room { OnOk result (HasRoom blocks.new row version) }
{
    match make_block(alloc, blocks, block_of(row)) {
        Ok(()) => make_room_there(alloc, blocks, row, version),
        Err(stop) => Err(stop),
    }
}

/// Reserves memory for the rows of a list. No row changes, also on `AllocError`.
pub(crate) fn make_rows_room(
    alloc: Global,
    blocks: &mut Blocks,
    rows: &[(Row, u32)],
) -> Result<(), AllocError>
    ensures roomier { AreRoomier blocks.old blocks.new }
    ensures room { OnOk result (AllRoom blocks.new rows.now) }
{
    let mut left = rows.len();
    'rows: while left > 0 {
        left -= 1;
        let (row, version) = rows[left];
        make_row_room(alloc, blocks, row, version)?;
    }
    Ok(())
}

// ---- rows added

// Puts a row that isn't there into its block.
fn put_row(blocks: &mut Blocks, row: Row, version: u32)
    requires kept { AreKept blocks.old }
    requires room { HasRoom blocks.old row version }
    requires new { found_at blocks.old row ≡ None }
    ensures kept { AreKept blocks.new }
    ensures found { (q : Place) → found_at blocks.new q
        ≡ cond (eq_by_cmp row_cmp q row) (Some version) (found_at blocks.old q) }
    ensures stays { Stays blocks.old blocks.new }
{
    let place = block_of(row);
    match blocks.get_mut(&place) {
        Some(block) => put_in(block, (row.1 % 65_536) as usize, version),
        None => {}
    }
}

/// Adds a row. `make_row_room` has reserved the memory. A row that is already in keeps its version.
#[tactic(auto, using(crate::proofs::RoomLaws::all_stays))]
pub(crate) fn add_row(blocks: &mut Blocks, row: Row, version: u32)
    requires kept { AreKept blocks.old }
    requires room { HasRoom blocks.old row version }
    ensures kept { AreKept blocks.new }
    ensures found { (q : Place) → found_at blocks.new q
        ≡ option_or (found_at blocks.old q) (cond (eq_by_cmp row_cmp q row) (Some version) None) }
    ensures stays { Stays blocks.old blocks.new }
{
    if has_row(blocks, row) {
        return;
    }
    put_row(blocks, row, version);
}

/// Adds the rows of a list. `make_rows_room` has reserved the memory.
pub(crate) fn add_rows(blocks: &mut Blocks, rows: &[(Row, u32)])
    requires kept { AreKept blocks.old }
    requires room { AllRoom blocks.old rows.now }
    ensures kept { AreKept blocks.new }
    ensures found { (q : Place) → found_at blocks.new q
        ≡ option_or (found_at blocks.old q) (find row_cmp q rows.now) }
{
    for entry in rows {
        let (row, version) = *entry;
        add_row(blocks, row, version);
    }
}

// ---- other blocks

// Makes room in the block at a place for the rows of another.
#[tactic(auto, using(crate::proofs::RoomLaws::roomier_itself))]
fn make_room_there_like(
    alloc: Global,
    blocks: &mut Blocks,
    place: (u32, u32),
    other: &Block,
) -> Result<(), AllocError>
    requires { IsSome (tree.get row_cmp blocks.old place) }
    ensures roomier { AreRoomier blocks.old blocks.new }
    ensures room { OnOk result (IsRoomy (tree.get row_cmp blocks.new place) (Some other.now)) }
{
    match blocks.get_mut(&place) {
        Some(block) => make_room_like(alloc, block, other),
        None => Ok(()),
    }
}

// Makes room at a place for the rows of another block.
#[tactic(auto, using(crate::proofs::RoomLaws::roomier_still))]
fn make_block_like(
    alloc: Global,
    blocks: &mut Blocks,
    place: (u32, u32),
    other: &Block,
) -> Result<(), AllocError>
    requires { place.1 < 65536 }
    ensures roomier { AreRoomier blocks.old blocks.new }
    ensures room { OnOk result (IsRoomy (tree.get row_cmp blocks.new place) (Some other.now)) }
{
    match make_block(alloc, blocks, place) {
        Ok(()) => make_room_there_like(alloc, blocks, place, other),
        Err(stop) => Err(stop),
    }
}

// Makes room for the rows that other blocks have at a place.
#[tactic(auto, using(crate::proofs::RoomLaws::roomier_itself))]
fn make_room_at(
    alloc: Global,
    blocks: &mut Blocks,
    others: &Blocks,
    place: (u32, u32),
) -> Result<(), AllocError>
    requires { AreKept others.now }
    ensures roomier { AreRoomier blocks.old blocks.new }
    ensures room { OnOk result (IsRoomy (tree.get row_cmp blocks.new place)
        (tree.get row_cmp others.now place)) }
{
    match others.get(&place) {
        None => Ok(()),
        Some(other) => make_block_like(alloc, blocks, place, other),
    }
}

/// Reserves memory for the rows of other blocks. No row changes, also on `AllocError`.
pub(crate) fn make_blocks_room(
    alloc: Global,
    blocks: &mut Blocks,
    others: &Blocks,
) -> Result<(), AllocError>
    requires { AreKept others.now }
    ensures roomier { AreRoomier blocks.old blocks.new }
    ensures room { OnOk result (AreRoomy blocks.new others.now) }
{
    for (place, _block) in others.iter() {
        make_room_at(alloc, blocks, others, *place)?;
    }
    Ok(())
}

// Adds the rows of another block to that at a place.
#[tactic(auto, using(crate::proofs::RoomLaws::all_stays))]
fn unite_there(blocks: &mut Blocks, place: (u32, u32), other: &Block)
    requires kept { AreKept blocks.old }
    requires also_kept { IsKept place other.now }
    requires room { IsRoomy (tree.get row_cmp blocks.old place) (Some other.now) }
    ensures kept { AreKept blocks.new }
    ensures stays { Stays blocks.old blocks.new }
    ensures here { (n : ℕ) → row_at (tree.get row_cmp blocks.new place) n
        ≡ row_of_both (tree.get row_cmp blocks.old place) (Some other.now) n }
    ensures there { (p : Place) (n : ℕ) → is_at (row_cmp place) p ≡ false
        → row_at (tree.get row_cmp blocks.new p) n ≡ row_at (tree.get row_cmp blocks.old p) n }
{
    match blocks.get_mut(&place) {
        Some(block) => unite_in(block, other),
        None => {}
    }
}

// Adds the rows that other blocks have at a place.
#[tactic(auto, using(crate::proofs::RoomLaws::all_stays, crate::proofs::Laws::or_none))]
fn unite_at(blocks: &mut Blocks, others: &Blocks, place: (u32, u32))
    requires kept { AreKept blocks.old }
    requires also_kept { AreKept others.now }
    requires room { IsRoomy (tree.get row_cmp blocks.old place) (tree.get row_cmp others.now place) }
    ensures kept { AreKept blocks.new }
    ensures stays { Stays blocks.old blocks.new }
    ensures here { (n : ℕ) → row_at (tree.get row_cmp blocks.new place) n
        ≡ row_of_both (tree.get row_cmp blocks.old place) (tree.get row_cmp others.now place) n }
    ensures there { (p : Place) (n : ℕ) → is_at (row_cmp place) p ≡ false
        → row_at (tree.get row_cmp blocks.new p) n ≡ row_at (tree.get row_cmp blocks.old p) n }
{
    match others.get(&place) {
        None => {}
        Some(other) => unite_there(blocks, place, other),
    }
}

/// Adds the rows of other blocks. `make_blocks_room` has reserved the memory. A row that is in both keeps the
/// version that it has here.
pub(crate) fn unite(blocks: &mut Blocks, others: &Blocks)
    requires kept { AreKept blocks.old }
    requires also_kept { AreKept others.now }
    requires room { AreRoomy blocks.old others.now }
    ensures kept { AreKept blocks.new }
    ensures found { (p : Place) (n : ℕ) → row_at (tree.get row_cmp blocks.new p) n
        ≡ row_of_both (tree.get row_cmp blocks.old p) (tree.get row_cmp others.now p) n }
{
    for (place, _block) in others.iter() {
        unite_at(blocks, others, *place);
    }
}
