//! The selection of a column's indexes by a comparison.

ghost use Rattle.std.specs.Prelude.{◌≡◌, ℕ, ◌+◌, ◌-◌, ◌*◌, ◌/◌, ◌^◌, ◌<◌, ◌≤◌, length, map, drop};
ghost use Rattle.std.specs.Simd.Lanes.{chunk, mask_l};
ghost use Rattle.lanes.specs.Selection.{passes, IsSelection, IsSelectedTo};

use ldv_value::Cmp;
use std::simd::prelude::*;

/// Sets in `mask` the bits of the indexes of `column` at which the comparison with `constant` holds, and
/// clears all others.
pub fn select_i64(op: Cmp, column: &[i64], constant: i64, mask: &mut [u64])
    requires { length mask.old ≡ (length column.now + 63) / 64 }
    ensures { IsSelection op column.now constant mask.new }
{
    for place in 0..mask.len() {
        mask[place] = word_at(op, column, constant, place * 64);
    }
}

// The bits of the 64 indexes from an index on, or of those up to the end.
fn word_at(op: Cmp, column: &[i64], constant: i64, at: usize) -> u64
    requires { at ≤ length column.now }
    ensures { result ≡ mask_l (map (passes op constant) (chunk at 64 column.now)) }
{
    if column.len() - at >= 64 {
        word_of(op, &column[at..at + 64], constant)
    } else {
        word_of(op, &column[at..], constant)
    }
}

// The bits of at most 64 numbers, from the last to the first: the last few one by one, all others eight
// at a time.
fn word_of(op: Cmp, part: &[i64], constant: i64) -> u64
    requires { length part.now ≤ 64 }
    ensures { result ≡ mask_l (map (passes op constant) part.now) }
{
    let mut place = part.len() / 8 * 8;
    let mut word = bits_from(op, part, constant, place);
    'eights: while place > 0 {
        place -= 8;
        word = word * 256 + eight_bits(op, part, constant, place);
    }
    word
}

// The bits of the eight numbers from an index on.
fn eight_bits(op: Cmp, part: &[i64], constant: i64, at: usize) -> u64
    requires { at + 8 ≤ length part.now }
    ensures { result ≡ mask_l (map (passes op constant) (chunk at 8 part.now)) }
{
    // Lanes that are read one by one are known to be in range; LLVM loads them at once.
    let lanes = i64x8::from_array([
        part[at],
        part[at + 1],
        part[at + 2],
        part[at + 3],
        part[at + 4],
        part[at + 5],
        part[at + 6],
        part[at + 7],
    ]);
    let with = i64x8::splat(constant);
    match op {
        Cmp::Eq => lanes.simd_eq(with).to_bitmask(),
        Cmp::Ne => lanes.simd_ne(with).to_bitmask(),
        Cmp::Lt => lanes.simd_lt(with).to_bitmask(),
        Cmp::Le => lanes.simd_le(with).to_bitmask(),
        Cmp::Gt => lanes.simd_gt(with).to_bitmask(),
        Cmp::Ge => lanes.simd_ge(with).to_bitmask(),
    }
}

// The bits of the numbers from an index on.
pub(crate) fn bits_from(op: Cmp, part: &[i64], constant: i64, from: usize) -> u64
    requires within { from ≤ length part.now }
    requires few { length part.now ≤ 64 }
    ensures { result ≡ mask_l (map (passes op constant) (drop from part.now)) }
{
    let mut word = 0;
    let mut place = part.len();
    'places: while place > from {
        place -= 1;
        word = 2 * word + u64::from(compares(op, part[place], constant));
    }
    word
}

// Whether the comparison of a number with the constant holds.
pub(crate) fn compares(op: Cmp, number: i64, constant: i64) -> bool
    ensures { result ≡ passes op constant number }
{
    match op {
        Cmp::Eq => number == constant,
        Cmp::Ne => number != constant,
        Cmp::Lt => number < constant,
        Cmp::Le => number <= constant,
        Cmp::Gt => number > constant,
        Cmp::Ge => number >= constant,
    }
}
