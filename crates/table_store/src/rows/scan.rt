//! Scans of columns: the slots whose cells pass a test, as bits.

ghost use Rattle.std.specs.Prelude.{◌≡◌, ◌==◌, ℕ, ◌+◌, ◌*◌, ◌/◌, ◌<◌, ◌≤◌, Bool, true, false, ◌&&◌, cond};
ghost use Rattle.std.specs.Prelude.{None, is_some, length, slice_index_or};
ghost use Rattle.std.specs.Option.{option_map_or};
ghost use Rattle.lanes.specs.Sets.{member};
ghost use Rattle.lanes.specs.Selection.{passes};
ghost use Rattle.ldv_value.specs.Cells.{value_at, int_value};
ghost use Rattle.column_store.specs.Columns.{no_cells, values_at};
ghost use Rattle.table_store.specs.Scans.{null_passes, passes_test};
ghost use Rattle.table_store.specs.Types.{Null};

use column_store::{Column, IntColumn, drop_bit};
use lanes::{and_into, minus_into, select_i64};
use ldv_value::{Cmp, Value};

/// Sets the bits of the slots whose cell is a number that passes the comparison with the constant, and clears
/// all others.
#[tactic(auto, using(crate::proofs::ScanLaws::scan_rules))]
pub(crate) fn select(column: &Column, op: Cmp, constant: i64, mask: &mut [u64])
    requires kind { column.now.text ≡ false }
    requires mask { length mask.old ≡ (length column.now.items + 63) / 64 }
    ensures { (n : ℕ) → member mask.new n ≡ passes_test op constant
        (slice_index_or column.now.items n Null) }
{
    match column.ints() {
        Some(ints) => select_numbers(ints, op, constant, mask),
        None => {}
    }
}

// The words are compared, whatever stands in those of NULLs.
fn select_numbers(ints: &IntColumn, op: Cmp, constant: i64, mask: &mut [u64])
    requires { length mask.old ≡ (length ints.now.items + 63) / 64 }
    ensures { (n : ℕ) → member mask.new n ≡ option_map_or (passes op constant)
        (slice_index_or ints.now.items n None) false }
{
    select_i64(op, ints.values(), constant, mask);
    drop_nulls(ints, mask);
}

// Keeps of some slots those whose cell isn't NULL.
#[tactic(auto, using(crate::proofs::ScanLaws::nulls_dropped))]
fn drop_nulls(ints: &IntColumn, mask: &mut [u64])
    requires long { length mask.old ≡ (length ints.now.items + 63) / 64 }
    requires clear { (n : ℕ) → length ints.now.items ≤ n → member mask.old n ≡ false }
    ensures { (n : ℕ) → member mask.new n
        ≡ (member mask.old n && is_some (slice_index_or ints.now.items n None)) }
{
    minus_into(mask, ints.nulls());
}

/// Keeps in `mask` only the slots with NULL at a place (if `is_null` is false: with another value). A place
/// past the last column has NULL.
#[tactic(auto, using(crate::proofs::ScanLaws::place_rules))]
pub(crate) fn keep_nulls_at(columns: &Vec<Column>, place: usize, is_null: bool, mask: &mut [u64])
    requires long { (k : ℕ) → k < length columns.now.items
        → length mask.old ≡ (length (slice_index_or columns.now.items k no_cells).items + 63) / 64 }
    requires clear { (k : ℕ) → k < length columns.now.items → (n : ℕ)
        → length (slice_index_or columns.now.items k no_cells).items ≤ n → member mask.old n ≡ false }
    ensures { (n : ℕ) → member mask.new n ≡ (member mask.old n
        && null_passes is_null (value_at (values_at columns.now.items n) place)) }
{
    if place < columns.len() {
        let column = &columns[place];
        keep_nulls(column, is_null, mask);
        return;
    }
    if !is_null {
        drop_all(mask);
    }
}

// Clears all bits.
fn drop_all(mask: &mut [u64])
    ensures { (n : ℕ) → member mask.new n ≡ false }
{
    for word in mask.iter_mut() {
        *word = 0;
    }
}

// Keeps of some slots those whose cell is NULL, or, where `is_null` is false, another value.
#[tactic(auto, using(crate::proofs::ScanLaws::scan_rules))]
fn keep_nulls(column: &Column, is_null: bool, mask: &mut [u64])
    requires long { length mask.old ≡ (length column.now.items + 63) / 64 }
    requires clear { (n : ℕ) → length column.now.items ≤ n → member mask.old n ≡ false }
    ensures { (n : ℕ) → member mask.new n
        ≡ (member mask.old n && null_passes is_null (slice_index_or column.now.items n Null)) }
{
    match column.ints() {
        Some(ints) => keep_null_numbers(ints, is_null, mask),
        None => keep_null_texts(column, is_null, mask),
    }
}

// The same in a column of numbers.
fn keep_null_numbers(ints: &IntColumn, is_null: bool, mask: &mut [u64])
    requires long { length mask.old ≡ (length ints.now.items + 63) / 64 }
    requires clear { (n : ℕ) → length ints.now.items ≤ n → member mask.old n ≡ false }
    ensures { (n : ℕ) → member mask.new n ≡ (member mask.old n
        && null_passes is_null (int_value (slice_index_or ints.now.items n None))) }
{
    if is_null {
        and_into(mask, ints.nulls());
    } else {
        drop_nulls(ints, mask);
    }
}

// The same in a column of texts.
fn keep_null_texts(column: &Column, is_null: bool, mask: &mut [u64])
    requires kind { column.now.text ≡ true }
    requires long { length mask.old ≡ (length column.now.items + 63) / 64 }
    requires clear { (n : ℕ) → length column.now.items ≤ n → member mask.old n ≡ false }
    ensures { (n : ℕ) → member mask.new n
        ≡ (member mask.old n && null_passes is_null (slice_index_or column.now.items n Null)) }
{
    match column.texts() {
        Some(values) => keep_values(values, is_null, mask),
        None => {}
    }
}

// Keeps of some slots those whose value is NULL, or, where `is_null` is false, isn't.
fn keep_values(values: &[Value], is_null: bool, mask: &mut [u64])
    requires long { length mask.old ≡ (length values.now + 63) / 64 }
    requires clear { (n : ℕ) → length values.now ≤ n → member mask.old n ≡ false }
    ensures { (n : ℕ) → member mask.new n
        ≡ (member mask.old n && null_passes is_null (slice_index_or values.now n Null)) }
{
    for slot in 0..values.len() {
        keep_value(&values[slot], is_null, slot, mask);
    }
}

// Keeps a slot if its value is NULL, or, where `is_null` is false, isn't.
fn keep_value(value: &Value, is_null: bool, slot: usize, mask: &mut [u64])
    requires { slot / 64 < length mask.old }
    ensures { (n : ℕ) → member mask.new n ≡ cond (n == slot)
        (member mask.old n && null_passes is_null value.now) (member mask.old n) }
{
    if !null_passes(is_null, value) {
        drop_bit(mask, slot);
    }
}

// Whether a value is NULL, or, where `is_null` is false, isn't.
fn null_passes(is_null: bool, value: &Value) -> bool
    ensures { result ≡ null_passes is_null value.now }
{
    match value {
        Value::Null => is_null,
        Value::Int(_) => !is_null,
        Value::Text(_) => !is_null,
    }
}
