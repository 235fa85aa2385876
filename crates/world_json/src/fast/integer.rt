//! Integers as digits with an optional minus before them.

ghost use Rattle.std.specs.Prelude.{◌≡◌, ◌<◌, ◌==◌, true, false, Some, IfSome, IsTrue, length, slice_index};
ghost use Rattle.std.specs.Prelude.{option_and_then};
ghost use Rattle.serde_json.specs.Data.{unsigned, negative};
ghost use Rattle.serde_json.specs.Find.{as_i64, as_u64};
ghost use Rattle.serde_json.specs.Read.{number_of, number_from};

use fast_float::Numeral;

/// The number that the text of a JSON number writes, if it is an integer that fits and isn't `-0`.
pub(crate) fn signed_of(text: &str) -> Option<i64>
    ensures { IfSome result (λ whole. option_and_then as_i64 (number_of text.now) ≡ Some whole) }
{
    let bytes = text.as_bytes();
    if has_minus(bytes) {
        negative_number(&Numeral::scan(&bytes[1..]))
    } else {
        small_of(&Numeral::scan(bytes))
    }
}

/// The same of a number without a sign.
pub(crate) fn unsigned_of(text: &str) -> Option<u64>
    ensures { IfSome result (λ whole. option_and_then as_u64 (number_of text.now) ≡ Some whole) }
{
    let bytes = text.as_bytes();
    if has_minus(bytes) {
        return None;
    }
    whole_number(&Numeral::scan(bytes))
}

fn has_minus(bytes: &[u8]) -> bool
    ensures value { result ≡ (slice_index bytes.now 0 == 45) }
    ensures len { IsTrue result → 0 < length bytes.now }
{
    !bytes.is_empty() && bytes[0] == b'-'
}

fn negative_number(numeral: &Numeral<'_>) -> Option<i64>
    ensures { IfSome result (λ n. number_from true numeral.now ≡ Some (negative n)) }
{
    if let Some(n) = numeral.to_i64(true) {
        if n < 0 {
            return Some(n);
        }
    }
    None
}

fn whole_number(numeral: &Numeral<'_>) -> Option<u64>
    ensures { IfSome result (λ n. number_from false numeral.now ≡ Some (unsigned n)) }
{
    numeral.to_u64()
}

fn small_of(numeral: &Numeral<'_>) -> Option<i64>
    ensures { IfSome result (λ n. option_and_then as_i64 (number_from false numeral.now) ≡ Some n) }
{
    match whole_number(numeral) {
        Some(n) => small_number(n),
        None => None,
    }
}

fn small_number(n: u64) -> Option<i64>
    ensures { IfSome result (λ whole. as_i64 (unsigned n) ≡ Some whole) }
{
    if n <= i64::MAX as u64 {
        Some(n as i64)
    } else {
        None
    }
}
