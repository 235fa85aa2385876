//! Numbers among the words.

ghost use Rattle.std.specs.Prelude.{◌≡◌, ◌≤◌, ◌*◌, ◌+◌, IfSome};
ghost use Rattle.ldv_top.specs.WordNumbers.{number_within, positive_within, with_digit, with_digits};

/// A number from 0 to the limit, decimal without sign and leading zeros.
pub(crate) fn number_within(limit: u32, bytes: &[u8]) -> Option<u32>
    ensures { result ≡ number_within limit bytes.now }
{
    within_u32(limit, long_within(limit as u64, bytes))
}

/// A number from 1 to the limit, decimal without sign and leading zeros.
pub(crate) fn positive_within(limit: u32, bytes: &[u8]) -> Option<u32>
    ensures number { result ≡ positive_within limit bytes.now }
    ensures bounded { IfSome result (λ number. number ≤ limit) }
{
    within_u32(limit, positive_u64(limit as u64, bytes))
}

// A number that is within the limit.
fn within_u32(limit: u32, number: Option<u64>) -> Option<u32>
    requires { IfSome number (λ number. number ≤ limit) }
    ensures number { result ≡ number }
    ensures bounded { IfSome result (λ number. number ≤ limit) }
{
    match number {
        Some(number) => Some(number as u32),
        None => None,
    }
}

/// A number of 64 bits from 0 to the limit, decimal without sign and leading zeros.
pub(crate) fn long_within(limit: u64, bytes: &[u8]) -> Option<u64>
    ensures number { result ≡ number_within limit bytes.now }
    ensures bounded { IfSome result (λ number. number ≤ limit) }
{
    if bytes == b"0".as_slice() {
        Some(0)
    } else {
        positive_u64(limit, bytes)
    }
}

fn positive_u64(limit: u64, bytes: &[u8]) -> Option<u64>
    ensures number { result ≡ positive_within limit bytes.now }
    ensures bounded { IfSome result (λ number. number ≤ limit) }
{
    match bytes {
        [] => None,
        [b'0', ..] => None,
        _ => with_digits(limit, bytes),
    }
}

fn with_digits(limit: u64, bytes: &[u8]) -> Option<u64>
    ensures number { result ≡ with_digits limit 0 bytes.now }
    ensures bounded { IfSome result (λ number. number ≤ limit) }
{
    let mut number: u64 = 0;
    for byte in bytes {
        number = with_digit(limit, number, *byte)?;
    }
    Some(number)
}

fn with_digit(limit: u64, number: u64, byte: u8) -> Option<u64>
    ensures number { result ≡ with_digit limit number byte }
    ensures bounded { IfSome result (λ next. next ≤ limit) }
{
    if byte < b'0' || b'9' < byte {
        return None;
    }
    let next = number as u128 * 10 + (byte - b'0') as u128;
    if next <= limit as u128 {
        Some(next as u64)
    } else {
        None
    }
}
