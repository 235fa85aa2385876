//! Numbers as scripts write them.

ghost use Rattle.std.specs.Prelude.{◌≡◌, ◌≤◌, ◌^◌, ◌∷◌, []};
ghost use Rattle.ldv_value.specs.Digits.{is_digit};
ghost use Rattle.script_parse.specs.Number.{magnitude_from, magnitude_of, natural_of, negative_of};
ghost use Rattle.script_parse.specs.Number.{number_of};

/// The greatest magnitude of an `i64`.
const MAGNITUDE_LIMIT: u64 = 1 << 63;

/// The number that a text writes: an optional `-` and digits, with leading zeros allowed. `None` if the text
/// has another form or the number isn't within `i64`.
pub fn read_number(text: &str) -> Option<i64>
    ensures { result ≡ number_of text.now }
{
    number(text.as_bytes())
}

/// `read_number` on bytes.
pub(crate) fn number(bytes: &[u8]) -> Option<i64>
    ensures { result ≡ number_of bytes.now }
{
    match bytes {
        [] => None,
        [first, digits @ ..] => {
            if *first == b'-' {
                negative_of(digits)
            } else {
                natural_of(bytes)
            }
        }
    }
}

fn natural_of(digits: &[u8]) -> Option<i64>
    ensures { result ≡ natural_of digits.now }
{
    let number = magnitude(digits)?;
    if number < MAGNITUDE_LIMIT {
        Some(number as i64)
    } else {
        None
    }
}

fn negative_of(digits: &[u8]) -> Option<i64>
    ensures { result ≡ negative_of digits.now }
{
    let number = magnitude(digits)?;
    if number == MAGNITUDE_LIMIT {
        Some(i64::MIN)
    } else {
        Some(-(number as i64))
    }
}

fn magnitude(digits: &[u8]) -> Option<u64>
    ensures { result ≡ magnitude_of digits.now }
{
    match digits {
        [] => None,
        [_, ..] => all_digits(digits),
    }
}

#[tactic(auto, using(crate::proofs::Magnitude::loop_steps))]
fn all_digits(digits: &[u8]) -> Option<u64>
    ensures { result ≡ magnitude_from 0 digits.now }
{
    let mut number: u64 = 0;
    for b in digits {
        number = with_digit(number, *b)?;
    }
    Some(number)
}

// The number with one more digit.
fn with_digit(number: u64, b: u8) -> Option<u64>
    requires { number ≤ 2 ^ 63 }
    ensures { result ≡ magnitude_from number (b ∷ []) }
{
    if !is_digit(b) || number > MAGNITUDE_LIMIT / 10 {
        return None;
    }
    let longer = 10 * number + (b - b'0') as u64;
    if longer <= MAGNITUDE_LIMIT {
        Some(longer)
    } else {
        None
    }
}

fn is_digit(b: u8) -> bool
    ensures { result ≡ is_digit b }
{
    b'0' <= b && b <= b'9'
}
