//! Numbers and values as text.

ghost use Rattle.std.specs.Prelude.{◌≡◌, ◌++◌, OnOk, OnErr};
ghost use Rattle.std.specs.Fmt.{decimal, signed_decimal};
ghost use Rattle.ldv_value.specs.Shown.{value_text};

use crate::Bytes;
use crate::utf8::Utf8;
use crate::value::Value;
use itoa::Buffer;
use std::alloc::AllocError;

/// Appends a number in decimal. On `AllocError` nothing is appended.
pub fn append_number(number: u64, to: &mut Bytes) -> Result<(), AllocError>
    ensures ok { OnOk result (to.new ≡ to.old ++ decimal number) }
    ensures err { OnErr result (to.new ≡ to.old) }
{
    let mut buffer = Buffer::new();
    to.extend(buffer.format(number).as_bytes())
}

/// Appends a number in decimal, with `-` first if it is below 0. On `AllocError` nothing is appended.
pub fn append_signed(number: i64, to: &mut Bytes) -> Result<(), AllocError>
    ensures ok { OnOk result (to.new ≡ to.old ++ signed_decimal number) }
    ensures err { OnErr result (to.new ≡ to.old) }
{
    let mut buffer = Buffer::new();
    to.extend(buffer.format(number).as_bytes())
}

/// Appends a value as text: the decimal number, the text itself, or `NULL`. On `AllocError` nothing is
/// appended.
pub fn append_text(value: &Value, to: &mut Bytes) -> Result<(), AllocError>
    ensures ok { OnOk result (to.new ≡ to.old ++ value_text value.now) }
    ensures err { OnErr result (to.new ≡ to.old) }
{
    match value {
        Value::Null => to.extend(b"NULL"),
        Value::Int(number) => append_signed(*number, to),
        Value::Text(text) => to.extend(text.as_str().as_bytes()),
    }
}

/// Appends a value to a text, as `append_text` does to bytes. On `AllocError` nothing is appended.
pub fn push_text(value: &Value, to: &mut Utf8) -> Result<(), AllocError>
    ensures ok { OnOk result (to.new ≡ to.old ++ value_text value.now) }
    ensures err { OnErr result (to.new ≡ to.old) }
{
    match value {
        Value::Null => to.push_str("NULL"),
        Value::Int(number) => {
            let mut buffer = Buffer::new();
            to.push_str(buffer.format(*number))
        }
        Value::Text(text) => to.push_str(text.as_str()),
    }
}
