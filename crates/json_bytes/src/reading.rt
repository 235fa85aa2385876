//! From bytes to a JSON value.

ghost use Rattle.std.specs.Prelude.{◌≡◌, IfOk, None, Some};
ghost use Rattle.serde_json.specs.View.{view};
ghost use Rattle.json_bytes.specs.Reading.{json_of};

use serde_json::{Category, Value};
use std::alloc::Global;

/// Why bytes weren't read as a JSON value.
#[derive(Clone, Copy, Debug, PartialEq, Eq)]
pub enum JsonStop {
    /// The bytes aren't a JSON text.
    NotJson,
    /// Out of memory.
    NoMemory,
}

/// The JSON value of some bytes. `NotJson` comes if the bytes aren't UTF-8, aren't JSON by RFC 8259, or nest
/// arrays and objects deeper than 127 levels.
pub fn read_json(alloc: Global, bytes: &[u8]) -> Result<Value, JsonStop>
    ensures ok { IfOk result (λ value. json_of bytes.now ≡ Some (view value)) }
    ensures not_json { result ≡ Err JsonStop.NotJson → json_of bytes.now ≡ None }
{
    match Value::from_slice(alloc, bytes) {
        Ok(value) => Ok(value),
        Err(error) => match error.classify() {
            Category::Memory => Err(JsonStop::NoMemory),
            _ => Err(JsonStop::NotJson),
        },
    }
}
