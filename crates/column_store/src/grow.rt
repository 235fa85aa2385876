//! Lists that grow by an eighth.

ghost use Rattle.std.specs.Prelude.{◌≡◌, ◌+◌, ◌^◌, ◌<◌, ◌≤◌, OnOk, vec_len, vec_capacity};

use std::alloc::AllocError;

/// Reserves memory for `more` items, fewer than 2^32. A full list gets memory for at least an eighth of its
/// length, while `reserve` would double it. On `AllocError` the items are as they were.
pub fn reserve_eighth<X>(list: &mut Vec<X>, more: usize) -> Result<(), AllocError>
    requires { more < 2 ^ 32 }
    ensures items { list.new.items ≡ list.old.items }
    ensures len { vec_len list.new ≡ vec_len list.old }
    ensures ok { OnOk result (vec_len list.new + more ≤ vec_capacity list.new) }
    ensures capacity { vec_capacity list.old ≤ vec_capacity list.new }
{
    if more <= list.capacity() - list.len() {
        return Ok(());
    }
    list.reserve_exact(more.max(list.len() / 8))
}
