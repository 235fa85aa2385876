//! From joined packages to bytes.

ghost use Rattle.std.specs.Prelude.{◌≡◌, ◌≤◌, ◌<◌, IfOk, OnOk, IsErrOf, length};
ghost use Rattle.ldv_value.specs.Limits.{input_limit};
ghost use Rattle.package_join.specs.Layout.{joined_body, joined_magic, joined_spelling};
ghost use Rattle.joined_data.specs.Rooms.{IsTypedJoined};
ghost use Rattle.joined_data.specs.CompactJoins.{whole_join};
ghost use Rattle.package_codec.specs.Runs.{IsCut};

use joined_data::{CompactJoined, Joined, encode_compact_joined, encode_joined};
use ldv_value::Bytes;
use package_layout::{SpellStop, append_digest};
use std::alloc::{AllocError, Global};

/// The magic that begins a joined package.
pub(crate) fn joined_magic() -> &'static [u8]
    ensures { result.now ≡ joined_magic }
{
    b"LDVJOIN1"
}

/// The one spelling of a joined package. `TooLong` if and only if it has more than 67,108,864 bytes, its
/// digest counted; `NoMemory` may come in place of either answer.
pub fn spell_joined(alloc: Global, joined: &Joined) -> Result<Bytes, SpellStop>
    ensures bytes { IfOk result (λ bytes. bytes ≡ joined_spelling joined.now) }
    ensures within { IfOk result (λ bytes. length bytes ≤ input_limit) }
    ensures too_long { IsErrOf result SpellStop.TooLong → input_limit < length (joined_spelling joined.now) }
    // What every joined package in memory meets, and a law over all of them asks for.
    ensures typed { OnOk result (IsTypedJoined joined.now) }
{
    let body = body_of(alloc, joined)?;
    append_digest(body)
}

/// The same for a joined package whose traces are kept as the runs of their events. No list of events is
/// made.
pub fn spell_compact_joined(alloc: Global, joined: &CompactJoined) -> Result<Bytes, SpellStop>
    requires first { IsCut joined.now.first.runs }
    requires second { IsCut joined.now.second.runs }
    ensures bytes { IfOk result (λ bytes. bytes ≡ joined_spelling (whole_join joined.now)) }
    ensures within { IfOk result (λ bytes. length bytes ≤ input_limit) }
    ensures too_long { IsErrOf result SpellStop.TooLong →
        input_limit < length (joined_spelling (whole_join joined.now)) }
{
    let body = body_of_compact(alloc, joined)?;
    append_digest(body)
}

fn body_of(alloc: Global, joined: &Joined) -> Result<Bytes, AllocError>
    ensures bytes { IfOk result (λ bytes. bytes ≡ joined_body joined.now) }
    ensures typed { OnOk result (IsTypedJoined joined.now) }
{
    let mut bytes = Bytes::of_slice(alloc, joined_magic())?;
    encode_joined(joined, &mut bytes)?;
    Ok(bytes)
}

fn body_of_compact(alloc: Global, joined: &CompactJoined) -> Result<Bytes, AllocError>
    requires first { IsCut joined.now.first.runs }
    requires second { IsCut joined.now.second.runs }
    ensures { IfOk result (λ bytes. bytes ≡ joined_body (whole_join joined.now)) }
{
    let mut bytes = Bytes::of_slice(alloc, joined_magic())?;
    encode_compact_joined(joined, &mut bytes)?;
    Ok(bytes)
}
