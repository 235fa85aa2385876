//! The digest of a package, its last 32 bytes.

ghost use Rattle.std.specs.Prelude.{◌≡◌, ◌≤◌, ◌-◌, ◌++◌, IfOk, length, drop, bytes_eq};
ghost use Rattle.sha2.specs.Sha256.{sha256};
ghost use Rattle.package_layout.specs.Valid.{before_digest, has_digest, middle};

use ldv_value::Bytes;
use package_codec::MAGIC_LENGTH;
use sha2::{Digest, Sha256};
use std::alloc::AllocError;

/// The number of bytes of a digest.
pub const DIGEST_LENGTH: usize = 32;

/// How many bytes a magic and a digest have, which begin and end every package.
const SHORTEST_LENGTH: usize = MAGIC_LENGTH + DIGEST_LENGTH;

/// The bytes, followed by their digest.
pub(crate) fn with_digest(body: Bytes) -> Result<Bytes, AllocError>
    ensures { IfOk result (λ bytes. bytes ≡ body ++ sha256 body) }
{
    let mut bytes = body;
    let digest = Sha256::digest(bytes.as_slice());
    bytes.extend(&digest)?;
    Ok(bytes)
}

/// Whether bytes are long enough for a magic and a digest, and end with the digest of the bytes before it.
pub fn has_digest(bytes: &[u8]) -> bool
    ensures { result ≡ has_digest bytes.now }
{
    if bytes.len() >= SHORTEST_LENGTH {
        ends_with_digest(bytes)
    } else {
        false
    }
}

fn ends_with_digest(bytes: &[u8]) -> bool
    requires { 40 ≤ length bytes.now }
    ensures { result ≡ bytes_eq (drop (length bytes.now - 32) bytes.now) (sha256 (before_digest bytes.now)) }
{
    let (front, digest) = bytes.split_at(bytes.len() - DIGEST_LENGTH);
    let made = Sha256::digest(front);
    digest == made.as_slice()
}

/// The bytes between the magic and the digest.
pub fn middle(bytes: &[u8]) -> &[u8]
    requires { 40 ≤ length bytes.now }
    ensures { result.now ≡ middle bytes.now }
{
    let (front, _digest) = bytes.split_at(bytes.len() - DIGEST_LENGTH);
    let (_magic, middle) = front.split_at(MAGIC_LENGTH);
    middle
}
