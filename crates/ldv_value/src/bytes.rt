//! Calls that only lists of bytes have.

ghost use Rattle.std.specs.Prelude.{◌≡◌, ◌++◌, OnOk, OnErr, IfOk};

use crate::Bytes;
use std::alloc::{AllocError, Global};

impl Bytes {
    /// The bytes as a slice.
    pub fn as_slice(&self) -> &[u8]
        ensures { result.now ≡ self.now }
    {
        self.items()
    }

    /// Bytes equal to those of a slice.
    pub fn of_slice(alloc: Global, bytes: &[u8]) -> Result<Self, AllocError>
        ensures { IfOk result (λ made. made ≡ bytes.now) }
    {
        Ok(Bytes::of_vec(Vec::from_slice(alloc, bytes)?))
    }

    /// Appends the bytes of a slice. On `AllocError` the bytes are as they were.
    pub fn extend(&mut self, more: &[u8]) -> Result<(), AllocError>
        ensures ok { OnOk result (self.new ≡ self.old ++ more.now) }
        ensures err { OnErr result (self.new ≡ self.old) }
    {
        self.extend_items(more)
    }
}
