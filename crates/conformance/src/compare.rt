//! The end of a call of the program, compared with the expected end of a case.

ghost use Rattle.std.specs.Prelude.{◌≡◌, ◌≢◌, ◌↔◌, take, slice_get, IfSome, IsTrue, None};
ghost use Rattle.conformance.specs.inner.Place.{IsFirstPlace};

use crate::case::Case;
use ldv_value::Bytes;
use std::fmt;

/// The end of a call of the program.
#[derive(Drop)]
pub(crate) struct Ended {
    pub status: u8,
    /// The status over streams that never fail.
    pub steady_status: u8,
    pub output: Bytes,
    pub error: Bytes,
}

/// A status that differs from the expected one.
#[derive(Clone, Copy, Debug, PartialEq, Eq)]
pub(crate) struct Statuses {
    pub got: u8,
    pub wanted: u8,
}

/// The first index at which bytes differ, with the byte there, or `None` if they end.
#[derive(Clone, Copy, Debug, PartialEq, Eq)]
pub(crate) struct Place {
    pub index: usize,
    pub got: Option<u8>,
    pub wanted: Option<u8>,
}

/// The places where each of the four differs from the expected one; `None` if it is the same.
#[derive(Clone, Copy, Debug, PartialEq, Eq)]
pub(crate) struct Differences {
    pub status: Option<Statuses>,
    pub steady_status: Option<Statuses>,
    pub output: Option<Place>,
    pub error: Option<Place>,
}

impl Differences {
    /// Whether all four are as expected.
    pub(crate) fn is_none(&self) -> bool
        ensures { IsTrue result
            ↔ ((self.now.status ≡ None) × (self.now.steady_status ≡ None)
            × (self.now.output ≡ None) × (self.now.error ≡ None)) }
    {
        self.status.is_none()
            && self.steady_status.is_none()
            && self.output.is_none()
            && self.error.is_none()
    }
}

/// The first index, from 0, at which two lists of bytes differ, or one of them ends. `None` if they are
/// equal.
pub(crate) fn first_difference(got: &[u8], wanted: &[u8]) -> Option<usize>
    ensures equal { (result ≡ None) ↔ (got.now ≡ wanted.now) }
    ensures before { IfSome result (λ i. take i got.now ≡ take i wanted.now) }
    ensures there { IfSome result (λ i. slice_get got.now i ≢ slice_get wanted.now i) }
{
    let common = got.len().min(wanted.len());
    for index in 0..common {
        if got[index] != wanted[index] {
            return Some(index);
        }
    }
    if got.len() == wanted.len() {
        None
    } else {
        Some(common)
    }
}

// The first place where bytes differ, with what stands there.
fn compare_bytes(got: &[u8], wanted: &[u8]) -> Option<Place>
    ensures equal { (result ≡ None) ↔ (got.now ≡ wanted.now) }
    ensures place { IfSome result (IsFirstPlace got.now wanted.now) }
{
    match first_difference(got, wanted) {
        None => None,
        Some(index) => Some(Place {
            index,
            got: got.get(index).copied(),
            wanted: wanted.get(index).copied(),
        }),
    }
}

fn compare_status(got: u8, wanted: u8) -> Option<Statuses>
    ensures equal { (result ≡ None) ↔ (got ≡ wanted) }
    ensures both { IfSome result (λ statuses. (statuses.got ≡ got) × (statuses.wanted ≡ wanted)) }
{
    if got == wanted {
        None
    } else {
        Some(Statuses { got, wanted })
    }
}

/// Compares both statuses, all bytes of the output and all bytes of the error stream.
pub(crate) fn compare(ended: &Ended, case: &Case) -> Differences
    ensures status { (result.status ≡ None) ↔ (ended.now.status ≡ case.now.status) }
    ensures steady_status { (result.steady_status ≡ None) ↔ (ended.now.steady_status ≡ case.now.status) }
    ensures output { (result.output ≡ None) ↔ (ended.now.output ≡ case.now.output) }
    ensures error { (result.error ≡ None) ↔ (ended.now.error ≡ case.now.error) }
{
    Differences {
        status: compare_status(ended.status, case.status),
        steady_status: compare_status(ended.steady_status, case.status),
        output: compare_bytes(ended.output.as_slice(), case.output.as_slice()),
        error: compare_bytes(ended.error.as_slice(), case.error.as_slice()),
    }
}

impl fmt::Display for Statuses {
    fn fmt<W: fmt::Write>(&self, f: &mut fmt::Formatter<W>) -> fmt::Result {
        let got = self.got;
        let wanted = self.wanted;
        write!(f, "status: got {got}, wanted {wanted}")
    }
}

impl fmt::Display for Place {
    fn fmt<W: fmt::Write>(&self, f: &mut fmt::Formatter<W>) -> fmt::Result {
        let index = self.index;
        write!(f, "at {index}: got ")?;
        write_byte(f, self.got)?;
        f.write_str(", wanted ")?;
        write_byte(f, self.wanted)
    }
}

fn write_byte<W: fmt::Write>(f: &mut fmt::Formatter<W>, byte: Option<u8>) -> fmt::Result {
    match byte {
        Some(byte) => write!(f, "{byte:02x}"),
        None => f.write_str("end"),
    }
}
