//! Text: a `String` that contracts see as the list of its bytes.

ghost use Rattle.std.specs.Prelude.{◌≡◌, ◌==◌, ◌++◌, ◌↔◌, [], string_bytes, length, nat_eq};
ghost use Rattle.std.specs.Prelude.{IsTrue, IfOk, OnOk, OnErr, MatchOption, Some, None, refl};
ghost use Rattle.std.specs.Ordering.{nat_cmp};
ghost use Rattle.std.specs.Cmp.{partial_equiv_from_equiv};
ghost use Rattle.std.specs.Cmp.Lexicographic.{pointwise, slice_cmp, nat_list_eq_equiv, nat_list_cmp_total};
ghost use Rattle.std.specs.Cmp.Lexicographic.{texts_ties, texts_po};
ghost use Rattle.std.specs.Cmp.Rules.{hashing};
ghost use Rattle.std.specs.Hash as fed;
ghost use Rattle.std.proofs.Common.{rules};
ghost use Rattle.ldv_value.specs.Texts.{text_of};

use crate::Bytes;
use crate::list::CopyItem;
use std::alloc::{AllocError, Global};
use std::cmp::Ordering;
use std::hash::{Hash, Hasher};
use std::marker::Model;

/// A text in UTF-8.
#[derive(Drop)]
pub struct Utf8 {
    text: String,
}

impl Model for Utf8 {
    ghost use Rattle.std.specs.Prelude.{List, ℕ, string_bytes};

    ghost Value = { List ℕ };

    ghost view = { λ a. string_bytes a.text };
}

impl Utf8 {
    /// The empty text. It takes no memory.
    pub fn new(alloc: Global) -> Self
        ensures { result ≡ [] }
    {
        Utf8 {
            text: String::new(alloc),
        }
    }

    /// A text equal to another.
    pub fn of(alloc: Global, text: &str) -> Result<Self, AllocError>
        ensures { IfOk result (λ made. made ≡ text.now) }
    {
        Ok(Utf8 {
            text: String::from_str(alloc, text)?,
        })
    }

    /// The text of a `String`, in its own memory.
    pub fn of_string(text: String) -> Self
        ensures { result ≡ string_bytes text }
    {
        Utf8 { text }
    }

    /// Bytes as a text, in their own memory; `None` if they aren't UTF-8.
    #[tactic(auto, using(crate::proofs::Utf8Parts::text_rules))]
    pub fn of_utf8(bytes: Bytes) -> Option<Utf8>
        ensures { MatchOption result (text_of bytes ≡ None) (λ text. text_of bytes ≡ Some text) }
    {
        match String::from_utf8(bytes.into_vec()) {
            Ok(text) => Some(Utf8::of_string(text)),
            Err(_) => None,
        }
    }

    /// The text as a `String`, in its own memory.
    pub fn into_string(self) -> String
        ensures { string_bytes result ≡ self }
    {
        let Utf8 { text } = self;
        text
    }

    /// The allocator that the text keeps.
    pub fn allocator(&self) -> Global {
        *self.text.allocator()
    }

    /// The number of bytes.
    pub fn len(&self) -> usize
        ensures { result ≡ length self.now }
    {
        self.text.len()
    }

    /// Whether there is no byte.
    pub fn is_empty(&self) -> bool
        ensures { result ≡ (length self.now == 0) }
    {
        self.text.as_str().is_empty()
    }

    /// The text as a slice.
    pub fn as_str(&self) -> &str
        ensures { result.now ≡ self.now }
    {
        self.text.as_str()
    }

    /// Appends a text. On `AllocError` the text is as it was.
    pub fn push_str(&mut self, text: &str) -> Result<(), AllocError>
        ensures ok { OnOk result (self.new ≡ self.old ++ text.now) }
        ensures err { OnErr result (self.new ≡ self.old) }
    {
        self.text.push_str(text)
    }

    /// A copy that is equal to the text.
    pub fn copy(&self) -> Result<Self, AllocError>
        ensures { IfOk result (λ copy. copy ≡ self.now) }
    {
        Utf8::of(*self.text.allocator(), self.text.as_str())
    }

    /// Whether the text is equal to another.
    pub fn is_text(&self, other: &str) -> bool
        ensures same { IsTrue result ↔ (self.now ≡ other.now) }
        ensures test { result ≡ pointwise nat_eq self.now other.now }
    {
        self.as_str() == other
    }
}

impl CopyItem for Utf8 {
    fn copy_item(&self, _alloc: Global) -> Result<Self, AllocError> {
        self.copy()
    }
}

// Texts are compared by their bytes.

impl PartialEq for Utf8 {
    ghost eq = { pointwise nat_eq };

    ghost laws = { partial_equiv_from_equiv nat_list_eq_equiv };

    fn eq(&self, other: &Utf8) -> bool {
        self.as_str() == other.as_str()
    }
}

impl Eq for Utf8 {
    ghost laws = { nat_list_eq_equiv };
}

impl PartialOrd for Utf8 {
    ghost partial_cmp = { λ x y. Some (slice_cmp nat_cmp x y) };

    ghost laws = { texts_po };

    fn partial_cmp(&self, other: &Utf8) -> Option<Ordering> {
        Some(self.cmp(other))
    }
}

impl Ord for Utf8 {
    ghost cmp = { slice_cmp nat_cmp };

    ghost total = { nat_list_cmp_total };

    ghost matches_partial_cmp = { λ x y. refl };

    ghost matches_eq = { texts_ties };

    fn cmp(&self, other: &Utf8) -> Ordering {
        self.as_str().cmp(other.as_str())
    }
}

impl Hash for Utf8 {
    ghost hash_input = { fed.str };

    ghost respects_eq = { Prim.search (hashing, rules) };

    fn hash<H: Hasher>(&self, state: &mut H) {
        self.as_str().hash(state);
    }
}
