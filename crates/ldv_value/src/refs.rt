//! A list of references, which contracts see as the list of the items.

ghost use Rattle.std.specs.Prelude.{◌≡◌, ◌++◌, ◌∷◌, [], map, take, length, IfOk, OnErr, OnOk};

use std::alloc::{AllocError, Global};
use std::marker::Model;

/// References to items that are stored elsewhere, in order.
#[derive(Drop)]
pub struct Refs<'a, X> {
    held: Vec<&'a X>,
}

impl<'a, X> Model for Refs<'a, X> {
    ghost use Rattle.std.specs.Prelude.{List as Items, map};
    ghost use Rattle.std.specs.Coded.{coded_list};

    ghost Value = { Items X };

    ghost coded = { coded_list X.code };

    ghost view = { λ a. map (λ r. r.now) a.held.items };
}

impl<'a, X> Refs<'a, X> {
    /// The empty list. It takes no memory.
    pub fn new(alloc: Global) -> Refs<'a, X>
        ensures { result ≡ [] }
    {
        Refs {
            held: Vec::new(alloc),
        }
    }

    /// The number of references.
    pub fn len(&self) -> usize
        ensures { result ≡ length self.now }
    {
        self.held.len()
    }

    /// The references, for loops.
    pub fn items(&self) -> &[&'a X]
        ensures { map (λ r. r.now) result.now ≡ self.now }
    {
        self.held.as_slice()
    }

    /// Appends a reference. On `AllocError` the list is as it was.
    pub fn push(&mut self, item: &'a X) -> Result<(), AllocError>
        ensures ok { OnOk result (self.new ≡ self.old ++ item.now ∷ []) }
        ensures err { OnErr result (self.new ≡ self.old) }
    {
        self.held.push(item)?;
        Ok(())
    }

    /// A copy with one more reference at the end.
    pub fn with_item(&self, item: &'a X) -> Result<Refs<'a, X>, AllocError>
        ensures { IfOk result (λ made. made ≡ self.now ++ item.now ∷ []) }
    {
        let count = self.held.len().saturating_add(1);
        let mut held = Vec::with_capacity(*self.held.allocator(), count)?;
        held.extend_from_slice(self.held.as_slice())?;
        held.push(item)?;
        Ok(Refs { held })
    }
}
