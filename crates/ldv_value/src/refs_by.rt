//! References under keys.

ghost use Rattle.std.specs.Prelude.{◌≡◌, [], OnErr, OnOk, unwrap_or};
ghost use Rattle.std.specs.Option.{option_map};
ghost use Rattle.ldv_value.specs.Listing.{listed, item_added};

use crate::refs::Refs;
use std::alloc::{AllocError, Global};
use std::cmp::Ord;
use std::collections::BTreeMap;

/// References to items that are stored elsewhere, each under a key. Those of one key are in the order of
/// their addition.
#[derive(Drop)]
pub struct RefsBy<'a, K: Ord, X> {
    alloc: Global,
    map: BTreeMap<K, Refs<'a, X>>,
}

impl<'a, K: Ord + Drop, X> RefsBy<'a, K, X> {
    /// No references under any key. It takes no memory.
    pub fn new(alloc: Global) -> RefsBy<'a, K, X>
        ensures { (key : K) → listed K.cmp result key ≡ [] }
    {
        RefsBy {
            alloc,
            map: BTreeMap::new(alloc),
        }
    }

    /// The references under a key, in the order of their addition; `None` if there are none.
    pub fn get(&self, key: &K) -> Option<&Refs<'a, X>>
        ensures { unwrap_or (option_map (λ r. r.now) result) [] ≡ listed K.cmp self.now key.now }
    {
        self.map.get(key)
    }

    /// Appends a reference to those under a key. On `AllocError` the references under each key are as they
    /// were.
    pub fn add(&mut self, key: K, item: &'a X) -> Result<(), AllocError>
        ensures ok { OnOk result ((other : K) → listed K.cmp self.new other
            ≡ item_added K.cmp key item.now other (listed K.cmp self.old other)) }
        ensures err { OnErr result ((other : K) → listed K.cmp self.new other ≡ listed K.cmp self.old other) }
    {
        match self.map.get_mut(&key) {
            Some(items) => items.push(item),
            None => self.add_first(key, item),
        }
    }

    // Puts the first reference under a key.
    fn add_first(&mut self, key: K, item: &'a X) -> Result<(), AllocError>
        requires { listed K.cmp self.old key ≡ [] }
        ensures ok { OnOk result ((other : K) → listed K.cmp self.new other
            ≡ item_added K.cmp key item.now other (listed K.cmp self.old other)) }
        ensures err { OnErr result ((other : K) → listed K.cmp self.new other ≡ listed K.cmp self.old other) }
    {
        let mut items = Refs::new(self.alloc);
        items.push(item)?;
        match self.map.insert(key, items) {
            Ok(_) => Ok(()),
            Err(_) => Err(AllocError),
        }
    }
}
