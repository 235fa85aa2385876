//! A set of paths.

ghost use Rattle.std.specs.Prelude.{◌≡◌, ℕ, List as Items, [], true, not, bytes_eq, IfOk, OnErr, OnOk};
ghost use Rattle.std.specs.List.{list_any, filter};
ghost use Rattle.ldv_value.specs.FileState.{add_path};
ghost use Rattle.ldv_value.specs.Sorted.{is_strictly_sorted, text_precedes};

use ldv_value::{Paths, Utf8};
use std::alloc::{AllocError, Global};
use std::collections::BTreeSet;
use std::marker::Model;

/// A set of paths. Contracts see the list of them, sorted.
#[derive(Drop)]
pub(crate) struct Marks {
    alloc: Global,
    paths: BTreeSet<String>,
}

impl Model for Marks {
    ghost use Rattle.std.specs.Prelude.{List as Items, ℕ};
    ghost use Rattle.std.specs.Coded.{coded_list, coded_ℕ};
    ghost use Rattle.file_tree.specs.inner.Views.{paths_in, set_by_bytes};

    ghost Value = { Items (Items ℕ) };

    ghost coded = { coded_list (coded_list coded_ℕ) };

    ghost view = { λ a. paths_in (set_by_bytes a.paths.keys) };
}

impl Marks {
    pub(crate) fn new(alloc: Global) -> Self
        ensures { result ≡ [] }
    {
        Marks {
            alloc,
            paths: BTreeSet::new(alloc),
        }
    }

    /// Adds a path, and returns whether it is new. On `AllocError` the set is as it was.
    pub(crate) fn add(&mut self, path: &str) -> Result<bool, AllocError>
        ensures ok { OnOk result (self.new ≡ add_path path.now self.old) }
        ensures added { IfOk result (λ added. added ≡ not (list_any (bytes_eq path.now) self.old)) }
        ensures err { OnErr result (self.new ≡ self.old) }
    {
        let key = String::from_str(self.alloc, path)?;
        let added = self.paths.insert(key)?;
        Ok(added)
    }

    /// Undoes the last `add`, which added the path and returned `added`.
    pub(crate) fn take_back(&mut self, path: &str, added: bool)
        ensures { (before : Items (Items ℕ)) → is_strictly_sorted text_precedes before ≡ true
            → self.old ≡ add_path path.now before
            → added ≡ not (list_any (bytes_eq path.now) before) → self.new ≡ before }
    {
        if added {
            self.remove(path);
        }
    }

    // Removes a path.
    fn remove(&mut self, path: &str)
        ensures { self.new ≡ filter (λ p. not (bytes_eq path.now p)) self.old }
    {
        self.paths.remove(path);
    }

    /// The paths, sorted.
    pub(crate) fn list(&self) -> Result<Paths, AllocError>
        ensures { IfOk result (λ paths. paths ≡ self.now) }
    {
        let mut paths = Paths::new(self.alloc);
        for path in self.paths.iter() {
            paths.push(Utf8::of(self.alloc, path.as_str())?)?;
        }
        Ok(paths)
    }
}
