//! Files by path.

ghost use Rattle.std.specs.Prelude.{◌≡◌, ◌++◌, [], OnOk, OnErr, IsTrue, is_some, unwrap_or, string_bytes};
ghost use Rattle.std.specs.Option.{option_map};
ghost use Rattle.ldv_value.specs.FileState.{content_in, put_file, remove_file};

use ldv_value::Bytes;
use std::alloc::{AllocError, Global};
use std::collections::BTreeMap;
use std::marker::Model;

/// Files by path. Contracts see the list of them, sorted by path.
#[derive(Drop)]
pub(crate) struct Contents {
    alloc: Global,
    files: BTreeMap<String, Bytes>,
}

impl Model for Contents {
    ghost use Rattle.std.specs.Prelude.{List as Items};
    ghost use Rattle.ldv_value.specs.declared.file.File.{File};
    ghost use Rattle.file_tree.specs.inner.Views.{files_in, files_code, map_by_bytes};

    ghost Value = { Items File };

    ghost coded = { files_code };

    ghost view = { λ a. files_in (map_by_bytes a.files.entries) };
}

impl Contents {
    /// No files. It takes no memory.
    pub(crate) fn new(alloc: Global) -> Self
        ensures { result ≡ [] }
    {
        Contents {
            alloc,
            files: BTreeMap::new(alloc),
        }
    }

    /// The bytes of the file at a path; `None` if there is none.
    pub(crate) fn get(&self, path: &str) -> Option<&[u8]>
        ensures { option_map (λ bytes. bytes.now) result ≡ content_in self.now path.now }
    {
        match self.files.get(path) {
            Some(content) => Some(content.as_slice()),
            None => None,
        }
    }

    /// Whether there is a file at a path.
    pub(crate) fn has(&self, path: &str) -> bool
        ensures { result ≡ is_some (content_in self.now path.now) }
    {
        self.files.contains_key(path)
    }

    /// Writes bytes at a path, and replaces the bytes that are there.
    pub(crate) fn put(&mut self, path: &str, bytes: Bytes) -> Result<(), AllocError>
        ensures ok { OnOk result (self.new ≡ put_file path.now bytes self.old) }
        ensures err { OnErr result (self.new ≡ self.old) }
    {
        let key = String::from_str(self.alloc, path)?;
        self.insert(key, bytes)
    }

    /// Like `put`, but takes the path itself, so that it makes no copy of it.
    pub(crate) fn insert(&mut self, path: String, bytes: Bytes) -> Result<(), AllocError>
        ensures ok { OnOk result (self.new ≡ put_file (string_bytes path) bytes self.old) }
        ensures err { OnErr result (self.new ≡ self.old) }
    {
        self.files.insert(path, bytes)?;
        Ok(())
    }

    /// Removes the file at a path.
    pub(crate) fn remove(&mut self, path: &str)
        ensures { self.new ≡ remove_file path.now self.old }
    {
        self.files.remove(path);
    }

    /// Appends bytes to the file at a path, and makes the file if it is absent.
    pub(crate) fn append(&mut self, path: &str, more: &[u8]) -> Result<(), AllocError>
        ensures ok { OnOk result (self.new
            ≡ put_file path.now (unwrap_or (content_in self.old path.now) [] ++ more.now) self.old) }
        ensures err { OnErr result (self.new ≡ self.old) }
    {
        if self.has(path) {
            self.extend(path, more)
        } else {
            let bytes = Bytes::of_slice(self.alloc, more)?;
            self.put(path, bytes)
        }
    }

    // Appends bytes to the file at a path, which exists, in the file's own memory.
    fn extend(&mut self, path: &str, more: &[u8]) -> Result<(), AllocError>
        requires { IsTrue (is_some (content_in self.old path.now)) }
        ensures ok { OnOk result (self.new
            ≡ put_file path.now (unwrap_or (content_in self.old path.now) [] ++ more.now) self.old) }
        ensures err { OnErr result (self.new ≡ self.old) }
    {
        match self.files.get_mut(path) {
            Some(content) => content.extend(more),
            None => unreachable!(),
        }
    }
}
