//! The tree: files by path, and the touched paths.

ghost use Rattle.std.specs.Prelude.{◌≡◌, ◌≢◌, ◌+◌, ◌<◌, ◌≤◌, ◌↔◌, ◌^◌, true, false, [], drop, length};
ghost use Rattle.std.specs.Prelude.{IfOk, IfSome, OnOk, OnErr, IsTrue};
ghost use Rattle.std.specs.List.{All, list_all};
ghost use Rattle.std.specs.Option.{option_map};
ghost use Rattle.ldv_value.specs.Limits.{file_limit};
ghost use Rattle.ldv_value.specs.Names.{path_test};
ghost use Rattle.ldv_value.specs.Sorted.{is_strictly_sorted, text_precedes};
ghost use Rattle.ldv_value.specs.FileState.{IsFile, file_precedes, put_file, add_path};
ghost use Rattle.ldv_value.specs.FileState.{content_at, is_there, bytes_at, rest_at, initial_files, put};
ghost use Rattle.ldv_value.specs.FileState.{touch};
ghost use Rattle.ldv_value.specs.FileState.{NotFound, AlreadyExists, open_refusal, after_open, after_remove};
ghost use Rattle.ldv_value.specs.FileState.{after_append, after_copy, copy_end, read_line};
ghost use Rattle.file_tree.specs.inner.Views.{stop_of};
ghost use Rattle.file_tree.specs.Files.{files_from};

use crate::contents::Contents;
use crate::error::{AppendStop, TreeStop};
use crate::line::read_at;
use crate::marks::Marks;
use ldv_value::{Bytes, FILE_LIMIT, File, Files, LineRead, OpenMode, Paths};
use std::alloc::{AllocError, Global};
use std::marker::Model;

/// Files by path, and which paths were touched. Contracts see a `FileState`.
#[derive(Drop)]
pub struct Tree {
    alloc: Global,
    files: Contents,
    touched: Marks,
}

impl Model for Tree {
    ghost use Rattle.ldv_value.specs.FileState.{FileState, IsFileState};
    ghost use Rattle.file_tree.specs.inner.Views.{state_code};

    ghost Value = { FileState };

    ghost coded = { state_code };

    ghost view = { λ a. record { files = a.files; touched = a.touched } };

    ghost invariant = { λ a. IsFileState (record { files = a.files; touched = a.touched }) };
}

impl Tree {
    /// The tree of these files, with no path touched. The caller gives valid paths and at most `FILE_LIMIT`
    /// bytes for each file. If two files have one path, the tree keeps the first.
    #[tactic(auto, using(crate::proofs::Seen::files_as_given))]
    pub fn of_files(alloc: Global, files: Files) -> Result<Tree, AllocError>
        requires { All (λ f. IsFile f.path f.content) files }
        ensures tree { IfOk result (λ tree. tree ≡ initial_files (files_from files)) }
        ensures sorted { is_strictly_sorted file_precedes files ≡ true
            → IfOk result (λ tree. tree ≡ initial_files files) }
    {
        Ok(Tree {
            alloc,
            files: contents_of(alloc, files)?,
            touched: Marks::new(alloc),
        })
    }

    /// Opens a valid path (`is_path`): `Read` needs the file, `New` needs it absent, `Write` empties or makes
    /// it, `Append` keeps or makes it. Each but `Read` touches the path. `Absent` comes exactly if `Read`
    /// finds no file, and `Taken` exactly if `New` finds one. After an `Err` the tree is as it was.
    pub fn open_path(&mut self, mode: OpenMode, path: &str) -> Result<(), TreeStop>
        requires { IsTrue (path_test path.now) }
        ensures ok { OnOk result (self.new ≡ after_open mode self.old path.now) }
        ensures allowed { OnOk result (open_refusal mode (is_there self.old path.now) ≡ None) }
        ensures absent { (result ≡ Err TreeStop.Absent)
            ↔ (open_refusal mode (is_there self.old path.now) ≡ Some NotFound) }
        ensures taken { (result ≡ Err TreeStop.Taken)
            ↔ (open_refusal mode (is_there self.old path.now) ≡ Some AlreadyExists) }
        ensures err { OnErr result (self.new ≡ self.old) }
    {
        match refusal(mode, self.exists(path)) {
            Some(stop) => Err(stop),
            None => {
                self.open(mode, path)?;
                Ok(())
            }
        }
    }

    /// Reads the line at a place in a file, in bytes from 0: up to the next LF or to the end, without the LF.
    /// The place may lie within a line or past the end.
    pub fn read_line(&self, path: &str, at: u32) -> Result<LineRead, AllocError>
        ensures { IfOk result (λ read. read ≡ read_line self.now path.now at) }
    {
        match self.state(path) {
            Some(bytes) => read_at(self.alloc, bytes, at),
            None => Ok(LineRead::End),
        }
    }

    /// Appends bytes to the file at a valid path, and makes the file if it is absent. It touches no path.
    /// `TooLong` comes exactly if the file would be longer than `FILE_LIMIT`. After an `Err` the tree is as
    /// it was.
    pub fn append(&mut self, path: &str, bytes: &[u8]) -> Result<(), AppendStop>
        requires { IsTrue (path_test path.now) }
        ensures ok { OnOk result (self.new ≡ after_append self.old path.now bytes.now) }
        ensures within { OnOk result
            (length (bytes_at self.old path.now) + length bytes.now ≤ file_limit) }
        ensures too_long { (result ≡ Err AppendStop.TooLong)
            ↔ (file_limit < length (bytes_at self.old path.now) + length bytes.now) }
        ensures err { OnErr result (self.new ≡ self.old) }
    {
        if bytes.len() > FILE_LIMIT - self.size(path) {
            return Err(AppendStop::TooLong);
        }
        self.extend(path, bytes)?;
        Ok(())
    }

    /// Appends the bytes of a file from a place on to another or the same file, and returns the place after
    /// the copied bytes. An absent file counts as empty, a place past the end has no bytes, and an absent
    /// target, whose path is valid, is made. It touches no path. Errors are as for `append`.
    pub fn copy_rest(&mut self, from: &str, at: u32, to: &str) -> Result<u32, AppendStop>
        requires { IsTrue (path_test to.now) }
        ensures ok { OnOk result (self.new ≡ after_copy self.old from.now at to.now) }
        ensures place { IfOk result (λ next. next ≡ copy_end self.old from.now at) }
        ensures within { OnOk result
            (length (bytes_at self.old to.now) + length (rest_at self.old from.now at) ≤ file_limit) }
        ensures too_long { (result ≡ Err AppendStop.TooLong)
            ↔ (file_limit < length (bytes_at self.old to.now) + length (rest_at self.old from.now at)) }
        ensures err { OnErr result (self.new ≡ self.old) }
    {
        let size = self.rest_size(from, at);
        if size > FILE_LIMIT - self.size(to) {
            return Err(AppendStop::TooLong);
        }
        let rest = self.rest(from, at)?;
        self.extend(to, rest.as_slice())?;
        Ok(at + size as u32)
    }

    /// Removes a file and touches its path. `Absent` comes exactly if there is no file, `NoMemory` if the
    /// touched path can't be stored, and `Taken` never. After an `Err` the tree is as it was.
    pub fn remove(&mut self, path: &str) -> Result<(), TreeStop>
        ensures ok { OnOk result (self.new ≡ after_remove self.old path.now) }
        ensures there { OnOk result (IsTrue (is_there self.old path.now)) }
        ensures absent { (result ≡ Err TreeStop.Absent) ↔ (is_there self.old path.now ≡ false) }
        ensures not_taken { result ≢ Err TreeStop.Taken }
        ensures err { OnErr result (self.new ≡ self.old) }
    {
        if self.exists(path) {
            self.touched.add(path)?;
            self.files.remove(path);
            Ok(())
        } else {
            Err(TreeStop::Absent)
        }
    }

    /// Whether there is a file at a path. It takes no memory.
    pub fn exists(&self, path: &str) -> bool
        ensures { result ≡ is_there self.now path.now }
    {
        self.files.has(path)
    }

    /// The bytes of a file, at most `FILE_LIMIT`; `None` exactly if there is no file at the path. It takes no
    /// memory.
    pub fn state(&self, path: &str) -> Option<&[u8]>
        ensures content { option_map (λ bytes. bytes.now) result ≡ content_at self.now path.now }
        ensures within { IfSome result (λ bytes. length bytes.now ≤ file_limit) }
    {
        self.files.get(path)
    }

    /// The touched paths, sorted by their bytes.
    pub fn touched(&self) -> Result<Paths, AllocError>
        ensures paths { IfOk result (λ paths. paths ≡ self.now.touched) }
        ensures sorted { IfOk result (λ paths. IsTrue (is_strictly_sorted text_precedes paths)) }
        ensures valid { IfOk result (λ paths. IsTrue (list_all path_test paths)) }
    {
        self.touched.list()
    }

    // Opens a path where that isn't refused.
    fn open(&mut self, mode: OpenMode, path: &str) -> Result<(), AllocError>
        requires { IsTrue (path_test path.now) }
        ensures ok { OnOk result (self.new ≡ after_open mode self.old path.now) }
        ensures err { OnErr result (self.new ≡ self.old) }
    {
        match mode {
            OpenMode::Read => Ok(()),
            OpenMode::Write => self.make(path),
            OpenMode::Append => self.keep(path),
            OpenMode::New => self.make(path),
        }
    }

    // Empties or makes a file, and touches its path.
    fn make(&mut self, path: &str) -> Result<(), AllocError>
        requires { IsTrue (path_test path.now) }
        ensures ok { OnOk result (self.new ≡ touch (put self.old path.now []) path.now) }
        ensures err { OnErr result (self.new ≡ self.old) }
    {
        let empty = Bytes::new(self.alloc);
        put_touched(&mut self.files, &mut self.touched, path, empty)?;
        Ok(())
    }

    // Keeps or makes a file, and touches its path.
    fn keep(&mut self, path: &str) -> Result<(), AllocError>
        requires { IsTrue (path_test path.now) }
        ensures ok { OnOk result
            (self.new ≡ touch (put self.old path.now (bytes_at self.old path.now)) path.now) }
        ensures err { OnErr result (self.new ≡ self.old) }
    {
        if self.exists(path) {
            self.touched.add(path)?;
            Ok(())
        } else {
            self.make(path)
        }
    }

    // How many bytes a file has.
    fn size(&self, path: &str) -> usize
        ensures size { result ≡ length (bytes_at self.now path.now) }
        ensures within { result ≤ file_limit }
    {
        match self.state(path) {
            Some(bytes) => bytes.len(),
            None => 0,
        }
    }

    // How many bytes a file has from a place on.
    fn rest_size(&self, path: &str, at: u32) -> usize
        ensures size { result ≡ length (rest_at self.now path.now at) }
        ensures fits { at + result < 2 ^ 32 }
    {
        self.size(path).saturating_sub(at as usize)
    }

    // The bytes of a file from a place on.
    fn rest(&self, path: &str, at: u32) -> Result<Bytes, AllocError>
        ensures { IfOk result (λ bytes. bytes ≡ rest_at self.now path.now at) }
    {
        match self.state(path) {
            Some(bytes) => Bytes::of_slice(self.alloc, rest_of(bytes, at as usize)),
            None => Ok(Bytes::new(self.alloc)),
        }
    }

    // Appends bytes to a file that stays within the limit.
    fn extend(&mut self, path: &str, bytes: &[u8]) -> Result<(), AllocError>
        requires valid { IsTrue (path_test path.now) }
        requires fits { length (bytes_at self.old path.now) + length bytes.now ≤ file_limit }
        ensures ok { OnOk result (self.new ≡ after_append self.old path.now bytes.now) }
        ensures err { OnErr result (self.new ≡ self.old) }
    {
        self.files.append(path, bytes)?;
        Ok(())
    }
}

// Puts bytes at a path, and touches it.
fn put_touched(
    files: &mut Contents,
    touched: &mut Marks,
    path: &str,
    bytes: Bytes,
) -> Result<(), AllocError>
    requires { is_strictly_sorted text_precedes touched.old ≡ true }
    ensures files { OnOk result (files.new ≡ put_file path.now bytes files.old) }
    ensures touched { OnOk result (touched.new ≡ add_path path.now touched.old) }
    ensures files_err { OnErr result (files.new ≡ files.old) }
    ensures touched_err { OnErr result (touched.new ≡ touched.old) }
{
    let added = touched.add(path)?;
    match files.put(path, bytes) {
        Ok(()) => Ok(()),
        Err(error) => {
            touched.take_back(path, added);
            Err(error)
        }
    }
}

// Why an open is refused.
fn refusal(mode: OpenMode, found: bool) -> Option<TreeStop>
    ensures { result ≡ option_map stop_of (open_refusal mode found) }
{
    match (mode, found) {
        (OpenMode::Read, false) => Some(TreeStop::Absent),
        (OpenMode::New, true) => Some(TreeStop::Taken),
        (_, _) => None,
    }
}

// The bytes from a place on.
fn rest_of(bytes: &[u8], at: usize) -> &[u8]
    ensures { result.now ≡ drop at bytes.now }
{
    if at < bytes.len() { &bytes[at..] } else { &[] }
}

// Files by path, put in from the last to the first, so that of two at one path the first is kept.
fn contents_of(alloc: Global, files: Files) -> Result<Contents, AllocError>
    ensures { IfOk result (λ contents. contents ≡ files_from files) }
{
    let mut contents = Contents::new(alloc);
    let mut left = files.into_vec();
    while let Some(file) = left.pop() {
        let File { path, content } = file;
        contents.insert(path.into_string(), content)?;
    }
    Ok(contents)
}
