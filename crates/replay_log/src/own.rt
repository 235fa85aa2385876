//! The own files of a package.

ghost use Rattle.std.specs.Prelude.{◌≡◌, ◌++◌, map, IfOk};
ghost use Rattle.run_model.specs.Package.{or_empty, own_file};

use ldv_value::{Bytes, File, Files};
use run_model::{PackedFile, PackedFiles};
use std::alloc::{AllocError, Global};

fn or_empty(alloc: Global, content: Option<Bytes>) -> Bytes
    ensures { result ≡ or_empty content }
{
    match content {
        None => Bytes::new(alloc),
        Some(bytes) => bytes,
    }
}

fn own_file(alloc: Global, file: PackedFile) -> File
    ensures { result ≡ own_file file }
{
    let PackedFile { path, content } = file;
    File {
        path,
        content: or_empty(alloc, content),
    }
}

/// The files of a package's own world: a present one is empty.
pub(crate) fn own_files(alloc: Global, packed: PackedFiles) -> Result<Files, AllocError>
    ensures { IfOk result (λ files. files ≡ map own_file packed) }
{
    let mut files = Files::with_capacity(alloc, packed.len())?;
    for file in packed.into_vec() {
        files.push(own_file(alloc, file))?;
    }
    Ok(files)
}
