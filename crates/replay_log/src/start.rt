//! The first script of a package.

ghost use Rattle.std.specs.Prelude.{◌≡◌, Some, bytes_eq, find, IfOk, IsSome};
ghost use Rattle.std.specs.Option.{option_map};
ghost use Rattle.run_model.specs.Package.{or_empty, own_world};
ghost use Rattle.run_model.specs.Start.{start_script};
ghost use Rattle.replay_log.specs.inner.Starts.{packed_start};

use ldv_value::{Bytes, Utf8};
use run_model::{Package, PackedFile, PackedFiles};
use script_parse::{Script, known_script};
use std::alloc::{AllocError, Global};

fn find_file<'a>(files: &'a PackedFiles, path: &Utf8) -> Option<&'a PackedFile>
    ensures { option_map (λ f. f.now) result ≡ find (λ f. bytes_eq path.now f.path) files.now }
{
    files.items().iter().find(|file| *path == file.path)
}

// The file that the first start word names.
fn start_file(package: &Package) -> Option<&PackedFile>
    ensures { option_map (λ f. f.now) result ≡ packed_start «package».now }
{
    match package.start.get(0) {
        None => None,
        Some(word) => find_file(&package.files, word),
    }
}

// The bytes that a file has in the package's own world.
fn own_bytes(content: &Option<Bytes>) -> &[u8]
    ensures { result.now ≡ or_empty content.now }
{
    match content {
        None => &[],
        Some(bytes) => bytes.as_slice(),
    }
}

/// The script of the file at the first start word.
pub(crate) fn parse_start(alloc: Global, package: &Package) -> Result<Script, AllocError>
    requires { IsSome (start_script (own_world «package».now)) }
    ensures { IfOk result (λ script. start_script (own_world «package».now) ≡ Some script.instructions) }
{
    match start_file(package) {
        None => unreachable!(),
        Some(file) => known_script(alloc, own_bytes(&file.content)),
    }
}
