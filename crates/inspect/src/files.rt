//! The report on files.

ghost use Rattle.std.specs.Prelude.{◌≡◌, ◌++◌, codes, length, IfOk, OnOk};
ghost use Rattle.std.specs.Fmt.{decimal};
ghost use Rattle.inspect.specs.FileReports.{file_line, files_report};
ghost use Rattle.run_model.specs.OutcomeText.{line};

use ldv_value::{Bytes, Utf8};
use run_model::{Package, PackedFile};
use std::alloc::{AllocError, Global};
use trace_graph::append_numbered;

/// A line for each file of a package, by path: `whole LENGTH PATH` with the length in bytes, or `present
/// PATH` if the run only needed the file to be there.
pub fn files_text(alloc: Global, package: &Package) -> Result<Bytes, AllocError>
    ensures { IfOk result (λ text. text ≡ files_report «package».now.files) }
{
    let mut text = Bytes::new(alloc);
    append_files(&mut text, package.files.items())?;
    Ok(text)
}

fn append_files(to: &mut Bytes, files: &[PackedFile]) -> Result<(), AllocError>
    ensures { OnOk result (to.new ≡ to.old ++ files_report files.now) }
{
    for file in files {
        append_file(to, file)?;
    }
    Ok(())
}

fn append_file(to: &mut Bytes, file: &PackedFile) -> Result<(), AllocError>
    ensures { OnOk result (to.new ≡ to.old ++ file_line file.now) }
{
    match &file.content {
        None => append_present(to, &file.path),
        Some(bytes) => append_whole(to, &file.path, bytes),
    }
}

fn append_present(to: &mut Bytes, path: &Utf8) -> Result<(), AllocError>
    ensures { OnOk result (to.new ≡ to.old ++ line (codes "present " ++ path.now)) }
{
    to.extend(b"present ")?;
    to.extend(path.as_str().as_bytes())?;
    to.extend(b"\n")
}

fn append_whole(to: &mut Bytes, path: &Utf8, bytes: &Bytes) -> Result<(), AllocError>
    ensures { OnOk result (to.new
        ≡ to.old ++ line (codes "whole " ++ decimal (length bytes.now) ++ codes " " ++ path.now)) }
{
    append_numbered(to, b"whole ", bytes.len() as u64)?;
    to.extend(b" ")?;
    to.extend(path.as_str().as_bytes())?;
    to.extend(b"\n")
}
