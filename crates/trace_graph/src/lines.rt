//! The lines of reports on nodes, except processes, since each report names these in its own way.

ghost use Rattle.std.specs.Prelude.{◌≡◌, ◌++◌, codes, OnOk};
ghost use Rattle.std.specs.Fmt.{decimal};
ghost use Rattle.run_model.specs.OutcomeText.{line};
ghost use Rattle.trace_graph.specs.NodeLines.{version_text};

use ldv_value::{Bytes, append_number};
use std::alloc::AllocError;

/// Appends a word that ends in a blank, and a number in decimal digits.
pub fn append_numbered(to: &mut Bytes, word: &[u8], number: u64) -> Result<(), AllocError>
    ensures { OnOk result (to.new ≡ to.old ++ (word.now ++ decimal number)) }
{
    to.extend(word)?;
    append_number(number, to)
}

/// Appends the line of a path.
pub fn append_path(to: &mut Bytes, path: &str) -> Result<(), AllocError>
    ensures { OnOk result (to.new ≡ to.old ++ line (codes "path " ++ path.now)) }
{
    to.extend(b"path ")?;
    to.extend(path.as_bytes())?;
    to.extend(b"\n")
}

/// Appends the line of a row at a version.
pub fn append_version(to: &mut Bytes, table: &str, row: u32, version: u32) -> Result<(), AllocError>
    ensures { OnOk result (to.new ≡ to.old ++ line (codes "row "
        ++ version_text (record { table = table.now; row = row; version = version }))) }
{
    to.extend(b"row ")?;
    to.extend(table.as_bytes())?;
    append_numbered(to, b" ", row as u64)?;
    append_numbered(to, b" ", version as u64)?;
    to.extend(b"\n")
}

/// Appends a line: a word that ends in a blank, a number in decimal digits, and LF.
pub fn append_number_line(to: &mut Bytes, word: &[u8], number: u32) -> Result<(), AllocError>
    ensures { OnOk result (to.new ≡ to.old ++ line (word.now ++ decimal number)) }
{
    append_numbered(to, word, number as u64)?;
    to.extend(b"\n")
}
