//! Two packages joined by calls that no command makes: of references, and back from bytes with all events.

ghost use Rattle.std.specs.Prelude.{IfOk};
ghost use Rattle.package_layout.specs.Valid.{IsValidPackage};

use crate::recorded::recorded_package;
use joined_data::{Joined, Which};
use ldv_value::Bytes;
use package_join::{join, joined_world, read_joined, run_of, spell_joined};
use package_layout::spell;
use run_model::{Mode, Package};
use sql_model::Table;
use std::alloc::{AllocError, Global};
use std::process::Abort;
use std::test::Fail;

// One world with two scripts, of which the first needs the row 0, and the second the rows 0 and 1.
const FILES: &str = r#""],"files":{"main":"sql q \"SELECT v FROM t WHERE k = 1\"\n",
"other":"sql q \"SELECT g FROM t WHERE k < 3\"\n"},
"tables":{"t":{"columns":[["k","INT NOT NULL"],["g","TEXT"],["v","INT"]],"key":["k"],"next":5,
"rows":[[1,"a",10],[2,"a",20],[3,"b",5],[4,"b",null],[5,"c",10]]}}}"#;

// A package with its length before it, in the last four of eight bytes.
fn append_sized(pair: &mut Vec<u8>, package: &[u8]) -> Result<(), AllocError> {
    let length = (package.len() as u64).to_be_bytes();
    pair.extend_from_slice(&length[4..])?;
    pair.extend_from_slice(package)
}

fn append_twice(pair: &mut Vec<u8>, package: &[u8]) -> Result<(), AllocError> {
    append_sized(pair, package)?;
    append_sized(pair, package)
}

/// The input of `join` for a package and the same package again.
pub(crate) fn twice(alloc: Global, package: &[u8]) -> Result<Vec<u8>, AllocError> {
    let mut pair = Vec::new(alloc);
    append_twice(&mut pair, package)?;
    Ok(pair)
}

fn push_document(text: &mut String, start: &str) -> Result<(), AllocError> {
    text.push_str(r#"{"start":[""#)?;
    text.push_str(start)?;
    text.push_str(FILES)
}

fn document(alloc: Global, start: &str) -> Result<String, AllocError> {
    let mut text = String::new(alloc);
    push_document(&mut text, start)?;
    Ok(text)
}

fn package_of(rt: &impl Abort, alloc: Global, start: &str) -> Result<Package, AllocError>
    ensures { IfOk result (λ p. IsValidPackage p) }
{
    let text = document(alloc, start)?;
    recorded_package(rt, alloc, text.as_str())
}

fn joined_two(
    rt: &impl Abort,
    alloc: Global,
    a: &Package,
    b: &Package,
) -> Result<Joined, AllocError>
    requires first { IsValidPackage a.now }
    requires second { IsValidPackage b.now }
{
    match a.mode {
        Mode::Included => match b.mode {
            Mode::Included => match join(alloc, a, b) {
                Ok(joined) => Ok(joined),
                Err(_) => panic!(rt; "they clash"),
            },
            Mode::Excluded => panic!(rt; "no rows"),
        },
        Mode::Excluded => panic!(rt; "no rows"),
    }
}

fn spelling_of(rt: &impl Abort, alloc: Global, package: &Package) -> Bytes {
    match spell(alloc, package) {
        Ok(bytes) => bytes,
        Err(stop) => panic!(rt; "{stop:?}"),
    }
}

fn bytes_of(rt: &impl Abort, alloc: Global, joined: &Joined) -> Bytes {
    match spell_joined(alloc, joined) {
        Ok(bytes) => bytes,
        Err(stop) => panic!(rt; "{stop:?}"),
    }
}

fn has_two_rows(tables: &[Table]) -> bool {
    match tables {
        [table] => table.rows.len() == 2,
        _ => false,
    }
}

// The counts that the description of the two worlds gives, by hand.
fn has_both(joined: &Joined) -> bool {
    has_two_rows(joined.tables.items())
        && joined.files.len() == 2
        && joined.first.reasons.len() == 1
        && joined.second.reasons.len() == 2
}

fn has_first_world(alloc: Global, joined: &Joined) -> Result<bool, AllocError> {
    let world = joined_world(alloc, joined, Which::First)?;
    Ok(world.files.len() == 2 && world.tables.len() == 1)
}

fn is_spelled(rt: &impl Abort, alloc: Global, package: &Package, bytes: &[u8]) -> bool {
    spelling_of(rt, alloc, package).as_slice() == bytes
}

fn are_spelled_alike(rt: &impl Abort, alloc: Global, a: &Package, b: &Package) -> bool {
    let bytes = spelling_of(rt, alloc, b);
    is_spelled(rt, alloc, a, bytes.as_slice())
}

// Whether a run of what is joined is that of a package.
fn is_run_of(
    rt: &impl Abort,
    alloc: Global,
    joined: &Joined,
    which: Which,
    package: &Package,
) -> Result<bool, AllocError> {
    let run = run_of(alloc, joined, which)?;
    Ok(are_spelled_alike(rt, alloc, &run, package))
}

fn is_joined_of(
    rt: &impl Abort,
    alloc: Global,
    joined: &Joined,
    a: &Package,
    b: &Package,
) -> Result<bool, AllocError> {
    Ok(
        is_run_of(rt, alloc, joined, Which::First, a)?
            && is_run_of(rt, alloc, joined, Which::Second, b)?,
    )
}

fn joined_of_bytes(rt: &impl Abort, alloc: Global, bytes: &[u8]) -> Joined {
    match read_joined(alloc, bytes) {
        Ok(joined) => joined,
        Err(_) => panic!(rt; "not read"),
    }
}

fn is_spelled_as(rt: &impl Abort, alloc: Global, joined: &Joined, bytes: &[u8]) -> bool {
    bytes_of(rt, alloc, joined).as_slice() == bytes
}

// What these bytes are read as, which is spelled so again.
fn read_back(rt: &impl Abort, alloc: Global, bytes: &[u8]) -> Joined {
    let joined = joined_of_bytes(rt, alloc, bytes);
    assert!(rt; is_spelled_as(rt, alloc, &joined, bytes));
    joined
}

fn back_of(rt: &impl Abort, alloc: Global, joined: &Joined) -> Joined {
    let bytes = bytes_of(rt, alloc, joined);
    read_back(rt, alloc, bytes.as_slice())
}

// What is joined, spelled and read back.
fn join_and_read_back(
    rt: &impl Abort,
    alloc: Global,
    a: &Package,
    b: &Package,
) -> Result<Joined, AllocError>
    requires first { IsValidPackage a.now }
    requires second { IsValidPackage b.now }
{
    let joined = joined_two(rt, alloc, a, b)?;
    assert!(rt; has_both(&joined) && has_first_world(alloc, &joined)?);
    Ok(back_of(rt, alloc, &joined))
}

fn expect_back(rt: &impl Abort, alloc: Global, a: &Package, b: &Package) -> Result<(), AllocError>
    requires first { IsValidPackage a.now }
    requires second { IsValidPackage b.now }
{
    let back = join_and_read_back(rt, alloc, a, b)?;
    assert!(rt; is_joined_of(rt, alloc, &back, a, b)?);
    Ok(())
}

fn expect_back_after(rt: &impl Abort, alloc: Global, a: &Package) -> Result<(), AllocError>
    requires { IsValidPackage a.now }
{
    let b = package_of(rt, alloc, "other")?;
    expect_back(rt, alloc, a, &b)
}

#[test]
fn what_is_joined_is_read_back(rt: HostRuntime) -> Result<(), Fail> {
    let a = package_of(&rt, rt.alloc(), "main")?;
    expect_back_after(&rt, rt.alloc(), &a)?;
    Ok(())
}
