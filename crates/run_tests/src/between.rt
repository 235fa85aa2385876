//! A world that lies between the slice of a run and the run's world: it is recorded as that world. Its rows
//! have numbers with gaps; no document has such rows, so no command can get this world. And the audits of
//! packages of both, by the call that takes a package.

ghost use Rattle.std.specs.Prelude.{IfOk};
ghost use Rattle.package_layout.specs.Valid.{IsSpelled, IsValidPackage};
ghost use Rattle.package_layout.specs.Whole.{IsTyped};
ghost use Rattle.run_model.specs.Package.{own_world};
ghost use Rattle.replay_db.specs.Auditing.{HasTables};
ghost use Rattle.replay_db.specs.Runs.{CanRun};

use crate::worlds::world_of_text;
use ldv_value::Bytes;
use package_layout::{read_package, spell, version_of};
use replay_db::{Verdict, audit, own_world, package_law, record_world};
use run_model::{Mode, Package, World};
use std::alloc::{AllocError, Global};
use std::process::Abort;
use std::test::Fail;

const BUDGET: u32 = 100;

// ---- two worlds, whose one statement needs a row: the first one, and the last one

const NEEDS_FIRST: &str =
    r#"{"start":["main"],"files":{"main":"sql q \"SELECT v FROM t WHERE k = 1\"\n"},
"tables":{"t":{"columns":[["k","INT NOT NULL"],["g","TEXT"],["v","INT"]],"key":["k"],
"rows":[[1,"a",10],[2,"a",20],[3,"b",5],[4,"b",null],[5,"c",10]]}}}"#;

const NEEDS_LAST: &str =
    r#"{"start":["main"],"files":{"main":"sql q \"SELECT v FROM t WHERE k = 5\"\n"},
"tables":{"t":{"columns":[["k","INT NOT NULL"],["g","TEXT"],["v","INT"]],"key":["k"],
"rows":[[1,"a",10],[2,"a",20],[3,"b",5],[4,"b",null],[5,"c",10]]}}}"#;

// ---- packages whose own worlds have of its five rows those with the numbers 0, 2 and 4, spelled by
// ---- the encoder of the tools

// The start word, the seed, the steps and the script up to the key that is asked for.
const FRONT: &[u8] =
    b"LDVPACK2\x01\x00\x01\x00\x00\x00\x04main\x00\x00\x00\x00\x00\x00\x00\x00\x00\x00\x00\x02\
\x00\x00\x00\x01\x00\x00\x00\x04main\x01\x00\x00\x00$sql q \"SELECT v FROM t WHERE k = ";

// The rest of the script, and the table with its three rows.
const ROWS: &[u8] = b"\"\n\x00\x01\x00\x00\x00\x01t\x03\x00\x00\x00\x01k\x03\x00\x00\x00\x01g\x02\
\x00\x00\x00\x01v\x01\x01\x00\x00\x00\x00\x00\x05\x00\x00\x00\x03\
\x00\x00\x00\x00\x00\x00\x00\x00\x01\
\x01\x00\x00\x00\x00\x00\x00\x00\x01\x02\x00\x00\x00\x01a\x01\x00\x00\x00\x00\x00\x00\x00\n\
\x00\x00\x00\x02\x00\x00\x00\x00\x01\
\x01\x00\x00\x00\x00\x00\x00\x00\x03\x02\x00\x00\x00\x01b\x01\x00\x00\x00\x00\x00\x00\x00\x05\
\x00\x00\x00\x04\x00\x00\x00\x00\x01\
\x01\x00\x00\x00\x00\x00\x00\x00\x05\x02\x00\x00\x00\x01c\x01\x00\x00\x00\x00\x00\x00\x00\n";

// The trace up to the number of the row that is read.
const TRACE: &[u8] =
    b"\x00\x00\x00\x00\x00\x00\x00\x03\x00\x00\x00\x00\x00\x00\x00\x00\x00\x00\x00\x00\x04main\
\x00\x00\x00\x01\x00\x00\x00\x00\x00\x00\x00\x01\x00\x00\x00\x00\x0e\x00\x00\x00\x00\x00\x01\x00\x00\x00\x01t\
\x00\x01\x00\x00\x00\x01t\x00\x00\x00\x01\x00\x00\x00";

// The rest of the trace.
const END: &[u8] = b"\x00\x00\x00\x00\x01\x00\x00\x00\x00\x00\x01\x00\x00\x00\x00\
\x00\x00\x00\x02\x00\x00\x00\x00\x0d\x00\x00\x00\x00\x01\x00\x00\x00\x00";

const DIGEST_OF_FIRST: &[u8] =
    b"\xe6\xcb\x02\xb0\x193\x91\xddvie\x88\xd2\x05\xc3J\xc3\xdd\x88b!\x8c\x87f\xd7M}\xa0\xe1\xbd\xbb\x0e";

const DIGEST_OF_LAST: &[u8] =
    b"\xb7\xa3\xc1\x9c\xbdb\x83\xd2\xbc\xfdgnb\xdd \x91\xb6\xbb\\\xbf\xd8$\x85\xc3\xaa\x0b\x0d\xf8\xa5h9\x85";

// Where they differ first from the packages of the two worlds: in the count of rows, 3 in place of 1.
const COUNT_OF_ROWS: u64 = 120;

// In what the two differ: the key that is asked for, the number of the row that has it, and the digest.
type Parts = (u8, u8, &'static [u8]);

fn push_tables(bytes: &mut Vec<u8>, key: u8) -> Result<(), AllocError> {
    bytes.extend_from_slice(FRONT)?;
    bytes.push(key)?;
    bytes.extend_from_slice(ROWS)
}

fn push_trace(bytes: &mut Vec<u8>, row: u8) -> Result<(), AllocError> {
    bytes.extend_from_slice(TRACE)?;
    bytes.push(row)?;
    bytes.extend_from_slice(END)
}

fn push_parts(bytes: &mut Vec<u8>, parts: Parts) -> Result<(), AllocError> {
    push_tables(bytes, parts.0)?;
    push_trace(bytes, parts.1)?;
    bytes.extend_from_slice(parts.2)
}

fn larger_package(alloc: Global, parts: Parts) -> Result<Vec<u8>, AllocError> {
    let mut bytes = Vec::new(alloc);
    push_parts(&mut bytes, parts)?;
    Ok(bytes)
}

fn larger_than_first(alloc: Global) -> Result<Vec<u8>, AllocError> {
    larger_package(alloc, (b'1', 0, DIGEST_OF_FIRST))
}

fn larger_than_last(alloc: Global) -> Result<Vec<u8>, AllocError> {
    larger_package(alloc, (b'5', 4, DIGEST_OF_LAST))
}

// ---- what is recorded of worlds

fn package_from(rt: &impl Abort, alloc: Global, bytes: &[u8]) -> Package
    ensures typed { IsTyped result }
    ensures valid { IsValidPackage result }
    ensures spelled { IsSpelled bytes.now result }
{
    match read_package(alloc, bytes) {
        Ok(package) => package,
        Err(_) => panic!(rt; "no package"),
    }
}

fn own_world_that_runs(alloc: Global, package: &Package) -> Result<World, AllocError>
    requires { CanRun (own_world «package».now) }
    ensures { IfOk result CanRun }
{
    let world = own_world(alloc, package)?;
    Ok(world)
}

// The own world of the package that bytes spell.
fn own_world_from(rt: &impl Abort, alloc: Global, bytes: &[u8]) -> Result<World, AllocError>
    ensures { IfOk result CanRun }
{
    package_law();
    let package = package_from(rt, alloc, bytes);
    own_world_that_runs(alloc, &package)
}

fn recorded_package(rt: &impl Abort, alloc: Global, world: &World) -> Package
    requires { CanRun world.now }
{
    match record_world(alloc, world, Mode::Included, BUDGET) {
        Ok(package) => package,
        Err(stop) => panic!(rt; "{stop:?}"),
    }
}

fn spelling_of(rt: &impl Abort, alloc: Global, package: &Package) -> Bytes {
    match spell(alloc, package) {
        Ok(bytes) => bytes,
        Err(stop) => panic!(rt; "{stop:?}"),
    }
}

fn recorded_bytes(rt: &impl Abort, alloc: Global, world: &World) -> Bytes
    requires { CanRun world.now }
{
    let package = recorded_package(rt, alloc, world);
    spelling_of(rt, alloc, &package)
}

fn document_recorded(rt: &impl Abort, alloc: Global, text: &str) -> Bytes {
    let world = world_of_text(rt, alloc, text);
    recorded_bytes(rt, alloc, &world)
}

fn between_recorded(rt: &impl Abort, alloc: Global, larger: &[u8]) -> Result<Bytes, AllocError> {
    let world = own_world_from(rt, alloc, larger)?;
    Ok(recorded_bytes(rt, alloc, &world))
}

// Whether the own world of a larger package is recorded as these bytes.
fn is_recorded_as(
    rt: &impl Abort,
    alloc: Global,
    larger: &[u8],
    whole: &[u8],
) -> Result<bool, AllocError> {
    let between = between_recorded(rt, alloc, larger)?;
    Ok(whole.len() < larger.len() && between.as_slice() == whole)
}

fn is_as_the_whole_one(
    rt: &impl Abort,
    alloc: Global,
    larger: &[u8],
    text: &str,
) -> Result<bool, AllocError> {
    let whole = document_recorded(rt, alloc, text);
    is_recorded_as(rt, alloc, larger, whole.as_slice())
}

#[test]
fn records_a_world_between_as_the_whole_one(rt: HostRuntime) -> Result<(), Fail> {
    let larger = larger_than_first(rt.alloc())?;
    assert!(rt; is_as_the_whole_one(&rt, rt.alloc(), larger.as_slice(), NEEDS_FIRST)?);
    Ok(())
}

// The row that is needed has the number 4, and is the third one of the world between.
#[test]
fn records_the_number_of_a_row_and_not_its_place(rt: HostRuntime) -> Result<(), Fail> {
    let larger = larger_than_last(rt.alloc())?;
    assert!(rt; is_as_the_whole_one(&rt, rt.alloc(), larger.as_slice(), NEEDS_LAST)?);
    Ok(())
}

// ---- audits

// Whether the audit of a package with these bytes gives the verdict.
fn is_audited(alloc: Global, package: &Package, bytes: &[u8], want: Verdict) -> bool
    requires runs { CanRun (own_world «package».now) }
    requires fits { HasTables bytes.now (own_world «package».now) }
{
    match version_of(bytes) {
        None => false,
        Some(_version) => match audit(alloc, package, bytes, BUDGET) {
            Ok(verdict) => verdict == want,
            Err(_) => false,
        },
    }
}

fn are_audited(rt: &impl Abort, alloc: Global, bytes: &[u8], want: Verdict) -> bool {
    package_law();
    let package = package_from(rt, alloc, bytes);
    is_audited(alloc, &package, bytes, want)
}

#[test]
fn finds_a_recorded_package_sound(rt: HostRuntime) -> Result<(), Fail> {
    let bytes = document_recorded(&rt, rt.alloc(), NEEDS_FIRST);
    assert!(rt; are_audited(&rt, rt.alloc(), bytes.as_slice(), Verdict::Sound));
    Ok(())
}

#[test]
fn finds_a_larger_package_unsound(rt: HostRuntime) -> Result<(), Fail> {
    let larger = larger_than_last(rt.alloc())?;
    let want = Verdict::Unsound { at: COUNT_OF_ROWS };
    assert!(rt; are_audited(&rt, rt.alloc(), larger.as_slice(), want));
    Ok(())
}
