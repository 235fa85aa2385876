//! Whether two events have one process and one act.

ghost use Rattle.std.specs.Prelude.{◌≡◌};
ghost use Rattle.run_model.specs.ValidTrace.{is_asked};
ghost use Rattle.package_codec.specs.Runs.{act_kind, act_path, act_number, same_act, is_alike};

use run_model::{Act, Event};

// The kind of an act, by which two are compared. The format has a byte of its own for each.
fn act_kind(act: &Act) -> u8
    ensures { result ≡ act_kind act.now }
{
    match act {
        Act::Started { path: _ } => 0,
        Act::Spawned { path: _ } => 1,
        Act::Unspawned { path: _, found: _ } => 2,
        Act::OpenedRead { path: _ } => 3,
        Act::OpenedWrite { path: _ } => 4,
        Act::OpenedAppend { path: _, found: _ } => 5,
        Act::OpenedNew { path: _ } => 6,
        Act::Unopened { path: _, found: _ } => 7,
        Act::Read { path: _ } => 8,
        Act::Wrote { path: _ } => 9,
        Act::Removed { path: _ } => 10,
        Act::Tested { path: _, found: _ } => 11,
        Act::Waited { child: _ } => 12,
        Act::Ended { status: _ } => 13,
        Act::Asked {
            statement: _,
            tables: _,
            reads: _,
            made: _,
        } => 14,
    }
}

fn act_path(act: &Act) -> &[u8]
    ensures { result.now ≡ act_path act.now }
{
    match act.path() {
        None => &[],
        Some(path) => path.as_str().as_bytes(),
    }
}

fn act_number(act: &Act) -> u32
    ensures { result ≡ act_number act.now }
{
    match act {
        Act::Unspawned { path: _, found } => u32::from(*found),
        Act::OpenedAppend { path: _, found } => u32::from(*found),
        Act::Unopened { path: _, found } => u32::from(*found),
        Act::Tested { path: _, found } => u32::from(*found),
        Act::Waited { child } => *child,
        Act::Ended { status } => u32::from(*status),
        _ => 0,
    }
}

/// Whether an act is a question.
pub(crate) fn is_asked(act: &Act) -> bool
    ensures { result ≡ is_asked act.now }
{
    match act {
        Act::Asked {
            statement: _,
            tables: _,
            reads: _,
            made: _,
        } => true,
        _ => false,
    }
}

// Two questions are never the same: statements are numbered.
fn same_act(a: &Act, b: &Act) -> bool
    ensures { result ≡ same_act a.now b.now }
{
    !is_asked(a)
        && act_kind(a) == act_kind(b)
        && act_path(a) == act_path(b)
        && act_number(a) == act_number(b)
}

/// Whether an event has the process and the act of another. Two questions are never the same.
pub(crate) fn is_alike(a: &Event, b: &Event) -> bool
    ensures { result ≡ is_alike a.now b.now }
{
    a.process == b.process && same_act(&a.act, &b.act)
}
