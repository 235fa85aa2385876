//! Objects: members of known names, and members that are read under any name.

ghost use Rattle.std.specs.List.{AllByRecursion};
ghost use Rattle.std.specs.Prelude.{◌≡◌, ◌<◌, ◌+◌, ℕ, List, Option, IfOk, OnOk, length, map};
ghost use Rattle.std.specs.Str.{IsUtf8};
ghost use Rattle.serde_json.specs.Data.{Data, Members, no_members};
ghost use Rattle.world_json.specs.Shape.{object_of};
ghost use Rattle.world_json.specs.inner.Taking.{AreNamed, IsTaken, MemberTaken, MembersTaken};

use crate::fast::tokens::{open_object, own_text};
use crate::shape::ShapeStop;
use json::Reader;
use ldv_value::{List, Utf8};
use serde_json::Map;
use std::alloc::{AllocError, Global};

/// Types that keep what is read of the members of an object.
pub(crate) trait TakesMembers: Drop + Sized {
    // What is kept of some members.
    ghost kept: { Members → Self → Type 0 };
    // How many arrays and objects a member nests.
    ghost levels: { ℕ };

    /// Reads the member of a name. The last one of a name stays.
    fn take_member(
        &mut self,
        alloc: Global,
        name: &str,
        reader: &mut Reader<'_>,
    ) -> Result<(), ShapeStop>
        ensures taken { OnOk result
            (MemberTaken kept levels name.now reader.old reader.new self.old self.new) }
        ensures shorter { OnOk result (length reader.new < length reader.old) };
}

/// The members of an object, and the brace that closes it.
pub(crate) fn take_members<K: TakesMembers>(
    alloc: Global,
    reader: &mut Reader<'_>,
    to: &mut K,
) -> Result<(), ShapeStop>
    ensures taken { OnOk result (MembersTaken K.kept K.levels reader.old reader.new to.old to.new) }
    ensures shorter { OnOk result (length reader.new < length reader.old) }
{
    'members: while let Some(name) = reader.next_key()? {
        to.take_member(alloc, name, reader)?;
    }
    Ok(())
}

/// Types that a member of an object is taken as, whatever its name.
pub(crate) trait FromNamedTokens: Drop + Sized {
    ghost of_member: { List ℕ → Data → Option Self };
    // How many arrays and objects it nests.
    ghost levels: { ℕ };
    // What its type says of it.
    ghost typed: { Self → Type 0 };

    fn from_tokens(alloc: Global, name: Utf8, reader: &mut Reader<'_>) -> Result<Self, ShapeStop>
        requires { IsUtf8 name }
        ensures taken { IfOk result (λ x. IsTaken (of_member name) levels reader.old x reader.new) }
        ensures shorter { OnOk result (length reader.new < length reader.old) }
        ensures typed { IfOk result (λ x. typed x) };
}

/// An object, each of its members under its name, in the order of the names.
pub(crate) fn take_object<X: FromNamedTokens>(
    alloc: Global,
    reader: &mut Reader<'_>,
) -> Result<List<X>, ShapeStop>
    ensures taken { IfOk result (λ xs.
        IsTaken (object_of X.of_member) (X.levels + 1) reader.old xs reader.new) }
    ensures shorter { OnOk result (length reader.new < length reader.old) }
    ensures typed { IfOk result (λ xs. AllByRecursion X.typed xs) }
{
    open_object(reader)?;
    let mut named = new_members(alloc);
    take_members(alloc, reader, &mut named)?;
    let found = list_named(alloc, named)?;
    Ok(found)
}

// Members by their names.
#[derive(Drop)]
struct Named<X> {
    members: Map<String, X>,
}

impl<X: FromNamedTokens> TakesMembers for Named<X> {
    ghost use Rattle.world_json.specs.inner.Taking.{AreNamed};

    ghost kept = { λ ms named. AreNamed X.of_member X.typed ms named.members.entries };

    ghost levels = { X.levels };

    fn take_member(
        &mut self,
        alloc: Global,
        name: &str,
        reader: &mut Reader<'_>,
    ) -> Result<(), ShapeStop> {
        let key = String::from_str(alloc, name)?;
        let own = own_text(alloc, name)?;
        let member = X::from_tokens(alloc, own, reader)?;
        match self.members.insert(key, member) {
            Ok(_) => Ok(()),
            Err(_) => Err(ShapeStop::NoMemory),
        }
    }
}

fn new_members<X: FromNamedTokens>(alloc: Global) -> Named<X>
    ensures { AreNamed X.of_member X.typed no_members result.members.entries }
{
    Named {
        members: Map::new(alloc),
    }
}

// What was read, in the order of the names.
fn list_named<X: FromNamedTokens>(alloc: Global, named: Named<X>) -> Result<List<X>, AllocError>
    ensures { IfOk result (λ xs. xs ≡ map (λ e. e.1) named.members.entries) }
{
    let Named { members } = named;
    let mut found = List::with_capacity(alloc, members.len())?;
    for (name, member) in members {
        drop(name);
        found.push(member)?;
    }
    Ok(found)
}
