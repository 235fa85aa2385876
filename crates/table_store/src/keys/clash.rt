//! Two rows that have one key after given rows have replaced others.

ghost use Rattle.std.specs.Prelude.{◌≡◌, ℕ, List, Option, Some, None, IfOk};
ghost use Rattle.table_store.specs.GivenKeys.{clash_of, earlier_clash, first_clash};
ghost use Rattle.table_store.specs.declared.error.StoreStop.TheVariants.{KeyTaken};

use crate::error::StoreStop;
use ldv_value::Values;
use std::alloc::AllocError;

/// Two rows that have one key, by number, the earlier first.
#[derive(Drop)]
pub(crate) struct Clash {
    pub(crate) earlier: u32,
    pub(crate) later: u32,
    pub(crate) key: Values,
}

impl Clash {
    /// The clash of two rows, given in any order, with their key.
    pub(crate) fn of(a: u32, b: u32, key: Values) -> Clash
        ensures { result ≡ clash_of a b key }
    {
        if a < b {
            Clash {
                earlier: a,
                later: b,
                key,
            }
        } else {
            Clash {
                earlier: b,
                later: a,
                key,
            }
        }
    }

    /// The refusal of the change.
    pub(crate) fn into_stop(self) -> StoreStop
        ensures { result ≡ KeyTaken (Some self.earlier) (Some self.later) self.key }
    {
        StoreStop::KeyTaken {
            earlier: Some(self.earlier),
            later: Some(self.later),
            key: self.key,
        }
    }
}

/// The one of two clashes whose later row has the lower number.
pub(crate) fn earlier_clash(first: Option<Clash>, clash: Clash) -> Clash
    ensures { result ≡ earlier_clash first clash }
{
    match first {
        None => clash,
        Some(other) => {
            if clash.later < other.later {
                clash
            } else {
                other
            }
        }
    }
}

/// The first clash so far and that of a given row, if another row, `keeper`, has its key.
pub(crate) fn first_clash(
    first: Option<Clash>,
    keeper: Option<u32>,
    number: u32,
    key: &Values,
) -> Result<Option<Clash>, AllocError>
    ensures { IfOk result (λ made. made ≡ first_clash first keeper number key.now) }
{
    match keeper {
        None => Ok(first),
        Some(kept) => {
            let key = key.copy()?;
            Ok(Some(earlier_clash(first, Clash::of(number, kept, key))))
        }
    }
}
