//! Versions, sorted by time.

ghost use Rattle.std.specs.Prelude.{◌≡◌};
ghost use Rattle.std.specs.Option.{option_map};
ghost use Rattle.row_version.specs.History.{as_of, current_values, IsSorted};
ghost use Rattle.row_version.specs.inner.Versions.{changes_of};

use ldv_value::Values;

/// Values that were written at a time.
#[derive(Drop)]
pub(crate) struct Version {
    pub(crate) time: u32,
    pub(crate) values: Values,
}

/// The values of the last version.
#[tactic(auto, using(crate::proofs::Parts::latest_is))]
pub(crate) fn last_values(versions: &[Version]) -> Option<&Values>
    ensures { option_map (λ x. x.now) result ≡ current_values (changes_of versions.now) }
{
    match versions.last() {
        None => None,
        Some(version) => Some(&version.values),
    }
}

/// The values of the last version whose time is at most `time`, found by bisection.
pub(crate) fn latest_by(versions: &[Version], time: u32) -> Option<&Values>
    requires { IsSorted (changes_of versions.now) }
    ensures { option_map (λ x. x.now) result ≡ as_of (changes_of versions.now) time }
{
    let after = versions.partition_point(|version| version.time <= time);
    last_values(&versions[..after])
}
