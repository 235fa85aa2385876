//! The laws of packages: their parts of a world, their validity, and their audits.

ghost use Rattle.replay_db.specs.Laws.{MembershipLaw};
ghost use Rattle.replay_db.specs.Auditing.{SoundLaw, RecordedSoundLaw, OwnSoundLaw};
ghost use Rattle.replay_db.specs.Runs.{WorldRunsLaw, OwnRunsLaw, OwnWorldLaw};
ghost use Rattle.replay_db.specs.Worlds.{WorldTablesLaw, ValidPackageLaw, TypedPackageLaw};
ghost use Rattle.value_laws.specs.Fitting.{OwnFittingLaw};

use package_layout::round_trip_law;
use run_model::world_events_law;
use value_laws::{fitting_law, steps_law};

/// If two worlds meet the rules, one lies between the slice of a run and its world by its contents if and
/// only if it does by what was cut. The function has no body: its contract is the theorem.
pub fn members_law()
    ensures { MembershipLaw }
{}

/// If a run of a valid world has ended, its package is valid, included or excluded, and its spelling is read
/// back as that package. The tables of a valid world are valid, and the world can be run. The own world of a
/// valid package is valid. The function does nothing: its contract is the theorem.
pub fn package_law()
    ensures tables { WorldTablesLaw }
    ensures valid { ValidPackageLaw }
    ensures typed { TypedPackageLaw }
    ensures runs { WorldRunsLaw }
    ensures own_runs { OwnRunsLaw }
    ensures own_world { OwnWorldLaw }
    // Of each version that has the package.
    ensures own_tables { OwnFittingLaw }
{
    fitting_law();
    steps_law();
    world_events_law();
}

/// The audit of a package finds it sound if and only if its bytes are those of the package of its own world's
/// run, in their own version; so it finds every recorded package sound. A valid package is found sound in
/// each version that can write it, or in none. The function does nothing: its contract is the theorem.
pub fn audit_law()
    ensures sound { SoundLaw }
    ensures recorded { RecordedSoundLaw }
    ensures own { OwnSoundLaw }
{
    package_law();
    round_trip_law();
}
