//! The law of `join` and `replay --run`.

ghost use Rattle.ldv_top.specs.TwoRuns.{AnyJoinedLaw, PairLaw, TwoRunsLaw};

use package_join::{join_law, joined_round_trip_law, pick_law};
use package_layout::round_trip_law;
use replay_db::package_law;
use run_laws::between_law;

/// The packages of two valid worlds with the same files and tables are joined. Replaying either run of the
/// joined package gives the outcome of its world's run, within any budget of at least the steps of that run.
/// The function does nothing: its contract is the theorem.
pub fn two_runs_law()
    ensures pair { PairLaw }
    ensures replayed { TwoRunsLaw }
    ensures any { AnyJoinedLaw }
{
    between_law();
    join_law();
    joined_round_trip_law();
    package_law();
    pick_law();
    round_trip_law();
}
