//! The law of `replay --seed`.

ghost use Rattle.std.specs.Prelude.{◌≡◌, ◌≤◌, ℕ, List, [], true};
ghost use Rattle.run_model.specs.declared.package.Mode.TheVariants.{Excluded};
ghost use Rattle.run_model.specs.declared.world.World.{World};
ghost use Rattle.run_model.specs.WorldRun.{events_within, steps_by};
ghost use Rattle.free_order.specs.Private.{private_test};
ghost use Rattle.ldv_top.specs.Due.{due_replay_seed, due_world};
ghost use Rattle.ldv_top.specs.Headline.{IsPackageOf};

use free_order::order_law;
use package_layout::round_trip_law;
use replay_db::package_law;

/// If no process of a valid world names a path that another one changes, replaying its excluded package under
/// every seed gives the outcome of the world's run, within any budget of at least the steps of that run. The
/// function does nothing: its contract is the theorem.
pub fn seed_law()
    ensures { (n seed budget : ℕ) (w : World) (input : List ℕ) → IsPackageOf Excluded n w input
        → private_test (events_within n w) ≡ true → steps_by n [] w ≤ budget
        → due_replay_seed seed budget input ≡ due_world n w }
{
    order_law();
    package_law();
    round_trip_law();
}
