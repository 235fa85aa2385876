//! The law of `record` and `replay`.

ghost use Rattle.std.specs.Prelude.{◌≡◌, ◌≤◌, ℕ, List, [], length, Ok};
ghost use Rattle.ldv_value.specs.Limits.{input_limit, max_steps};
ghost use Rattle.run_model.specs.declared.package.Mode.{Mode};
ghost use Rattle.run_model.specs.declared.world.World.{World};
ghost use Rattle.run_model.specs.WorldRun.{steps_by};
ghost use Rattle.replay_db.specs.Worlds.{ValidWorld};
ghost use Rattle.world_json.specs.Reading.{world_reading};
ghost use Rattle.ldv_top.specs.Due.{due_record, due_replay, due_world};
ghost use Rattle.ldv_top.specs.Headline.{IsPackageOf, IsRecording};
ghost use Rattle.ldv_top.specs.declared.exit.Exit.{Exit};

use package_layout::round_trip_law;
use replay_db::{audit_law, package_law};
use run_laws::{between_law, log_law};

/// Replaying the package of a valid world's run, included or excluded, gives the outcome of that run, within
/// any budget of at least the steps of the run. Recording a world document gives such a package. The function
/// does nothing: its contract is the theorem.
pub fn headline_law()
    ensures replayed { (mode : Mode) (n budget : ℕ) (w : World) (input : List ℕ)
        → IsPackageOf mode n w input → steps_by n [] w ≤ budget
        → due_replay budget input ≡ due_world n w }
    ensures recorded { (mode : Mode) (budget : ℕ) (document : List ℕ) (w : World)
        → length document ≤ input_limit → budget ≤ max_steps
        → world_reading document ≡ Ok w → ValidWorld w
        → (due_record mode budget document).exit ≡ Exit.Done
        → IsRecording mode budget document (due_record mode budget document).bytes }
{
    audit_law();
    between_law();
    log_law();
    package_law();
    round_trip_law();
}
