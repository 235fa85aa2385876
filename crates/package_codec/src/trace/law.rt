//! The law of runs of events. The function has no body: its contract is the theorem.

ghost use Rattle.std.specs.Prelude.{◌≡◌, List as Items};
ghost use Rattle.run_model.specs.declared.event.Event.{Event};
ghost use Rattle.package_codec.specs.Runs.{EventRun, IsCutOf, events_in, runs_of};

/// The law of runs of events: every list of events has exactly one cut into the longest runs, and these
/// represent the list.
pub fn runs_law()
    ensures cut { (events : Items Event) → IsCutOf events (runs_of events) }
    ensures only { (events : Items Event) (runs : Items EventRun)
        → IsCutOf events runs → runs ≡ runs_of events }
    ensures again { (events : Items Event) → events_in (runs_of events) ≡ events }
{}
