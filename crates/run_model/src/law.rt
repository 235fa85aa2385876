//! The laws of runs.

ghost use Rattle.run_model.specs.RunLaw.{NeverStuckLaw, FewEventsLaw, WorldEventsLaw};

/// A run is never stuck, over any database: while a process hasn't ended, the one that is chosen may run. The
/// function has no body: its contract is the theorem.
pub fn never_stuck_law<Db>()
    ensures { NeverStuckLaw Db }
{}

/// A run has at most two events a step after its start, over any database. The function has no body: its
/// contract is the theorem.
pub fn few_events_law<Db>()
    ensures { FewEventsLaw Db }
{}

/// The run of a world has at most two events a step and one at the start, so within n steps at most 2 n + 1.
/// The function has no body: its contract is the theorem.
pub fn world_events_law()
    ensures { WorldEventsLaw }
{}
