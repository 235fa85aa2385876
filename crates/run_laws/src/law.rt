//! The laws on which replay rests.

ghost use Rattle.run_laws.specs.Laws.{BetweenLaw, InterleavingLaw, SliceLaw, OwnLaw, ReplayLaw, EndedLaw};
ghost use Rattle.run_laws.specs.LogLaws.{LogLaw, PickedLogLaw};

/// If a world is cut but keeps all that a run needs, it runs as the whole world does, whatever statements the
/// run asks. The own world of the run's package is such a world. The function has no body: its contract is
/// the theorem.
pub fn between_law()
    ensures between { BetweenLaw }
    ensures interleaved { InterleavingLaw }
    ensures slice { SliceLaw }
    ensures own { OwnLaw }
    ensures replay { ReplayLaw }
    ensures settled { EndedLaw }
{}

/// The package of a run's recorded replies runs without the database as the world ran with it: it never
/// diverges and has the run's outcome, within every budget and by any picks. The function has no body: its
/// contract is the theorem.
pub fn log_law()
    ensures seeded { LogLaw }
    ensures picked { PickedLogLaw }
{}
