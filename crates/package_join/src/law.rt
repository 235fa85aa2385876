//! The laws of joined packages.

ghost use Rattle.package_join.specs.Laws.{AnewLaw, JoinLaw, OneSpellingLaw, PickLaw, RoundTripLaw, RunsLaw};
ghost use Rattle.package_join.specs.Laws.{ValidLaw};

/// The packages of two runs over the same files and tables are joined without a clash, and the world of each
/// run in the joined package lies between the run's slice and its world. The function has no body: its
/// contract is the theorem.
pub fn join_law()
    ensures between { JoinLaw }
{}

/// Two included packages without a clash are picked again out of their joined package, and joining these
/// gives it again; if both are valid, so is the joined package. The function has no body: its contract is the
/// theorem.
pub fn pick_law()
    ensures picks { PickLaw }
    ensures anew { AnewLaw }
    ensures valid { ValidLaw }
{}

/// If the spelling of a valid joined package is within the limit, it is read as that joined package, and no
/// other one has this spelling. The function has no body: its contract is the theorem.
pub fn joined_round_trip_law()
    ensures again { RoundTripLaw }
    ensures unique { OneSpellingLaw }
{}

/// The worlds of both runs of a valid joined package can be run. The function has no body: its contract is
/// the theorem.
pub fn joined_runs_law()
    ensures { RunsLaw }
{}
