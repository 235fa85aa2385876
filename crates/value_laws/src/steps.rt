//! The law of steps.

ghost use Rattle.value_laws.specs.Steps.{StepsLaw};

/// If the start words and the tables of a world are good, then after any steps, in whatever order the
/// processes ran, the statements and the replies of each process are good, and the logs are sorted by
/// process. The function has no body: its contract is the theorem.
pub fn steps_law()
    ensures logs { StepsLaw }
{}
