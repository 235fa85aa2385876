//! The law of versions.

ghost use Rattle.value_laws.specs.Fitting.{FittingLaw, OwnFittingLaw};

/// If a version of the format can write the tables of a world, it can write the package of its run: without
/// foreign keys in the tables, the package has no rules and no refusals of them. The same holds for the own
/// world of a package that the version can write. The function has no body: its contract is the theorem.
pub fn fitting_law()
    ensures runs { FittingLaw }
    ensures own { OwnFittingLaw }
{}
