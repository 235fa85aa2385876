//! The law of literals.

ghost use Rattle.value_laws.specs.Literals.{ScriptLiteralsLaw, StatementLiteralsLaw};

/// The constants of a script are good, and each of its `sql` has at most 255 parameters, each `spawn` at most
/// 255 arguments. The constants of a statement are good if its parameters are, and none of its cores has
/// too many items or sources. The function has no body: its contract is the theorem.
pub fn literals_law()
    ensures script { ScriptLiteralsLaw }
    ensures statement { StatementLiteralsLaw }
{}
