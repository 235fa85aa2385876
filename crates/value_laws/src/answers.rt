//! The law of answers.

ghost use Rattle.value_laws.specs.Answers.{AnswersLaw, NoStatementLaw};

/// If the tables of a database are good, a good statement, accepted or refused, has a good reply, and the
/// tables after it are good. A text that is no statement has a good reply and changes nothing. The function
/// has no body: its contract is the theorem.
pub fn answers_law()
    ensures answers { AnswersLaw }
    ensures none { NoStatementLaw }
{}
