//! Merging answers of the same values, with the union of their lineages.

ghost use Rattle.std.specs.Prelude.{◌≡◌, ◌++◌, ◌∷◌, [], ℕ, Bool, List as Items, map, IfOk, OnOk};
ghost use Rattle.std.specs.Prelude.{Some, None};
ghost use Rattle.std.specs.BTreeMap as tree;
ghost use Rattle.lineage.specs.Rows.{AnswersStandFor};
ghost use Rattle.query_eval.specs.Merging.{own_values, merged_answer, place_of, with_answer, IsIndex};
ghost use Rattle.query_eval.specs.Types.{Value as Seen};
ghost use Rattle.ldv_value.specs.Order.{values_order};
ghost use Rattle.sql_model.specs.Needs.{Versions};
ghost use Rattle.sql_model.specs.QueryAnswer.{AnswerRow, distinct_values, merge};

use ldv_value::{Key, List, Values};
use lineage::{Answer, Answers};
use std::alloc::{AllocError, Global};
use std::collections::BTreeMap;

// The places of answers, by their values.
type Places<'a> = BTreeMap<Key<'a, Values>, usize>;

/// Merges all answers of the same values into one, at the place of the first, with the union of their
/// lineages. NULL equals NULL. A row has one version in all these lineages.
#[tactic(auto, using(crate::proofs::Merges::merged_stand))]
pub fn merge(answers: Answers) -> Result<Answers, AllocError>
    ensures { IfOk result (λ made.
        (names : Items (Items ℕ)) (versions : Versions) (keep : Bool) (rows : Items AnswerRow)
        → AnswersStandFor names versions keep answers rows
        → AnswersStandFor names versions keep made (merge rows)) }
{
    merged_answers(answers.allocator(), answers.items())
}

fn merged_answers(alloc: Global, answers: &[Answer]) -> Result<Answers, AllocError>
    ensures { IfOk result (λ made. made
        ≡ map (merged_answer answers.now) (distinct_values (map own_values answers.now))) }
{
    let mut places = BTreeMap::new(alloc);
    let mut made = Vec::new(alloc);
    for answer in answers {
        add_answer(&mut places, &mut made, answer)?;
    }
    Ok(List::of_vec(made))
}

// Adds an answer, or its lineage to that of the answer of the same values.
fn add_answer<'a>(
    places: &mut Places<'a>,
    made: &mut Vec<Answer>,
    answer: &'a Answer,
) -> Result<(), AllocError>
    requires { IsIndex places.old made.old.items }
    ensures index { OnOk result (IsIndex places.new made.new.items) }
    ensures made { OnOk result (made.new.items ≡ with_answer made.old.items answer.now) }
{
    match place_in(places, &answer.values) {
        Some(place) => add_again(made, place, answer),
        None => add_first(places, made, answer),
    }
}

fn place_in<'a>(places: &Places<'a>, values: &'a Values) -> Option<usize>
    ensures { result ≡ tree.get values_order places.now values.now }
{
    places.get(&Key::of(values)).copied()
}

// Adds the lineage of an answer to that of the answer at a place.
#[tactic(auto, using(crate::proofs::Absorbs::place_within))]
fn add_again(made: &mut Vec<Answer>, place: usize, answer: &Answer) -> Result<(), AllocError>
    requires { place_of answer.now.values made.old.items ≡ Some place }
    ensures made { OnOk result (made.new.items ≡ with_answer made.old.items answer.now) }
    ensures places { OnOk result ((v : Items Seen)
        → place_of v made.new.items ≡ place_of v made.old.items) }
{
    made[place].unite(answer)
}

fn push_copy(made: &mut Vec<Answer>, answer: &Answer) -> Result<(), AllocError>
    ensures { OnOk result (made.new.items ≡ made.old.items ++ answer.now ∷ []) }
{
    let copy = answer.copy()?;
    made.push(copy)?;
    Ok(())
}

// Adds the first answer of its values.
fn add_first<'a>(
    places: &mut Places<'a>,
    made: &mut Vec<Answer>,
    answer: &'a Answer,
) -> Result<(), AllocError>
    requires index { IsIndex places.old made.old.items }
    requires none { place_of answer.now.values made.old.items ≡ None }
    ensures index { OnOk result (IsIndex places.new made.new.items) }
    ensures made { OnOk result (made.new.items ≡ with_answer made.old.items answer.now) }
{
    let place = made.len();
    push_copy(made, answer)?;
    places.insert(Key::of(&answer.values), place)?;
    Ok(())
}
