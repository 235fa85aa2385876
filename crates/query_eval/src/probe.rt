//! The equalities that look up rows of the next source.

ghost use Rattle.std.specs.Prelude.{◌≡◌, ◌∷◌, ◌<◌, IfOk, IfSome, OnOk, List as Items, true};
ghost use Rattle.query_eval.specs.inner.Joining.{AreTies, AreTiesWith, IsBetween, IsEquality, IsProbeOf};
ghost use Rattle.query_eval.specs.inner.Joining.{is_equal_sign};
ghost use Rattle.predicates.specs.declared.placed.BoundExpr.{BoundExpr as Given};

use ldv_value::List;
use predicates::{BoundExpr, column_of_source, is_column, is_equal_test};
use sql_model::{Expr, Operator};
use std::alloc::{AllocError, Global};

/// Two columns that are equal: one of the earlier sources, by its place in their joined row, and one of the
/// next source, by its place there. Places count from 0.
#[derive(Clone, Copy)]
pub struct Probe {
    pub from: usize,
    pub place: usize,
}

/// Conditions taken apart: the probes by which rows of the next source are looked up, each by a column of its
/// own, and the conditions that are tested on what is found.
#[derive(Drop)]
pub(crate) struct Tied {
    pub ties: Vec<Probe>,
    pub others: List<BoundExpr>,
}

// Whether an expression is an equality of two columns.
fn is_equality(expr: &Expr) -> bool
    ensures { result ≡ true → IsEquality expr.now }
{
    match expr {
        Expr::Both(operator, left, right) => {
            if !is_equal_sign(*operator) {
                return false;
            }
            if !is_column(left.get()) {
                return false;
            }
            is_column(right.get())
        }
        _ => false,
    }
}

fn is_equal_sign(operator: Operator) -> bool
    ensures { result ≡ is_equal_sign operator }
{
    match operator {
        Operator::Compare(test) => is_equal_test(test),
        Operator::Add => false,
        Operator::Subtract => false,
        Operator::Multiply => false,
        Operator::And => false,
        Operator::Or => false,
    }
}

// The probe of two places of the joined row, where one is among the first `width` values and the other isn't.
fn probe_between(a: usize, b: usize, width: u128) -> Option<Probe>
    ensures { IfSome result (IsBetween a b width) }
{
    if is_below(a, width) {
        return match column_of_source(width, b) {
            None => None,
            Some(place) => Some(Probe { from: a, place }),
        };
    }
    if is_below(b, width) {
        return match column_of_source(width, a) {
            None => None,
            Some(place) => Some(Probe { from: b, place }),
        };
    }
    None
}

fn is_below(place: usize, width: u128) -> bool
    ensures { result ≡ true → place < width }
{
    (place as u128) < width
}

// The probe that a condition is, if it is one. The earlier sources have `width` values.
fn probe_of(cond: &BoundExpr, width: u128) -> Option<Probe>
    ensures { IfSome result (IsProbeOf cond.now width) }
{
    if !is_equality(&cond.expr) {
        return None;
    }
    let Some(a) = cond.places.get(0) else {
        return None;
    };
    let Some(b) = cond.places.get(1) else {
        return None;
    };
    probe_between(*a, *b, width)
}

fn has_place(ties: &[Probe], place: usize) -> bool {
    ties.iter().any(|tie| tie.place == place)
}

// The probe that a condition is, if it is one by another column than those that are there: a key has no more
// values than a row.
fn next_probe(cond: &BoundExpr, width: u128, ties: &[Probe]) -> Option<Probe>
    ensures { IfSome result (IsProbeOf cond.now width) }
{
    match probe_of(cond, width) {
        None => None,
        Some(probe) => {
            if has_place(ties, probe.place) {
                None
            } else {
                Some(probe)
            }
        }
    }
}

// Adds a condition to the ties or to the others.
fn add_condition(
    ties: &mut Vec<Probe>,
    others: &mut List<BoundExpr>,
    cond: BoundExpr,
    width: u128,
) -> Result<(), AllocError>
    ensures { OnOk result ((conds left : Items Given)
        → AreTiesWith conds width ties.old.items others.old (cond ∷ left)
        → AreTiesWith conds width ties.new.items others.new left) }
{
    match next_probe(&cond, width, ties) {
        Some(probe) => {
            ties.push(probe)?;
            Ok(())
        }
        None => {
            others.push(cond)?;
            Ok(())
        }
    }
}

/// Takes apart the conditions of the next source, of which the columns are all there. Each equality of a
/// column of it and one of an earlier source is a tie, unless there is one by its column. The earlier sources
/// have `width` values.
#[tactic(auto, using(crate::proofs::Probes::ties_start))]
pub(crate) fn ties_of(
    alloc: Global,
    conds: List<BoundExpr>,
    width: u128,
) -> Result<Tied, AllocError>
    ensures { IfOk result (λ tied. AreTies conds width tied.ties.items tied.others) }
{
    let mut ties = Vec::new(alloc);
    let mut others = List::new(alloc);
    for cond in conds.into_vec() {
        add_condition(&mut ties, &mut others, cond, width)?;
    }
    Ok(Tied { ties, others })
}
