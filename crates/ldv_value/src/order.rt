//! The total order of values, and comparisons in three-valued logic.

ghost use Rattle.std.specs.Prelude.{◌≡◌, ◌↔◌, IsTrue, Some, refl};
ghost use Rattle.std.specs.Cmp.{eq_by_cmp_equiv, partial_order_from_agreeing_total, partial_equiv_from_equiv};
ghost use Rattle.std.specs.Ordering.{eq_by_cmp, is_eq};
ghost use Rattle.std.specs.declared.cmp.Ordering.{Ordering};
ghost use Rattle.ldv_value.specs.Order.{order, order_total, meets, IsTestable, test_of};

use crate::value::{Cmp, Truth, Value};
use std::cmp::Ordering;

// NULL is the same as NULL.
impl PartialEq for Value {
    ghost eq = { eq_by_cmp order };

    ghost laws = { partial_equiv_from_equiv (eq_by_cmp_equiv order_total) };

    fn eq(&self, other: &Value) -> bool {
        self.cmp(other).is_eq()
    }
}

impl Eq for Value {
    ghost laws = { eq_by_cmp_equiv order_total };
}

impl PartialOrd for Value {
    ghost partial_cmp = { λ x y. Some (order x y) };

    ghost laws = { partial_order_from_agreeing_total order order_total (λ x y. refl) (λ x y. refl) };

    fn partial_cmp(&self, other: &Value) -> Option<Ordering> {
        Some(self.cmp(other))
    }
}

// NULL first, then numbers, then texts by bytes.
impl Ord for Value {
    ghost cmp = { order };

    ghost total = { order_total };

    ghost matches_partial_cmp = { λ x y. refl };

    ghost matches_eq = { λ x y. refl };

    fn cmp(&self, other: &Value) -> Ordering {
        match (self, other) {
            (Value::Null, Value::Null) => Ordering::Equal,
            (Value::Null, Value::Int(_)) => Ordering::Less,
            (Value::Null, Value::Text(_)) => Ordering::Less,
            (Value::Int(_), Value::Null) => Ordering::Greater,
            (Value::Int(m), Value::Int(n)) => m.cmp(n),
            (Value::Int(_), Value::Text(_)) => Ordering::Less,
            (Value::Text(_), Value::Null) => Ordering::Greater,
            (Value::Text(_), Value::Int(_)) => Ordering::Greater,
            (Value::Text(s), Value::Text(t)) => s.as_str().cmp(t.as_str()),
        }
    }
}

/// The total order of `Ord`: NULL first, then numbers, then texts by bytes.
pub fn compare(a: &Value, b: &Value) -> Ordering
    ensures { result ≡ order a.now b.now }
{
    a.cmp(b)
}

/// Whether two values are equal in the total order. NULL equals NULL.
pub fn same(a: &Value, b: &Value) -> bool
    ensures same { IsTrue result ↔ (order a.now b.now ≡ Ordering.Equal) }
    ensures test { result ≡ is_eq (order a.now b.now) }
{
    a.cmp(b).is_eq()
}

/// Whether a comparison holds in the total order.
pub fn holds(op: Cmp, a: &Value, b: &Value) -> bool
    ensures { result ≡ meets op (order a.now b.now) }
{
    let between = a.cmp(b);
    match op {
        Cmp::Eq => between.is_eq(),
        Cmp::Ne => between.is_ne(),
        Cmp::Lt => between.is_lt(),
        Cmp::Le => between.is_le(),
        Cmp::Gt => between.is_gt(),
        Cmp::Ge => between.is_ge(),
    }
}

/// The truth of a comparison: unknown if a side is NULL. The caller never compares a number with a text.
pub fn test(op: Cmp, a: &Value, b: &Value) -> Truth
    requires { IsTestable a.now b.now }
    ensures { result ≡ test_of op a.now b.now }
{
    match (a, b) {
        (Value::Null, _) => Truth::Unknown,
        (_, Value::Null) => Truth::Unknown,
        (_, _) => Truth::of_bool(holds(op, a, b)),
    }
}
