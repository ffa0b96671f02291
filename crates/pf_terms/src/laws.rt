//! Laws of values: the order is total, and `equal` is equality. Each is a function with an empty body.

ghost use Rattle.std.specs.Prelude.{◌≡◌, ◌↔◌, IsTrue};
ghost use Rattle.pf_terms.specs.Value.{same, Value};
ghost use Rattle.pf_terms.specs.Order.{OrderIsExact, OrderIsTotal};

/// The order is total: turned round it is reversed, it is transitive, and equal values compare alike with others.
pub fn order_is_total()
    ensures { OrderIsTotal }
{}

/// Two values whose atoms have different names are equal in the order only where they are the same value.
pub fn order_is_exact()
    ensures { OrderIsExact }
{}

/// The test of sameness is true of two values exactly where they are one.
pub fn same_is_equality()
    ensures { (v w : Value) → IsTrue (same v w) ↔ (v ≡ w) }
{}
