//! Laws of the definitions: functions with empty bodies, whose contracts are the laws.

ghost use Rattle.std.specs.Prelude.{◌≡◌, List, Option, ℕ};
ghost use Rattle.pf_model.specs.Properties.{Property};
ghost use Rattle.pf_property.specs.Texts.{IsPropertyOf, ReadsProperty};

/// Bytes are at most one property.
pub fn one_property()
    ensures { (names : List (List ℕ)) (bytes : List ℕ) (p q : Property) →
        ReadsProperty names bytes p → ReadsProperty names bytes q → p ≡ q }
{}

/// Bytes are some property, or none.
pub fn some_property()
    ensures { (names : List (List ℕ)) (bytes : List ℕ) →
        (o : Option Property) × IsPropertyOf names bytes o }
{}
