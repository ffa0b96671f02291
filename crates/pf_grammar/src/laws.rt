//! Laws of the grammar: functions with empty bodies, whose contracts are the laws.

ghost use Rattle.std.specs.Prelude.{◌≡◌, List, ℕ, Some};
ghost use Rattle.pf_tokens.specs.NumberedTokens.{NumberedToken};
ghost use Rattle.pf_grammar.specs.Grammar.{DerivesTree, Tree};
ghost use Rattle.pf_grammar.specs.Parse.{tree};

/// What is read from left to right is derived by the grammar.
pub fn reading_is_sound()
    ensures { (atoms : List (List ℕ)) (ts : List NumberedToken) (m : Tree) → tree atoms ts ≡ Some m
        → DerivesTree atoms m ts }
{}

/// What the grammar derives is read from left to right.
pub fn reading_is_complete()
    ensures { (atoms : List (List ℕ)) (ts : List NumberedToken) (m : Tree) → DerivesTree atoms m ts
        → tree atoms ts ≡ Some m }
{}

/// No tokens have two trees.
pub fn one_tree()
    ensures { (atoms : List (List ℕ)) (ts : List NumberedToken) (a b : Tree) → DerivesTree atoms a ts
        → DerivesTree atoms b ts → a ≡ b }
{}
