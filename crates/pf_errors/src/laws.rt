//! A law of codes: a function with an empty body, whose contract is the law.

ghost use Rattle.std.specs.Prelude.{◌≡◌};
ghost use Rattle.pf_errors.specs.Codes.{rank_of};
ghost use Rattle.pf_errors.specs.declared.code.Code.{Code};

/// No two codes have one index in the table.
pub fn codes_are_apart()
    ensures { (c d : Code) → rank_of c ≡ rank_of d → c ≡ d }
{}
