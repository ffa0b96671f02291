//! The limits of a source and of values.

ghost use Rattle.std.specs.Prelude.{◌≡◌};
ghost use Rattle.pf_terms.specs.declared.limits.TheConstants.{MOST_DEPTH, MOST_NODES};
ghost use Rattle.pf_tokens.specs.declared.limits.TheConstants.{MOST_NAME_BYTES, MOST_TEXT_CHARACTERS, MOST_TREE_DEPTH};
ghost use Rattle.pf_tokens.specs.declared.scan.TheConstants.{MOST_SOURCE_BYTES};

/// How long a source may be, an atom of it and a string, and how deep a pattern or an expression.
pub fn source_limits_are()
    ensures bytes { MOST_SOURCE_BYTES ≡ 65536 }
    ensures atom { MOST_NAME_BYTES ≡ 255 }
    ensures string { MOST_TEXT_CHARACTERS ≡ 4095 }
    ensures depth { MOST_TREE_DEPTH ≡ 256 }
{}

/// How many nodes a value may have, and how deep it may be.
pub fn value_limits_are()
    ensures nodes { MOST_NODES ≡ 4096 }
    ensures depth { MOST_DEPTH ≡ 64 }
{}
