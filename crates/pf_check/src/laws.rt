//! Laws of reading: functions with empty bodies, whose contracts are the laws.

ghost use Rattle.std.specs.Prelude.{◌≤◌, List, ℕ, length};
ghost use Rattle.pf_tokens.specs.TokenKinds.{PlacedToken};
ghost use Rattle.pf_tokens.specs.Rules.{HasTokens};
ghost use Rattle.pf_tokens.specs.NumberedTokens.{numbered_tokens};
ghost use Rattle.pf_tokens.specs.Offsets.{IsOffsetOf};
ghost use Rattle.pf_check.specs.Reads.{ReadOutcome, Reads, SameOutcome};

/// A source is read in one way: as one module, or with one refusal at one offset, but for the offset of E5, which isn't
/// stated.
pub fn one_outcome()
    ensures { (bytes : List ℕ) (o p : ReadOutcome) → Reads bytes o → Reads bytes p → SameOutcome o p }
{}

/// Every source is read in some way.
pub fn some_outcome()
    ensures { (bytes : List ℕ) → (o : ReadOutcome) × Reads bytes o }
{}

/// The offsets of the tokens of a source and that of its end, one of which E5 has, are within it.
pub fn offsets_are_within()
    ensures { (bytes : List ℕ) (ts : List PlacedToken) (offset : ℕ) →
        HasTokens bytes ts → IsOffsetOf (numbered_tokens ts) (length bytes) offset → offset ≤ length bytes }
{}
