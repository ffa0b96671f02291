//! Laws of the definitions: functions with empty bodies, whose contracts are the laws.

ghost use Rattle.std.specs.Prelude.{◌≡◌, ℕ, List, true, false};
ghost use Rattle.std.specs.List.{list_all};
ghost use Rattle.pf_svg.specs.Escaped.{escaped, is_byte, is_text, short};

/// Whatever bytes a label has, in a document it is text, also if it is shortened.
pub fn labels_stay_text()
    ensures whole { (label : List ℕ) → list_all is_byte label ≡ true → is_text false (escaped label) ≡ true }
    ensures shortened { (most : ℕ) (label : List ℕ) → list_all is_byte label ≡ true →
        is_text false (short most label) ≡ true }
{}
