//! The facts that a line reports.

ghost use Rattle.std.specs.Prelude.{◌≡◌, ◌≤◌, length};
ghost use Rattle.std.specs.List.{prefix_len};
ghost use Rattle.pf_json.specs.Facts.{is_no_blank, said, fact_value};
ghost use Rattle.pf_json.specs.Views.{view_of_fact, view_of_value};

use pf_text::long_number_of;

/// What is reported under a key.
#[derive(Drop, Clone, Copy)]
pub(crate) enum Value<'a> {
    Number(u64),
    Text(&'a [u8]),
    Truth(bool),
}

/// A fact under its key.
#[derive(Drop, Clone, Copy)]
pub(crate) struct Fact<'a> {
    pub key: &'a [u8],
    pub value: Value<'a>,
}

/// The number above all that are reported as numbers.
const LIMIT: u64 = 9_007_199_254_740_992;

/// The value that a text is.
pub(crate) fn value_of(text: &[u8]) -> Value<'_>
    ensures { view_of_value result ≡ fact_value text.now }
{
    match long_number_of(text) {
        Some(number) if number < LIMIT => Value::Number(number),
        _ => Value::Text(text),
    }
}

/// How many bytes are before the first blank.
pub(crate) fn before_blank(text: &[u8]) -> usize
    ensures is { result ≡ prefix_len is_no_blank text.now }
    ensures within { result ≤ length text.now }
{
    text.iter().take_while(|byte| **byte != b' ').count()
}

/// The fact by the rule of words: a word alone, or one before the others.
pub(crate) fn said(line: &[u8]) -> Fact<'_>
    ensures { view_of_fact result ≡ said line.now }
{
    let length = before_blank(line);
    if length == line.len() {
        let value = Value::Truth(true);
        return Fact { key: line, value };
    }
    Fact {
        key: &line[..length],
        value: value_of(&line[length + 1..]),
    }
}
