//! Texts for standard error, without the bytes that a terminal would act on.

use std::fmt;

/// A text that shows what is odd in it: `\x` and two digits in place of a byte that isn't text, or that controls a
/// terminal.
#[derive(Clone, Copy)]
pub struct ShownText<'a> {
    pub text: &'a str,
    /// Whether line ends stay.
    pub has_lines: bool,
}

impl fmt::Display for ShownText<'_> {
    fn fmt<W: fmt::Write>(&self, f: &mut fmt::Formatter<W>) -> fmt::Result {
        for c in self.text.chars() {
            if c == '\0' {
                f.write_str("\\x")?;
            } else if c.is_control() && !(self.has_lines && c == '\n') {
                write!(f, "\\x{:02x}", u32::from(c))?;
            } else {
                f.write_char(c)?;
            }
        }
        Ok(())
    }
}

/// The two parts of what is said of refused words, without the tip between them if that says to write `-- -1`, which is
/// of no use for the value of an option.
pub fn without_tip(text: &str) -> (&str, &str) {
    let Some((front, tip)) = text.split_once("  tip: to pass '-") else {
        return (text, "");
    };
    match tip.split_once("\n\n") {
        Some((first, back)) if first.starts_with(|c: char| c.is_ascii_digit()) => (front, back),
        _ => (text, ""),
    }
}
