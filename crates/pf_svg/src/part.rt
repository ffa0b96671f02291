//! What a document is made of.

ghost use Rattle.std.specs.Prelude.{◌≡◌, ◌++◌, OnOk, codes, flat_map};
ghost use Rattle.std.specs.Fmt.{decimal};
ghost use Rattle.pf_svg.specs.Document.{attribute_text, moved_text, part_text, point_text};

use crate::escape::{put_escaped, put_short};
use pf_errors::NoMemory;
use pf_text::{put, put_number};

/// A part of a document. Nothing but a label comes from outside the program.
#[derive(Clone, Copy)]
pub enum DocumentPart<'a> {
    /// Tags, or beginnings and ends of tags.
    Markup(&'static str),
    /// A word that is text, or in the quotes of an attribute.
    Phrase(&'static str),
    Number(u64),
    /// A pid, as `<0>`.
    Pid(u32),
    /// A point, as its two numbers with a blank between them.
    Point(u64, u64),
    /// An attribute of this name with a number for its value.
    Attribute(&'static str, u64),
    /// The attribute `class`, with this value.
    Class(&'static str),
    /// The attribute that moves an element to a point.
    Moved(u64, u64),
    Label(&'a [u8]),
    /// A label that is shortened if more than three bytes go beyond this length.
    Short(&'a [u8], usize),
}

fn put_pid(out: &mut Vec<u8>, pid: u32) -> Result<(), NoMemory>
    ensures { OnOk result (out.new.items ≡ out.old.items ++ (codes "&lt;" ++ decimal pid ++ codes "&gt;")) }
{
    put(out, b"&lt;")?;
    put_number(out, u64::from(pid))?;
    put(out, b"&gt;")
}

fn put_point(out: &mut Vec<u8>, x: u64, y: u64) -> Result<(), NoMemory>
    ensures { OnOk result (out.new.items ≡ out.old.items ++ point_text x y) }
{
    put_number(out, x)?;
    put(out, b" ")?;
    put_number(out, y)
}

fn put_attribute(out: &mut Vec<u8>, name: &str, value: u64) -> Result<(), NoMemory>
    ensures { OnOk result (out.new.items ≡ out.old.items ++ attribute_text name.now value) }
{
    put(out, b" ")?;
    put(out, name.as_bytes())?;
    put(out, b"=\"")?;
    put_number(out, value)?;
    put(out, b"\"")
}

fn put_class(out: &mut Vec<u8>, class: &str) -> Result<(), NoMemory>
    ensures { OnOk result (out.new.items ≡ out.old.items ++ (codes " class=\"" ++ class.now ++ codes "\"")) }
{
    put(out, b" class=\"")?;
    put(out, class.as_bytes())?;
    put(out, b"\"")
}

fn put_moved(out: &mut Vec<u8>, x: u64, y: u64) -> Result<(), NoMemory>
    ensures { OnOk result (out.new.items ≡ out.old.items ++ moved_text x y) }
{
    put(out, b" transform=\"translate(")?;
    put_number(out, x)?;
    put(out, b" ")?;
    put_number(out, y)?;
    put(out, b")\"")
}

fn put_part(out: &mut Vec<u8>, part: &DocumentPart) -> Result<(), NoMemory>
    ensures { OnOk result (out.new.items ≡ out.old.items ++ part_text part.now) }
{
    match *part {
        DocumentPart::Markup(word) | DocumentPart::Phrase(word) => put(out, word.as_bytes()),
        DocumentPart::Number(number) => put_number(out, number),
        DocumentPart::Pid(pid) => put_pid(out, pid),
        DocumentPart::Point(x, y) => put_point(out, x, y),
        DocumentPart::Attribute(name, value) => put_attribute(out, name, value),
        DocumentPart::Class(class) => put_class(out, class),
        DocumentPart::Moved(x, y) => put_moved(out, x, y),
        DocumentPart::Label(label) => put_escaped(out, label),
        DocumentPart::Short(label, most) => put_short(out, label, most),
    }
}

/// Puts parts one after another.
pub(crate) fn put_parts(out: &mut Vec<u8>, parts: &[DocumentPart]) -> Result<(), NoMemory>
    ensures { OnOk result (out.new.items ≡ out.old.items ++ flat_map part_text parts.now) }
{
    for part in parts {
        put_part(out, part)?;
    }
    Ok(())
}
