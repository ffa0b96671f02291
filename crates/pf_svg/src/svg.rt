//! A document in SVG, which grows at its end by parts.

ghost use Rattle.std.specs.Prelude.{◌≡◌, ◌++◌, ℕ, List, [], IsTrue, OnOk, codes, flat_map};
ghost use Rattle.std.specs.List.{list_all};
ghost use Rattle.pf_svg.specs.Document.{
  ClosesElement,
  DrawsDocument,
  DrawsFrom,
  OpensElement,
  after_all,
  curve_text,
  document_end,
  is_attribute,
  is_fixed,
  is_said,
  is_value,
  labels_of_part,
  straight_line_text,
  part_text,
  start_text,
  stroke_text,
};
ghost use Rattle.pf_svg.specs.Places.{DocumentPlace, outside, read};
ghost use Rattle.pf_svg.specs.Words.{is_phrase, is_document_word};

use crate::part::DocumentPart::{self, Attribute, Markup, Phrase, Point};
use crate::part::put_parts;
use pf_errors::NoMemory;
use std::alloc::Global;
use std::marker::{Model, PhantomData};

/// The words that occur in documents of a kind beside the tags and attributes that all of them have.
pub trait Vocabulary {
    ghost words: { List (List ℕ) };
}

/// A document, or the beginning of one, in the words of `W`.
#[derive(Drop)]
pub struct Svg<W: Vocabulary> {
    bytes: Vec<u8>,
    words: PhantomData<W>,
}

impl<W: Vocabulary> Model for Svg<W> {
    ghost Value = { List ℕ };

    ghost view = { λ s. s.bytes.items };
}

impl<W: Vocabulary> Svg<W> {
    pub fn new(alloc: Global) -> Self
        ensures { result ≡ [] }
    {
        Svg {
            bytes: Vec::new(alloc),
            words: PhantomData,
        }
    }

    pub fn as_bytes(&self) -> &[u8]
        ensures { result.now ≡ self.now }
    {
        &self.bytes
    }

    /// Puts parts at the end, wherever it is.
    fn add(&mut self, parts: &[DocumentPart]) -> Result<(), NoMemory>
        requires { IsTrue (list_all (is_fixed W.words) parts.now) }
        ensures text { OnOk result (self.new ≡ self.old ++ flat_map part_text parts.now) }
        ensures drawn { OnOk result ((place : DocumentPlace) → DrawsFrom W.words place
            (flat_map labels_of_part parts.now) (after_all place parts.now) self.old self.new) }
    {
        put_parts(&mut self.bytes, parts)
    }

    /// Puts parts that are whole elements, or are outside tags.
    pub fn put(&mut self, parts: &[DocumentPart]) -> Result<(), NoMemory>
        requires fixed { IsTrue (list_all (is_fixed W.words) parts.now) }
        requires whole { (opened : List (List ℕ)) → after_all (outside opened) parts.now ≡ outside opened }
        ensures { OnOk result (DrawsDocument W.words (flat_map labels_of_part parts.now) self.old self.new) }
    {
        self.add(parts)
    }

    /// Puts the beginning of a document of this size.
    pub fn open(&mut self, width: u64, height: u64) -> Result<(), NoMemory>
        ensures { OnOk result (self.new ≡ self.old ++ start_text width height) }
    {
        self.add(&[
            Markup("<svg xmlns=\"http://www.w3.org/2000/svg\" role=\"img\""),
            Attribute("width", width),
            Attribute("height", height),
            Markup(" viewBox=\"0 0 "),
            Point(width, height),
            Markup("\">\n"),
        ])
    }

    /// Puts parts between the beginning and the end of an element.
    fn element(
        &mut self,
        start: &'static str,
        content: &[DocumentPart],
        end: &'static str,
    ) -> Result<(), NoMemory>
        requires start { IsTrue (is_document_word W.words start.now) }
        requires content { IsTrue (list_all (is_fixed W.words) content.now) }
        requires end { IsTrue (is_document_word W.words end.now) }
        ensures { OnOk result ((place : DocumentPlace) → DrawsFrom W.words place (flat_map labels_of_part content.now)
            (read (after_all (read place start.now) content.now) end.now) self.old self.new) }
    {
        self.add(&[Markup(start)])?;
        self.add(content)?;
        self.add(&[Markup(end)])
    }

    /// Puts a tooltip, or the title of the document.
    pub fn title(&mut self, content: &[DocumentPart]) -> Result<(), NoMemory>
        requires { IsTrue (list_all (is_said W.words) content.now) }
        ensures { OnOk result (DrawsDocument W.words (flat_map labels_of_part content.now) self.old self.new) }
    {
        self.element("<title>", content, "</title>")
    }

    /// Puts a text of a class at a point.
    pub fn text(
        &mut self,
        class: &'static str,
        at: (u64, u64),
        content: &[DocumentPart],
    ) -> Result<(), NoMemory>
        requires class { IsTrue (is_phrase W.words class.now) }
        requires content { IsTrue (list_all (is_said W.words) content.now) }
        ensures { OnOk result (DrawsDocument W.words (flat_map labels_of_part content.now) self.old self.new) }
    {
        let (x, y) = at;
        self.add(&[
            Markup("<text class=\""),
            Phrase(class),
            Markup("\""),
            Attribute("x", x),
            Attribute("y", y),
        ])?;
        self.element(">", content, "</text>")
    }

    /// Puts a path of this outline.
    pub fn path(&mut self, outline: &'static str) -> Result<(), NoMemory>
        requires { IsTrue (is_phrase W.words outline.now) }
        ensures { OnOk result (DrawsDocument W.words [] self.old self.new) }
    {
        self.add(&[Markup("<path d=\""), Phrase(outline), Markup("\"/>")])
    }

    /// Puts a line from point to point, as a path.
    pub fn stroke(&mut self, from: (u64, u64), to: (u64, u64)) -> Result<(), NoMemory>
        ensures text { OnOk result (self.new ≡ self.old ++ stroke_text from to) }
        ensures drawn { OnOk result (DrawsDocument W.words [] self.old self.new) }
    {
        self.add(&[
            Markup("<path d=\"M"),
            Point(from.0, from.1),
            Phrase("L"),
            Point(to.0, to.1),
            Markup("\"/>"),
        ])
    }

    /// Puts a curve from point to point, as a path; the two points between bend it.
    pub fn curve(
        &mut self,
        from: (u64, u64),
        between: ((u64, u64), (u64, u64)),
        to: (u64, u64),
    ) -> Result<(), NoMemory>
        ensures text { OnOk result (self.new ≡ self.old ++ curve_text from between.0 between.1 to) }
        ensures drawn { OnOk result (DrawsDocument W.words [] self.old self.new) }
    {
        let ((x, y), (right, below)) = between;
        self.add(&[
            Markup("<path d=\"M"),
            Point(from.0, from.1),
            Phrase("C"),
            Point(x, y),
            Phrase(" "),
            Point(right, below),
            Phrase(" "),
            Point(to.0, to.1),
            Markup("\"/>"),
        ])
    }

    /// Puts a line of a class straight down.
    pub fn line(&mut self, class: &'static str, x: u64, from: u64, to: u64) -> Result<(), NoMemory>
        requires { IsTrue (is_phrase W.words class.now) }
        ensures text { OnOk result (self.new ≡ self.old ++ straight_line_text class.now x from x to) }
        ensures drawn { OnOk result (DrawsDocument W.words [] self.old self.new) }
    {
        self.add(&[
            Markup("<line class=\""),
            Phrase(class),
            Markup("\""),
            Attribute("x1", x),
            Attribute("y1", from),
            Attribute("x2", x),
            Attribute("y2", to),
            Markup("/>"),
        ])
    }

    /// Puts a rectangle of these attributes.
    pub fn rect(&mut self, attributes: &[DocumentPart]) -> Result<(), NoMemory>
        requires { IsTrue (list_all (is_attribute W.words) attributes.now) }
        ensures { OnOk result (DrawsDocument W.words (flat_map labels_of_part attributes.now) self.old self.new) }
    {
        self.element("<rect", attributes, "/>")
    }

    /// Puts the beginning of a group of a class, with these attributes.
    pub fn group(
        &mut self,
        class: &[DocumentPart],
        attributes: &[DocumentPart],
    ) -> Result<(), NoMemory>
        requires class { IsTrue (list_all (is_value W.words) class.now) }
        requires attributes { IsTrue (list_all (is_attribute W.words) attributes.now) }
        ensures { OnOk result (OpensElement W.words (codes "g")
            (flat_map labels_of_part class.now ++ flat_map labels_of_part attributes.now) self.old self.new) }
    {
        self.element("<g class=\"", class, "\"")?;
        self.add(attributes)?;
        self.add(&[Markup(">")])
    }

    /// Puts the beginning of a group without a class.
    pub fn plain_group(&mut self) -> Result<(), NoMemory>
        ensures { OnOk result (OpensElement W.words (codes "g") [] self.old self.new) }
    {
        self.add(&[Markup("<g>")])
    }

    /// Puts the end of a group.
    pub fn close_group(&mut self) -> Result<(), NoMemory>
        ensures { OnOk result (ClosesElement W.words (codes "g") [] self.old self.new) }
    {
        self.add(&[Markup("</g>\n")])
    }

    /// Puts the end of a line of the document's bytes.
    pub fn end_line(&mut self) -> Result<(), NoMemory>
        ensures { OnOk result (DrawsDocument W.words [] self.old self.new) }
    {
        self.add(&[Markup("\n")])
    }

    /// Puts the end of the document.
    pub fn close(&mut self) -> Result<(), NoMemory>
        ensures { OnOk result (self.new ≡ self.old ++ document_end) }
    {
        self.add(&[Markup("</svg>\n")])
    }
}
