//! What is said of a refusal.

ghost use Rattle.std.specs.Prelude.{IfOk};
ghost use Rattle.pf_hints.specs.Advised.{IsAdvice};

use crate::around::innermost;
use crate::bytes::byte_cure;
use crate::cure::{Cure, FoundCure, find, find_or, found_at};
use crate::forms::{FORMS, LATE_EXPORT, OTHER_FORM, SECOND_MODULE};
use crate::pieces::PieceKind;
use crate::place::SourcePlace;
use crate::tokens::token_cure;
use crate::undefined::UNDEFINED;
use pf_diagnostics::{Advice, Rewrite, plain};
use pf_errors::{Code, NoMemory, SourceRefusal};
use std::alloc::Global;

const CLAUSE: Cure = Cure {
    word: ";",
    says: "A dot ends a function: between two clauses of one function stands a semicolon.",
    instead: "f(0) -> a.   f(_) -> b.",
    write: "f(0) -> a;   f(_) -> b.",
};

/// The row of a form by its word, which may be one of several that share a row.
fn form_row(word: &[u8]) -> Cure {
    match word {
        b"ifndef" | b"else" | b"endif" | b"undef" | b"elif" => find_or(
            &FORMS, b"ifdef", OTHER_FORM,
        ),
        _ => find_or(&FORMS, word, OTHER_FORM),
    }
}

/// What is said of a form that begins with a minus.
fn form_cure(place: &SourcePlace<'_>) -> Option<FoundCure> {
    let name = place.of_form(1);
    let begins = place.text(place.of_form(0)) == b"-".as_slice();
    if !begins || place.at < place.form || place.kind(name) != Some(PieceKind::Word) {
        return None;
    }
    let is_first = place.form == 0;
    let is_front = place.start(place.of_form(0)) == place.offset;
    let cure = match place.text(name) {
        b"module" if is_first => return None,
        b"module" => SECOND_MODULE,
        b"export" if is_front => LATE_EXPORT,
        b"export" => return None,
        word => form_row(word),
    };
    Some(FoundCure {
        position: place.start(name),
        cure,
    })
}

/// What is said of a clause after a dot.
fn clause_cure(place: &SourcePlace<'_>) -> Option<FoundCure> {
    let name = place.text(place.of_form(0));
    if place.at != place.form || place.text(place.of_last_form()) != name {
        return None;
    }
    found_at(place.start(place.before(1)), Some(CLAUSE))
}

/// The hint for a refusal by this code at a place, if one is known.
fn cure(alloc: Global, place: &SourcePlace<'_>, code: Code) -> Result<Option<FoundCure>, NoMemory> {
    let form = form_cure(place);
    match code {
        Code::UnexpectedByte if form.is_some() => Ok(form),
        Code::NotGrammar if form.is_some() => Ok(form),
        Code::UnexpectedByte => Ok(byte_cure(place)),
        Code::NotGrammar => {
            let level = innermost(alloc, place)?;
            Ok(token_cure(place, level))
        }
        Code::Undefined => {
            let name = place.text(place.piece(0));
            Ok(found_at(place.offset, find(&UNDEFINED, name)))
        }
        Code::DefinedTwice => Ok(clause_cure(place)),
        _ => Ok(None),
    }
}

/// What is said of a source that is refused: of a construct that is known, what the language has in its place, with an
/// example; of all else the sentence of the code.
pub fn advise(alloc: Global, source: &[u8], refusal: SourceRefusal) -> Result<Advice, NoMemory>
    ensures { IfOk result (λ a. IsAdvice source.now refusal.code refusal.offset a) }
{
    let place = SourcePlace::new(alloc, source, refusal.offset)?;
    let Some(found) = cure(alloc, &place, refusal.code)? else {
        return Ok(plain(refusal));
    };
    let Cure {
        says,
        instead,
        write,
        ..
    } = found.cure;
    Ok(Advice {
        position: found.position.min(source.len()),
        sentence: says,
        rewrite: Some(Rewrite { instead, write }),
    })
}
