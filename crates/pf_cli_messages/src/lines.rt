//! Why a line of `steps` or of `farm` is no command.

use crate::wording::quoted;
use pf_errors::NoMemory;
use pf_text::{long_number_of, number_of, schedule_of};
use std::alloc::Global;

/// The first word of each command, and what follows it.
const FORMS: [(&str, &str); 17] = [
    ("submit", "P LEN"),
    ("order", "P M ROOT PROPERTY CHOICES LIMIT"),
    ("shrink", "P M ROOT PROPERTY LIST RUNS LIMIT"),
    ("fetch", "P T"),
    ("status", "P T"),
    ("drop", "P T"),
    ("withdraw", "P M"),
    ("usage", "P"),
    ("log", "P"),
    ("edition", "P E"),
    ("claim", "W P T"),
    ("slice", "W P T TURNS"),
    ("park", "W P T"),
    ("take", "W P T"),
    ("steal", "W V P T"),
    ("file", "W P T"),
    ("back", "W P T"),
];

/// The most words that follow the first one, and one more.
const MOST_ROLES: usize = 8;

/// What is before the first of these bytes, and what is after it if there is one.
fn cut(text: &[u8], at: u8) -> (&[u8], Option<&[u8]>) {
    match text.iter().position(|byte| *byte == at) {
        Some(end) => (&text[..end], Some(&text[end + 1..])),
        None => (text, None),
    }
}

/// What follows the first word of a command of this name.
fn form_of(name: &[u8]) -> Option<&'static str> {
    for (word, form) in FORMS {
        if name == word.as_bytes() {
            return Some(form);
        }
    }
    None
}

/// Whether a text is the weights of a process and of a channel.
fn are_weights(text: &[u8]) -> bool {
    match cut(text, b':') {
        (process, Some(channel)) => number_of(process).is_some() && number_of(channel).is_some(),
        _ => false,
    }
}

/// Whether a text is a seed, and maybe its weights.
fn is_seed(text: &[u8]) -> bool {
    let (seed, weights) = cut(text, b':');
    long_number_of(seed).is_some()
        && match weights {
            Some(weights) => are_weights(weights),
            None => true,
        }
}

fn is_schedule(alloc: Global, word: &[u8]) -> Result<bool, NoMemory> {
    Ok(schedule_of(alloc, word)?.is_some())
}

fn are_choices(alloc: Global, word: &[u8]) -> Result<bool, NoMemory> {
    match word.strip_prefix(b"seed:".as_slice()) {
        Some(seed) => Ok(is_seed(seed)),
        None => is_schedule(alloc, word),
    }
}

/// What a word of this role has to be, if it isn't.
fn wanted(alloc: Global, role: &[u8], word: &[u8]) -> Result<Option<&'static str>, NoMemory> {
    let (is_right, wants) = if role == b"ROOT".as_slice() || role == b"PROPERTY".as_slice() {
        let is_word = !word.is_empty() && !word.contains(&b'\t') && !word.contains(&b'\r');
        (is_word, "a word without tabulators and carriage returns")
    } else if role == b"CHOICES".as_slice() {
        let wants = "`seed:N`, `seed:N:R:D`, `none` or numbers with commas between them";
        (are_choices(alloc, word)?, wants)
    } else if role == b"LIST".as_slice() {
        let wants = "`none` or numbers with commas between them";
        (is_schedule(alloc, word)?, wants)
    } else if role == b"TURNS".as_slice() {
        let is_above = matches!(number_of(word), Some(1..));
        (
            is_above,
            "a number from 1 to 4294967295 without leading zeros",
        )
    } else {
        let wants = "a number from 0 to 4294967295 without leading zeros";
        (number_of(word).is_some(), wants)
    };
    if is_right { Ok(None) } else { Ok(Some(wants)) }
}

/// Why what follows the name of a command doesn't have its form.
fn form_reason(
    alloc: Global,
    name: &str,
    form: &str,
    words: Option<&[u8]>,
) -> Result<String, NoMemory> {
    let mut words = words;
    let mut roles = Some(form.as_bytes());
    for _ in 0..MOST_ROLES {
        let Some(role_on) = roles else {
            break;
        };
        let (role, more_roles) = cut(role_on, b' ');
        let role_text = quoted(alloc, role)?;
        let Some(text) = words else {
            return Ok(format!(in alloc; "{role_text} is missing: {name} wants `{form}` after it")?);
        };
        let (word, more_words) = cut(text, b' ');
        if let Some(wants) = wanted(alloc, role, word)? {
            let word_text = quoted(alloc, word)?;
            return Ok(format!(in alloc;
                "{word_text} is no {role_text} of {name}: it wants {wants}"
            )?);
        }
        words = more_words;
        roles = more_roles;
    }
    if words.is_some() {
        return Ok(format!(in alloc; "it has too many words: {name} wants `{form}` after it")?);
    }
    Ok(format!(in alloc; "the source of as many bytes, and a line end, don't follow {name}")?)
}

/// Why a line is no command, of which all is given or only the beginning.
pub fn line_reason(alloc: Global, line: &[u8], is_whole: bool) -> Result<String, NoMemory> {
    if line.is_empty() {
        return Ok(String::from_str(alloc, "the line is empty")?);
    }
    if is_whole && line.ends_with(b"\r".as_slice()) {
        let text = "the line ends in a carriage return, and a line feed alone ends a line";
        return Ok(String::from_str(alloc, text)?);
    }
    let (first, words) = cut(line, b' ');
    let name = quoted(alloc, first)?;
    match form_of(first) {
        None => Ok(format!(in alloc; "no command begins with {name}")?),
        Some(form) if is_whole => form_reason(alloc, &name, form, words),
        Some(form) => Ok(format!(in alloc; "{name} wants `{form}` after it")?),
    }
}

/// Whether this names a project, but not the one that it should.
fn is_other(word: &[u8], project: u32) -> bool {
    matches!(number_of(word), Some(other) if other != project)
}

/// Why a line of a client of this project is no command, of which all is given or only the beginning: it is a worker's
/// or of another project, or it is none of `steps` either.
pub fn client_line_reason(
    alloc: Global,
    project: u32,
    line: &[u8],
    is_whole: bool,
) -> Result<String, NoMemory> {
    let (first, words) = cut(line, b' ');
    let name = quoted(alloc, first)?;
    let form = if first == b"await".as_slice() {
        Some("P T")
    } else {
        form_of(first)
    };
    let Some(form) = form else {
        return line_reason(alloc, line, is_whole);
    };
    if form.starts_with('W') {
        return Ok(format!(in alloc; "{name} is a line of workers, and not of clients")?);
    }
    let (word, _) = cut(words.unwrap_or(&[]), b' ');
    if is_other(word, project) {
        let number = quoted(alloc, word)?;
        return Ok(format!(in alloc;
            "{number} is another project: the lines of this file are those of project {project}"
        )?);
    }
    if is_whole && first == b"await".as_slice() {
        return form_reason(alloc, &name, form, words);
    }
    line_reason(alloc, line, is_whole)
}
