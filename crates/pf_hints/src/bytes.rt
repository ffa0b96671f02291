//! Hints for bytes that begin no token.

use crate::cure::{Cure, FoundCure, find_or};
use crate::modules::{
    CALLED_MODULE, COLON, ERLANG, LISTS, MODULES, OTHER_MODULE, OTHER_OF_ERLANG, OTHER_OF_LISTS,
    OWN_MODULE,
};
use crate::pieces::PieceKind;
use crate::place::SourcePlace;
use crate::words::TRY;

const RECORD: Cure = Cure {
    word: "#",
    says: "There are no records: a tuple with the record's name in front has the same fields.",
    instead: "S#state{count = N + 1}",
    write: "{state, N, Waiting} = S, {state, N + 1, Waiting}",
};

const MAP: Cure = Cure {
    word: "#{",
    says: "There are no maps: keep a list of pairs.",
    instead: "#{a => 1, b => 2}",
    write: "[{a, 1}, {b, 2}]",
};

const BASE: Cure = Cure {
    word: "#",
    says: "Integers are written in decimal: write the value.",
    instead: "16#ff",
    write: "255",
};

const MACRO: Cure = Cure {
    word: "?",
    says: "There is no macro but `?MODULE`: write a function that gives the value, and call it.",
    instead: "-define(LIMIT, 10).   N < ?LIMIT",
    write: "limit() -> 10.   N < limit()",
};

const MAYBE: Cure = Cure {
    word: "?=",
    says: "There is no `maybe`: write a `case` for each of its steps.",
    instead: "maybe {ok, A} ?= f(), g(A) else E -> E end",
    write: "case f() of {ok, A} -> g(A); E -> E end",
};

const FLOAT: Cure = Cure {
    word: ".",
    says: "There are no floats: reckon with integers in a smaller unit.",
    instead: "1.5",
    write: "15   (in tenths)",
};

const DOT: Cure = Cure {
    word: ".",
    says: "A dot ends a form only where a blank or a line end follows: put one after it.",
    instead: "f() -> 1.g() -> 2.",
    write: "f() -> 1. g() -> 2.",
};

const NOT_ASCII: Cure = Cure {
    word: "",
    says: "Only ASCII characters stand outside comments: write this one as its number.",
    instead: "\"caf\u{e9}\"",
    write: "\"caf\" ++ [233]",
};

const BYTE_ORDER_MARK: Cure = Cure {
    word: "",
    says: "The file begins with a byte order mark: save it as UTF-8 without one.",
    instead: "(byte order mark)-module(bank).",
    write: "-module(bank).",
};

const ESCAPE: Cure = Cure {
    word: "\\",
    says: "The escapes are `\\n`, `\\t`, `\\s`, `\\\\`, `\\'` and `\\\"`: write any other character as its number.",
    instead: "\"bell\\a\"",
    write: "\"bell\" ++ [7]",
};

const AMPERSAND: Cure = Cure {
    word: "&",
    says: "There is no `&`: write `andalso`.",
    instead: "X > 0 && Y > 0",
    write: "X > 0 andalso Y > 0",
};

/// Whether a `:` is after the class of an exception, in a clause of a `catch`.
fn is_after_class(place: &SourcePlace<'_>) -> bool {
    let class = place.text(place.before(1));
    match place.text(place.before(2)) {
        b"catch" => true,
        b";" => matches!(class, b"error" | b"exit" | b"throw"),
        _ => false,
    }
}

/// What is said of a `:` after the piece before it.
fn colon(place: &SourcePlace<'_>) -> FoundCure {
    let front = place.before(1);
    if is_after_class(place) {
        let position = place.start(place.before(2));
        return FoundCure {
            position,
            cure: TRY,
        };
    }
    let name = place.text(front);
    let function = place.text(place.piece(1));
    let cure = match place.kind(front) {
        _ if matches!(place.byte_after(), b'=' | b':') => COLON,
        Some(PieceKind::Variable) if name == b"MODULE".as_slice() => {
            let position = place.start(place.before(2));
            return FoundCure {
                position,
                cure: OWN_MODULE,
            };
        }
        Some(PieceKind::Variable) => CALLED_MODULE,
        Some(PieceKind::Word) if name == b"lists".as_slice() => find_or(
            &LISTS,
            function,
            OTHER_OF_LISTS,
        ),
        Some(PieceKind::Word) if name == b"erlang".as_slice() => {
            find_or(&ERLANG, function, OTHER_OF_ERLANG)
        }
        Some(PieceKind::Word) if name == place.own_name() => OWN_MODULE,
        Some(PieceKind::Word) => find_or(&MODULES, name, OTHER_MODULE),
        _ => COLON,
    };
    let position = if cure.word == COLON.word {
        place.offset
    } else {
        place.start(front)
    };
    FoundCure { position, cure }
}

/// What is said of a `#`.
fn hash(place: &SourcePlace<'_>) -> FoundCure {
    let position = place.start(place.before(1));
    match (place.byte_after(), place.byte_before()) {
        (b'{', _) => place.here(MAP),
        (_, b'0'..=b'9') => FoundCure {
            position,
            cure: BASE,
        },
        _ => place.here(RECORD),
    }
}

/// What is said of a dot that ends no form.
fn dot(place: &SourcePlace<'_>) -> FoundCure {
    let position = place.start(place.before(1));
    match (place.byte_before(), place.byte_after()) {
        (b'0'..=b'9', b'0'..=b'9') => FoundCure {
            position,
            cure: FLOAT,
        },
        _ => place.here(DOT),
    }
}

/// What is said of a byte that begins no token.
pub(crate) fn byte_cure(place: &SourcePlace<'_>) -> Option<FoundCure> {
    match place.byte(place.offset) {
        b'#' => Some(hash(place)),
        b':' => Some(colon(place)),
        b'.' => Some(dot(place)),
        b'?' if place.byte_after() == b'=' => Some(place.here(MAYBE)),
        b'?' => Some(place.here(MACRO)),
        b'&' => Some(place.here(AMPERSAND)),
        b'\\' => Some(place.here(ESCAPE)),
        128..=255 if place.offset == 0 && place.has("\u{feff}") => {
            Some(place.here(BYTE_ORDER_MARK))
        }
        128..=255 => Some(place.here(NOT_ASCII)),
        _ => None,
    }
}
