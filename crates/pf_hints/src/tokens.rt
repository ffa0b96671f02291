//! Hints for tokens that no rule allows where they are.

use crate::around::{Level, LevelStage, Opener};
use crate::cure::{Cure, FoundCure, find, find_or, found_at};
use crate::guards::{GUARDS, OTHER_IN_GUARD};
use crate::pieces::{PieceKind, SourcePiece};
use crate::place::SourcePlace;
use crate::words::{SPAWNED_FUN, WORDS};

const BINARY: Cure = Cure {
    word: "<<",
    says: "There are no binaries: write a string, or a list of bytes.",
    instead: "<<\"hello\">>",
    write: "\"hello\"",
};

const COMPREHENSION: Cure = Cure {
    word: "||",
    says: "There are no list comprehensions: write a function that goes through the list.",
    instead: "[X * 2 || X <- Xs, X > 0]",
    write: "f(Xs)   with   f([]) -> []; f([X | Rest]) when X > 0 -> [X * 2 | f(Rest)]; f([_ | Rest]) -> f(Rest).",
};

const SUBTRACT: Cure = Cure {
    word: "--",
    says: "There is no `--`: write a function that takes an element out of a list.",
    instead: "Xs -- [X]",
    write: "delete(X, Xs)   with   delete(_, []) -> []; delete(X, [X | Rest]) -> Rest; delete(X, [Y | Rest]) -> [Y | delete(X, Rest)].",
};

const TWO_MINUSES: Cure = Cure {
    word: "-",
    says: "Two minuses don't stand in a row: put the second one into parentheses.",
    instead: "- -X",
    write: "-(-X)",
};

const PLUS: Cure = Cure {
    word: "+",
    says: "No plus stands in front of a number: take it out.",
    instead: "+1",
    write: "1",
};

const ALIAS: Cure = Cure {
    word: "=",
    says: "A pattern has no second name: match the parts, and build the whole again where it is needed.",
    instead: "f({add, N} = M) -> g(N, M).",
    write: "f({add, N}) -> g(N, {add, N}).",
};

const MATCH_IN_GUARD: Cure = Cure {
    word: "=",
    says: "A guard compares: write `=:=`.",
    instead: "f(X) when X = 1 -> ..",
    write: "f(X) when X =:= 1 -> ..",
};

const MATCH_INSIDE: Cure = Cure {
    word: "=",
    says: "A match stands by itself, and not inside another expression: write it in front.",
    instead: "f(X = g(), X)",
    write: "X = g(), f(X, X)",
};

const NO_PATTERN: Cure = Cure {
    word: "=",
    says: "To the left of `=` stands a pattern, of variables, atoms, integers, tuples and lists alone: to compare write `=:=`.",
    instead: "X + 1 = Y",
    write: "X + 1 =:= Y",
};

const AT_MOST: Cure = Cure {
    word: "<=",
    says: "At most is written `=<`.",
    instead: "X <= Y",
    write: "X =< Y",
};

const UNEQUAL: Cure = Cure {
    word: "!=",
    says: "Unequal is written `=/=`.",
    instead: "X != Y",
    write: "X =/= Y",
};

const IN_A_ROW: Cure = Cure {
    word: "<",
    says: "Comparisons don't stand in a row: write two of them, and `andalso` between.",
    instead: "1 < X < 9",
    write: "1 < X andalso X < 9",
};

const PREFIX: Cure = Cure {
    word: "++",
    says: "No `++` stands in a pattern: write the first elements and the rest.",
    instead: "f(\"ab\" ++ Rest) -> ..",
    write: "f([$a, $b | Rest]) -> ..",
};

const APPEND_IN_GUARD: Cure = Cure {
    word: "++",
    says: "No `++` stands in a guard: append in the body, and compare by a `case`.",
    instead: "f(X, Y) when X ++ Y =:= \"ab\" -> ..",
    write: "f(X, Y) -> case X ++ Y of \"ab\" -> .. end",
};

const OPERATOR_IN_PATTERN: Cure = Cure {
    word: "+",
    says: "A pattern doesn't reckon or compare: take a variable, and test it in a guard.",
    instead: "f(1 + 1) -> ..",
    write: "f(N) when N =:= 1 + 1 -> ..",
};

const PARENTHESES: Cure = Cure {
    word: "(",
    says: "No parentheses stand in a pattern: take them out.",
    instead: "f((X)) -> ..",
    write: "f(X) -> ..",
};

const CALL_IN_PATTERN: Cure = Cure {
    word: "(",
    says: "A pattern calls no function: take a variable, and compare it with what the call gives.",
    instead: "f(limit()) -> ..",
    write: "f(N) -> case N =:= limit() of true -> .. end",
};

const CALL_OF_VALUE: Cure = Cure {
    word: "(",
    says: "There are no funs, so a variable can't be called: call a function by its name, and choose it by a `case`.",
    instead: "F(X)",
    write: "case F of add -> add(X); take -> take(X) end",
};

const UNDERSCORE: Cure = Cure {
    word: "_",
    says: "No `_` stands in an integer: write its digits alone.",
    instead: "1_000",
    write: "1000",
};

const TWO_STRINGS: Cure = Cure {
    word: "\"",
    says: "Two strings don't stand side by side: write them as one, or `++` between them.",
    instead: "\"ab\" \"cd\"",
    write: "\"ab\" ++ \"cd\"",
};

const NO_DOT: Cure = Cure {
    word: ".",
    says: "The form in front isn't ended: put a dot here.",
    instead: "f() -> g()   at the end of a function",
    write: "f() -> g().",
};

const NO_END: Cure = Cure {
    word: "end",
    says: "This is never closed: put an `end` after its last clause.",
    instead: "f(X) -> case X of 1 -> a; _ -> b.",
    write: "f(X) -> case X of 1 -> a; _ -> b end.",
};

const NO_BRACKET: Cure = Cure {
    word: ")",
    says: "This bracket is never closed: close it.",
    instead: "f(g(X).",
    write: "f(g(X)).",
};

const NO_COMMA: Cure = Cure {
    word: ",",
    says: "Something is missing here: a comma between two expressions, or a semicolon between two clauses.",
    instead: "X = f() g(X)",
    write: "X = f(), g(X)",
};

const NOTHING_AFTER: Cure = Cure {
    word: ",",
    says: "Nothing follows this before what closes: take it out.",
    instead: "case X of 1 -> a; 2 -> b; end",
    write: "case X of 1 -> a; 2 -> b end",
};

const NOTHING_OPEN: Cure = Cure {
    word: "end",
    says: "Nothing is open that this closes: take it out, or open it.",
    instead: "f() -> g() end.",
    write: "f() -> g().",
};

/// Whether an operand may end with this piece.
fn ends_operand(place: &SourcePlace<'_>, piece: Option<SourcePiece>) -> bool {
    match place.kind(piece) {
        Some(PieceKind::Variable | PieceKind::Number | PieceKind::Quoted) => true,
        Some(PieceKind::Mark) => matches!(place.text(piece), b")" | b"]" | b"}"),
        Some(PieceKind::Word) => !matches!(
            place.text(piece),
            b"of"
                | b"when"
                | b"andalso"
                | b"orelse"
                | b"div"
                | b"rem"
                | b"case"
                | b"if"
                | b"receive"
        ),
        _ => false,
    }
}

/// What is said of a word that is reserved in Erlang.
fn word(place: &SourcePlace<'_>) -> Option<FoundCure> {
    let front = place.before(1);
    if place.text(front) == b"maybe".as_slice() {
        return found_at(place.start(front), find(&WORDS, b"maybe"));
    }
    let is_spawned = place.text(place.before(2)).starts_with(b"spawn");
    if place.has("fun") && place.text(front) == b"(".as_slice() && is_spawned {
        return Some(place.here(SPAWNED_FUN));
    }
    found_at(place.offset, find(&WORDS, place.text(place.piece(0))))
}

/// What is said of a match, by what is read there.
fn matching(place: &SourcePlace<'_>, level: Level) -> Cure {
    match (place.byte_before(), level.stage, level.opener) {
        (b'<', _, _) => AT_MOST,
        (b'!', _, _) => UNEQUAL,
        (_, LevelStage::Pattern, _) => ALIAS,
        (_, LevelStage::Guard, _) => MATCH_IN_GUARD,
        (_, LevelStage::Body, Opener::Bracket | Opener::Case) => MATCH_INSIDE,
        (_, LevelStage::Body, _) => NO_PATTERN,
    }
}

/// What is said of a parenthesis that opens.
fn parenthesis(place: &SourcePlace<'_>, level: Level) -> Option<FoundCure> {
    let name = place.before(1);
    let position = place.start(name);
    match (place.kind(name), level.stage) {
        (Some(PieceKind::Word), LevelStage::Guard) => {
            let cure = find_or(&GUARDS, place.text(name), OTHER_IN_GUARD);
            Some(FoundCure { position, cure })
        }
        (Some(PieceKind::Word), LevelStage::Pattern) => found_at(position, Some(CALL_IN_PATTERN)),
        (Some(PieceKind::Variable), _) => found_at(position, Some(CALL_OF_VALUE)),
        (_, LevelStage::Pattern) => Some(place.here(PARENTHESES)),
        _ => None,
    }
}

/// Whether a minus comes after another, or before one.
fn is_second_minus(place: &SourcePlace<'_>) -> bool {
    place.has("--") || place.text(place.before(1)) == b"-".as_slice()
}

/// What is said of arithmetic operators, `++` and `--`.
fn sign(place: &SourcePlace<'_>, level: Level) -> Option<Cure> {
    let has_left = ends_operand(place, place.before(1));
    if place.has("--") && has_left {
        return Some(SUBTRACT);
    }
    match (level.stage, place.has("++"), place.byte(place.offset)) {
        (LevelStage::Pattern, true, _) => Some(PREFIX),
        (LevelStage::Guard, true, _) => Some(APPEND_IN_GUARD),
        (LevelStage::Pattern, _, _) if has_left => Some(OPERATOR_IN_PATTERN),
        (_, _, b'+') if !has_left => Some(PLUS),
        (_, _, b'-') if !has_left && is_second_minus(place) => Some(TWO_MINUSES),
        _ => None,
    }
}

/// What is said of comparison operators.
fn comparison(place: &SourcePlace<'_>, level: Level) -> Option<Cure> {
    if !ends_operand(place, place.before(1)) {
        return None;
    }
    match level.stage {
        LevelStage::Pattern => Some(OPERATOR_IN_PATTERN),
        _ => Some(IN_A_ROW),
    }
}

/// Whether an equals sign is a match.
fn is_match(place: &SourcePlace<'_>) -> bool {
    !place.has("==") && !place.has("=:") && !place.has("=/") && !place.has("=<")
}

/// What is said of a mark.
fn mark(place: &SourcePlace<'_>, level: Level) -> Option<FoundCure> {
    match place.byte(place.offset) {
        b'|' if place.byte_before() == b'|' => {
            found_at(place.offset.saturating_sub(1), Some(COMPREHENSION))
        }
        b'<' if place.byte_after() == b'-' => Some(place.here(COMPREHENSION)),
        b'<' if place.byte_after() == b'<' => Some(place.here(BINARY)),
        b'=' if is_match(place) => Some(place.here(matching(place, level))),
        b'(' => parenthesis(place, level),
        b'+' | b'-' | b'*' => found_at(place.offset, sign(place, level)),
        b'<' | b'>' | b'=' | b'/' => found_at(place.offset, comparison(place, level)),
        _ => None,
    }
}

/// Whether the piece there begins a form, or nothing is there.
fn begins_form(place: &SourcePlace<'_>) -> bool {
    let piece = place.piece(0);
    match place.kind(piece) {
        None => true,
        Some(PieceKind::Dot) => true,
        Some(PieceKind::Word) => place.begins_line()
            && place.text(place.piece(1)) == b"(".as_slice(),
        Some(PieceKind::Mark) => place.begins_line() && place.has("-"),
        _ => false,
    }
}

/// What is said where a form goes on, or ends, though something is open.
fn ending(place: &SourcePlace<'_>, level: Level) -> Option<FoundCure> {
    let position = level.start;
    match level.opener {
        Opener::Bracket => found_at(position, Some(NO_BRACKET)),
        Opener::Case | Opener::If | Opener::Other => found_at(position, Some(NO_END)),
        Opener::Form => match place.before(1) {
            Some(front) if place.kind(place.piece(0)) != Some(PieceKind::Dot) => {
                found_at(front.end, Some(NO_DOT))
            }
            _ => None,
        },
    }
}

/// What is said of a piece that closes.
fn closing(place: &SourcePlace<'_>, level: Level) -> Option<FoundCure> {
    let is_bracket = matches!(place.text(place.piece(0)), b")" | b"]" | b"}");
    match level.opener {
        Opener::Form => Some(place.here(NOTHING_OPEN)),
        Opener::Bracket if !is_bracket => found_at(level.start, Some(NO_BRACKET)),
        Opener::Case | Opener::If | Opener::Other if is_bracket => {
            found_at(level.start, Some(NO_END))
        }
        _ => None,
    }
}

/// What is said of what is missing or too much.
fn order(place: &SourcePlace<'_>, level: Level) -> Option<FoundCure> {
    let front = place.before(1);
    let has_left = ends_operand(place, front);
    let closes = matches!(place.text(place.piece(0)), b"end" | b")" | b"]" | b"}");
    let is_comma = matches!(place.text(front), b"," | b";");
    match place.kind(place.piece(0)) {
        _ if has_left && begins_form(place) => ending(place, level),
        _ if closes && has_left => closing(place, level),
        Some(PieceKind::Dot) if is_comma => found_at(place.start(front), Some(NOTHING_AFTER)),
        Some(_) if closes && is_comma => found_at(place.start(front), Some(NOTHING_AFTER)),
        Some(PieceKind::Word | PieceKind::Variable | PieceKind::Number | PieceKind::Quoted)
            if has_left => { found_at(place.end_of(front), Some(NO_COMMA)) }
        _ => None,
    }
}

/// What is said of a number, a string or a variable that follows another at once.
fn neighbour(place: &SourcePlace<'_>) -> Option<FoundCure> {
    let front = place.before(1);
    match (place.kind(front), place.byte(place.offset)) {
        (Some(PieceKind::Number), b'_') if place.byte_before().is_ascii_digit() => {
            found_at(place.start(front), Some(UNDERSCORE))
        }
        (Some(PieceKind::Quoted), b'"') if place.text(front).starts_with(b"\"") => {
            Some(place.here(TWO_STRINGS))
        }
        _ => None,
    }
}

/// What is said of a token that no rule allows.
pub(crate) fn token_cure(place: &SourcePlace<'_>, level: Level) -> Option<FoundCure> {
    let word = word(place);
    if word.is_some() {
        return word;
    }
    let neighbour = neighbour(place);
    if neighbour.is_some() {
        return neighbour;
    }
    let mark = mark(place, level);
    if mark.is_some() {
        return mark;
    }
    order(place, level)
}
