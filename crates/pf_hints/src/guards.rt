//! Hints for calls in guards.

use crate::cure::Cure;

pub(crate) const GUARDS: [Cure; 9] = [
    Cure {
        word: "is_float",
        says: "There are no floats, so nothing passes this test: take it out, or test for an integer.",
        instead: "f(X) when is_float(X) -> ..",
        write: "f(X) when is_integer(X) -> ..",
    },
    Cure {
        word: "is_number",
        says: "All numbers are integers here: write `is_integer`.",
        instead: "f(X) when is_number(X) -> ..",
        write: "f(X) when is_integer(X) -> ..",
    },
    Cure {
        word: "is_boolean",
        says: "There is no `is_boolean`: compare with `true` and `false`.",
        instead: "f(X) when is_boolean(X) -> ..",
        write: "f(X) when X =:= true; X =:= false -> ..",
    },
    Cure {
        word: "is_map",
        says: "There are no maps, so nothing passes this test: keep a list of pairs, and test for a list.",
        instead: "f(X) when is_map(X) -> ..",
        write: "f(X) when is_list(X) -> ..",
    },
    Cure {
        word: "is_binary",
        says: "There are no binaries, so nothing passes this test: write strings, and test for a list.",
        instead: "f(X) when is_binary(X) -> ..",
        write: "f(X) when is_list(X) -> ..",
    },
    Cure {
        word: "is_function",
        says: "There are no funs, so nothing passes this test: pass the name of a function, and test for an atom.",
        instead: "f(X) when is_function(X) -> ..",
        write: "f(X) when is_atom(X) -> ..",
    },
    Cure {
        word: "is_record",
        says: "There are no records: match a tuple in the head whose first element is the name of the record.",
        instead: "f(S) when is_record(S, state) -> ..",
        write: "f({state, N}) -> ..",
    },
    Cure {
        word: "abs",
        says: "There is no `abs`: write both signs.",
        instead: "f(X) when abs(X) < 3 -> ..",
        write: "f(X) when X < 3, -X < 3 -> ..",
    },
    Cure {
        word: "size",
        says: "There is no `size`: write `tuple_size`.",
        instead: "f(T) when size(T) =:= 2 -> ..",
        write: "f(T) when tuple_size(T) =:= 2 -> ..",
    },
];

pub(crate) const OTHER_IN_GUARD: Cure = Cure {
    word: "",
    says: "A guard can't call this function: call it in the body, and look at what it gives by a `case`.",
    instead: "f(X) when even(X) -> a; f(_) -> b.",
    write: "f(X) -> case even(X) of true -> a; false -> b end.",
};
