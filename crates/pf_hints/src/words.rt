//! Hints for reserved words that no rule allows.

use crate::cure::Cure;

pub(crate) const TRY: Cure = Cure {
    word: "try",
    says: "There is no `try`: let the call run in a process of its own, and receive how that ends.",
    instead: "try risky(X) of _ -> ok catch _:_ -> failed end",
    write: "{_, M} = spawn_monitor(?MODULE, risky, [X]), receive {'DOWN', M, process, _, normal} -> ok; {'DOWN', M, process, _, _} -> failed end   with   -export([risky/1]).",
};

pub(crate) const WORDS: [Cure; 16] = [
    Cure {
        word: "fun",
        says: "There are no funs here: write a function with a name, and give it what the fun takes from around it.",
        instead: "lists:foreach(fun(P) -> P ! stop end, Ps)",
        write: "stop_all(Ps)   with   stop_all([]) -> ok; stop_all([P | Rest]) -> P ! stop, stop_all(Rest).",
    },
    Cure {
        word: "after",
        says: "There is no `after`: let a process of its own send a message when the time is over, which the scheduler chooses.",
        instead: "receive {ok, V} -> V after 100 -> late end",
        write: "spawn(?MODULE, timer, [self()]), receive {ok, V} -> V; timeout -> late end   with   -export([timer/1]).   timer(P) -> P ! timeout.",
    },
    Cure {
        word: "catch",
        says: "There is no `catch`: let the call run in a process of its own, and receive how that ends.",
        instead: "R = (catch risky(X))",
        write: "{_, M} = spawn_monitor(?MODULE, risky, [X]), R = receive {'DOWN', M, process, _, Why} -> Why end   with   -export([risky/1]).",
    },
    TRY,
    Cure {
        word: "begin",
        says: "There is no `begin .. end`: write its expressions one after another, or make a function of them.",
        instead: "X = begin A = f(), A + 1 end",
        write: "A = f(), X = A + 1",
    },
    Cure {
        word: "not",
        says: "There is no `not`: compare with `false`.",
        instead: "not is_pid(P)",
        write: "is_pid(P) =:= false",
    },
    Cure {
        word: "and",
        says: "There is no `and`: write `andalso`.",
        instead: "X > 0 and is_pid(P)",
        write: "X > 0 andalso is_pid(P)",
    },
    Cure {
        word: "or",
        says: "There is no `or`: write `orelse`.",
        instead: "X =:= a or is_pid(P)",
        write: "X =:= a orelse is_pid(P)",
    },
    Cure {
        word: "xor",
        says: "There is no `xor`: two truth values differ where `=/=` holds.",
        instead: "A xor B",
        write: "A =/= B",
    },
    Cure {
        word: "band",
        says: "There are no operators on bits: reckon with `div` and `rem`.",
        instead: "N band 7",
        write: "N rem 8   (for an N that isn't negative)",
    },
    Cure {
        word: "bor",
        says: "There are no operators on bits: reckon with `+`, or keep a list of what is set.",
        instead: "Flags bor 4",
        write: "[four | Flags]",
    },
    Cure {
        word: "bxor",
        says: "There are no operators on bits: reckon with `+` and `rem`.",
        instead: "Bit bxor 1",
        write: "1 - Bit",
    },
    Cure {
        word: "bnot",
        says: "There are no operators on bits: `bnot N` is `-N - 1`.",
        instead: "bnot N",
        write: "-N - 1",
    },
    Cure {
        word: "bsl",
        says: "There are no operators on bits: multiply.",
        instead: "N bsl 3",
        write: "N * 8",
    },
    Cure {
        word: "bsr",
        says: "There are no operators on bits: divide.",
        instead: "N bsr 3",
        write: "N div 8   (for an N that isn't negative)",
    },
    Cure {
        word: "maybe",
        says: "There is no `maybe`: write a `case` for each of its steps.",
        instead: "maybe {ok, A} ?= f(), g(A) else E -> E end",
        write: "case f() of {ok, A} -> g(A); E -> E end",
    },
];

/// A fun that is spawned.
pub(crate) const SPAWNED_FUN: Cure = Cure {
    word: "spawn",
    says: "There are no funs here: spawn a function by its name, and export it.",
    instead: "spawn(fun() -> worker(Me) end)",
    write: "spawn(?MODULE, worker, [Me])   with   -export([worker/1]).",
};
