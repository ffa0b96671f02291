//! Hints for calls of functions that are built into Erlang and not into this language.

use crate::cure::Cure;

pub(crate) const UNDEFINED: [Cure; 17] = [
    Cure {
        word: "error",
        says: "There is no `error`: end the process with `exit`.",
        instead: "error(bad)",
        write: "exit(bad)",
    },
    Cure {
        word: "throw",
        says: "There is no `throw`: give the value back, or end the process with `exit`.",
        instead: "throw(not_found)",
        write: "exit(not_found)",
    },
    Cure {
        word: "spawn",
        says: "A function is spawned by its module, its name and the list of its arguments.",
        instead: "spawn(worker)",
        write: "spawn(?MODULE, worker, [])   with   -export([worker/0]).",
    },
    Cure {
        word: "spawn_link",
        says: "A function is spawned by its module, its name and the list of its arguments.",
        instead: "spawn_link(worker)",
        write: "spawn_link(?MODULE, worker, [])   with   -export([worker/0]).",
    },
    Cure {
        word: "spawn_monitor",
        says: "A function is spawned by its module, its name and the list of its arguments.",
        instead: "spawn_monitor(worker)",
        write: "spawn_monitor(?MODULE, worker, [])   with   -export([worker/0]).",
    },
    Cure {
        word: "send_after",
        says: "There are no timers: let a process of its own send the message when the scheduler chooses.",
        instead: "send_after(100, self(), tick)",
        write: "spawn(?MODULE, timer, [self()])   with   -export([timer/1]).   timer(P) -> P ! tick.",
    },
    Cure {
        word: "is_boolean",
        says: "There is no `is_boolean`: compare with `true` and `false`.",
        instead: "is_boolean(X)",
        write: "X =:= true orelse X =:= false",
    },
    Cure {
        word: "is_number",
        says: "All numbers are integers here: write `is_integer`.",
        instead: "is_number(X)",
        write: "is_integer(X)",
    },
    Cure {
        word: "is_float",
        says: "There are no floats, so nothing passes this test: take it out, or test for an integer.",
        instead: "is_float(X)",
        write: "is_integer(X)",
    },
    Cure {
        word: "is_process_alive",
        says: "There is no `is_process_alive`: monitor the process; the reason is `noproc` if it has ended before.",
        instead: "is_process_alive(P)",
        write: "M = monitor(process, P), receive {'DOWN', M, process, P, Why} -> Why end",
    },
    Cure {
        word: "abs",
        says: "There is no `abs`: write both signs.",
        instead: "abs(X)",
        write: "distance(X)   with   distance(X) when X < 0 -> -X; distance(X) -> X.",
    },
    Cure {
        word: "max",
        says: "There is no `max`: write a function of this module, by a name of its own.",
        instead: "max(A, B)",
        write: "larger(A, B)   with   larger(A, B) when A < B -> B; larger(A, _) -> A.",
    },
    Cure {
        word: "min",
        says: "There is no `min`: write a function of this module, by a name of its own.",
        instead: "min(A, B)",
        write: "smaller(A, B)   with   smaller(A, B) when B < A -> B; smaller(A, _) -> A.",
    },
    Cure {
        word: "setelement",
        says: "There is no `setelement`: take the tuple apart, and build the new one.",
        instead: "setelement(2, T, V)",
        write: "{A, _, C} = T, {A, V, C}",
    },
    Cure {
        word: "put",
        says: "There is no dictionary of a process: give the value on as an argument.",
        instead: "put(count, N), loop()",
        write: "loop(N)",
    },
    Cure {
        word: "get",
        says: "There is no dictionary of a process: give the value on as an argument.",
        instead: "loop() -> N = get(count), ..",
        write: "loop(N) -> ..",
    },
    Cure {
        word: "apply",
        says: "There is no `apply`: call a function by its name, and choose it by a `case`.",
        instead: "apply(?MODULE, F, [X])",
        write: "case F of add -> add(X); take -> take(X) end",
    },
];
