//! Hints for forms that begin with a minus.

use crate::cure::Cure;

pub(crate) const FORMS: [Cure; 14] = [
    Cure {
        word: "spec",
        says: "Types aren't read: make this form a comment.",
        instead: "-spec add(integer()) -> integer().",
        write: "% -spec add(integer()) -> integer().",
    },
    Cure {
        word: "type",
        says: "Types aren't read: make this form a comment.",
        instead: "-type id() :: integer().",
        write: "% -type id() :: integer().",
    },
    Cure {
        word: "opaque",
        says: "Types aren't read: make this form a comment.",
        instead: "-opaque id() :: integer().",
        write: "% -opaque id() :: integer().",
    },
    Cure {
        word: "callback",
        says: "Types aren't read: make this form a comment.",
        instead: "-callback init(any()) -> any().",
        write: "% -callback init(any()) -> any().",
    },
    Cure {
        word: "export_type",
        says: "Types aren't read: make this form a comment.",
        instead: "-export_type([id/0]).",
        write: "% -export_type([id/0]).",
    },
    Cure {
        word: "record",
        says: "There are no records: a tuple with the record's name in front has the same fields.",
        instead: "-record(state, {count = 0, waiting = []}).",
        write: "new_state() -> {state, 0, []}.",
    },
    Cure {
        word: "define",
        says: "There is no macro but `?MODULE`: write a function that gives the value.",
        instead: "-define(LIMIT, 10).",
        write: "limit() -> 10.",
    },
    Cure {
        word: "include",
        says: "No file is included: write here what this module needs of it.",
        instead: "-include(\"limits.hrl\").",
        write: "limit() -> 10.",
    },
    Cure {
        word: "include_lib",
        says: "No file is included: write here what this module needs of it.",
        instead: "-include_lib(\"eunit/include/eunit.hrl\").",
        write: "main() -> 3 = add(1, 2), true.",
    },
    Cure {
        word: "import",
        says: "Nothing is imported: write the function in this module.",
        instead: "-import(lists, [sum/1]).",
        write: "sum([]) -> 0; sum([X | Rest]) -> X + sum(Rest).",
    },
    Cure {
        word: "behaviour",
        says: "There are no behaviours: write the server as a function that receives and calls itself.",
        instead: "handle_call(get, _From, N) -> {reply, N, N}.",
        write: "loop(N) -> receive {get, From} -> From ! {self(), N}, loop(N) end.",
    },
    Cure {
        word: "behavior",
        says: "There are no behaviours: write the server as a function that receives and calls itself.",
        instead: "handle_call(get, _From, N) -> {reply, N, N}.",
        write: "loop(N) -> receive {get, From} -> From ! {self(), N}, loop(N) end.",
    },
    Cure {
        word: "compile",
        says: "There are no options of a compiler: take this form out, and export what is called or spawned.",
        instead: "-compile(export_all).",
        write: "-export([main/0, worker/1]).",
    },
    Cure {
        word: "ifdef",
        says: "Nothing is chosen by macros: keep what is tested, and take out the other part.",
        instead: "-ifdef(TEST).",
        write: "main() -> true.",
    },
];

/// Any other such form.
pub(crate) const OTHER_FORM: Cure = Cure {
    word: "",
    says: "The forms `-module` and `-export` are the only ones with a minus: take this one out.",
    instead: "-author(\"me\").",
    write: "% -author(\"me\").",
};

/// An export after a function.
pub(crate) const LATE_EXPORT: Cure = Cure {
    word: "export",
    says: "Exports stand before the first function: move this form up.",
    instead: "main() -> ok.   -export([main/0]).",
    write: "-export([main/0]).   main() -> ok.",
};

/// A second name of the module.
pub(crate) const SECOND_MODULE: Cure = Cure {
    word: "module",
    says: "A source is one module: put the second one into a file of its own, or give its functions to the first.",
    instead: "-module(a).   -module(b).",
    write: "-module(a).",
};
