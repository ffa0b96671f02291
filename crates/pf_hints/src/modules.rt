//! Hints for calls of other modules.

use crate::cure::Cure;

/// By the function of `lists`.
pub(crate) const LISTS: [Cure; 16] = [
    Cure {
        word: "map",
        says: "The module `lists` isn't here: write the function with its own recursion.",
        instead: "lists:map(fun(X) -> X * 2 end, Xs)",
        write: "doubled(Xs)   with   doubled([]) -> []; doubled([X | Rest]) -> [X * 2 | doubled(Rest)].",
    },
    Cure {
        word: "foreach",
        says: "The module `lists` isn't here: write the function with its own recursion.",
        instead: "lists:foreach(fun(P) -> P ! stop end, Ps)",
        write: "stop_all(Ps)   with   stop_all([]) -> ok; stop_all([P | Rest]) -> P ! stop, stop_all(Rest).",
    },
    Cure {
        word: "foldl",
        says: "The module `lists` isn't here: write the function with its own recursion.",
        instead: "lists:foldl(fun(X, Sum) -> Sum + X end, 0, Xs)",
        write: "sum(Xs, 0)   with   sum([], Sum) -> Sum; sum([X | Rest], Sum) -> sum(Rest, Sum + X).",
    },
    Cure {
        word: "filter",
        says: "The module `lists` isn't here: write the function with its own recursion.",
        instead: "lists:filter(fun(X) -> X > 0 end, Xs)",
        write: "positive(Xs)   with   positive([]) -> []; positive([X | Rest]) when X > 0 -> [X | positive(Rest)]; positive([_ | Rest]) -> positive(Rest).",
    },
    Cure {
        word: "reverse",
        says: "The module `lists` isn't here: write the function with its own recursion.",
        instead: "lists:reverse(Xs)",
        write: "reverse(Xs, [])   with   reverse([], Done) -> Done; reverse([X | Rest], Done) -> reverse(Rest, [X | Done]).",
    },
    Cure {
        word: "member",
        says: "The module `lists` isn't here: write the function with its own recursion.",
        instead: "lists:member(X, Xs)",
        write: "member(X, Xs)   with   member(_, []) -> false; member(X, [X | _]) -> true; member(X, [_ | Rest]) -> member(X, Rest).",
    },
    Cure {
        word: "seq",
        says: "The module `lists` isn't here: write the function with its own recursion.",
        instead: "lists:seq(1, N)",
        write: "seq(1, N)   with   seq(A, B) when A > B -> []; seq(A, B) -> [A | seq(A + 1, B)].",
    },
    Cure {
        word: "sum",
        says: "The module `lists` isn't here: write the function with its own recursion.",
        instead: "lists:sum(Xs)",
        write: "sum(Xs)   with   sum([]) -> 0; sum([X | Rest]) -> X + sum(Rest).",
    },
    Cure {
        word: "nth",
        says: "The module `lists` isn't here: write the function with its own recursion.",
        instead: "lists:nth(N, Xs)",
        write: "nth(N, Xs)   with   nth(1, [X | _]) -> X; nth(N, [_ | Rest]) -> nth(N - 1, Rest).",
    },
    Cure {
        word: "keyfind",
        says: "The module `lists` isn't here: write the function with its own recursion.",
        instead: "lists:keyfind(K, 1, Pairs)",
        write: "find(K, Pairs)   with   find(_, []) -> false; find(K, [{K, V} | _]) -> {K, V}; find(K, [_ | Rest]) -> find(K, Rest).",
    },
    Cure {
        word: "append",
        says: "The module `lists` isn't here: `++` appends.",
        instead: "lists:append(Xs, Ys)",
        write: "Xs ++ Ys",
    },
    Cure {
        word: "delete",
        says: "The module `lists` isn't here: write the function with its own recursion.",
        instead: "lists:delete(X, Xs)",
        write: "delete(X, Xs)   with   delete(_, []) -> []; delete(X, [X | Rest]) -> Rest; delete(X, [Y | Rest]) -> [Y | delete(X, Rest)].",
    },
    Cure {
        word: "all",
        says: "The module `lists` isn't here: write the function with its own recursion.",
        instead: "lists:all(fun(X) -> X > 0 end, Xs)",
        write: "all_positive(Xs)   with   all_positive([]) -> true; all_positive([X | Rest]) -> X > 0 andalso all_positive(Rest).",
    },
    Cure {
        word: "any",
        says: "The module `lists` isn't here: write the function with its own recursion.",
        instead: "lists:any(fun(X) -> X > 0 end, Xs)",
        write: "any_positive(Xs)   with   any_positive([]) -> false; any_positive([X | Rest]) -> X > 0 orelse any_positive(Rest).",
    },
    Cure {
        word: "keydelete",
        says: "The module `lists` isn't here: write the function with its own recursion.",
        instead: "lists:keydelete(K, 1, Pairs)",
        write: "without(K, Pairs)   with   without(_, []) -> []; without(K, [{K, _} | Rest]) -> Rest; without(K, [Pair | Rest]) -> [Pair | without(K, Rest)].",
    },
    Cure {
        word: "sort",
        says: "The module `lists` isn't here: write the function with its own recursion.",
        instead: "lists:sort(Xs)",
        write: "sort(Xs)   with   sort([]) -> []; sort([X | Rest]) -> insert(X, sort(Rest)).   insert(X, [Y | Rest]) when X > Y -> [Y | insert(X, Rest)]; insert(X, Ys) -> [X | Ys].",
    },
];

pub(crate) const OTHER_OF_LISTS: Cure = Cure {
    word: "lists",
    says: "The module `lists` isn't here: write the function with its own recursion.",
    instead: "lists:last(Xs)",
    write: "last(Xs)   with   last([X]) -> X; last([_ | Rest]) -> last(Rest).",
};

/// By the function of `erlang`, where it isn't built in.
pub(crate) const ERLANG: [Cure; 4] = [
    Cure {
        word: "send_after",
        says: "There are no timers: let a process of its own send the message when the scheduler chooses.",
        instead: "erlang:send_after(100, self(), tick)",
        write: "spawn(?MODULE, timer, [self()])   with   -export([timer/1]).   timer(P) -> P ! tick.",
    },
    Cure {
        word: "start_timer",
        says: "There are no timers: let a process of its own send the message when the scheduler chooses.",
        instead: "erlang:start_timer(100, self(), tick)",
        write: "spawn(?MODULE, timer, [self()])   with   -export([timer/1]).   timer(P) -> P ! tick.",
    },
    Cure {
        word: "error",
        says: "There is no `error`: end the process with `exit`.",
        instead: "erlang:error(bad)",
        write: "exit(bad)",
    },
    Cure {
        word: "send",
        says: "There is no function that sends: write `!`.",
        instead: "erlang:send(P, M)",
        write: "P ! M",
    },
];

pub(crate) const OTHER_OF_ERLANG: Cure = Cure {
    word: "erlang",
    says: "A function that is built in has no module in front here: take `erlang:` away.",
    instead: "erlang:monitor(process, P)",
    write: "monitor(process, P)",
};

/// By the module.
pub(crate) const MODULES: [Cure; 11] = [
    Cure {
        word: "io",
        says: "Nothing is printed: a report shows each message, so take this call out.",
        instead: "io:format(\"got ~p~n\", [X]), next(X)",
        write: "next(X)",
    },
    Cure {
        word: "timer",
        says: "No time passes: the scheduler tries each order without it, so take this call out.",
        instead: "timer:sleep(100), next(X)",
        write: "next(X)",
    },
    Cure {
        word: "gen_server",
        says: "There is no `gen_server`: send to the server, and receive its answer.",
        instead: "gen_server:call(Server, get)",
        write: "Server ! {get, self()}, receive {Server, Answer} -> Answer end",
    },
    Cure {
        word: "gen_statem",
        says: "There is no `gen_statem`: write a function for each state, which receives and calls the next one.",
        instead: "gen_statem:call(Door, open)",
        write: "closed() -> receive {open, From} -> From ! {self(), ok}, open() end.",
    },
    Cure {
        word: "supervisor",
        says: "There is no `supervisor`: monitor the process, and spawn it again when it is down.",
        instead: "supervisor:start_link(?MODULE, [])",
        write: "keep() -> {_, M} = spawn_monitor(?MODULE, worker, []), receive {'DOWN', M, process, _, _} -> keep() end.   with   -export([worker/0]).",
    },
    Cure {
        word: "maps",
        says: "There are no maps: keep a list of pairs.",
        instead: "maps:get(K, Map)",
        write: "get_value(K, Pairs)   with   get_value(K, [{K, V} | _]) -> V; get_value(K, [_ | Rest]) -> get_value(K, Rest).",
    },
    Cure {
        word: "proplists",
        says: "The module `proplists` isn't here: write the function with its own recursion.",
        instead: "proplists:get_value(K, Pairs)",
        write: "get_value(K, Pairs)   with   get_value(_, []) -> undefined; get_value(K, [{K, V} | _]) -> V; get_value(K, [_ | Rest]) -> get_value(K, Rest).",
    },
    Cure {
        word: "ets",
        says: "There are no tables: let a process hold the pairs, and answer who asks.",
        instead: "ets:insert(Table, {K, V})",
        write: "Table ! {insert, K, V}   with   table(Pairs) -> receive {insert, K, V} -> table([{K, V} | Pairs]) end.",
    },
    Cure {
        word: "rand",
        says: "There is no chance but the scheduler's: let two processes race, and take what comes first.",
        instead: "rand:uniform(2)",
        write: "spawn(?MODULE, coin, [self(), 1]), spawn(?MODULE, coin, [self(), 2]), receive N -> N end   with   -export([coin/2]).   coin(P, N) -> P ! N.",
    },
    Cure {
        word: "logger",
        says: "Nothing is logged: a report shows each message, so take this call out.",
        instead: "logger:info(\"got it\"), next(X)",
        write: "next(X)",
    },
    Cure {
        word: "error_logger",
        says: "Nothing is logged: a report shows each message, so take this call out.",
        instead: "error_logger:info_msg(\"got it\"), next(X)",
        write: "next(X)",
    },
];

pub(crate) const OTHER_MODULE: Cure = Cure {
    word: "",
    says: "No other module can be called: write the function in this module.",
    instead: "bank:balance(B)",
    write: "balance(B)   with   balance(B) -> B ! {balance, self()}, receive {B, N} -> N end.",
};

/// A call of the own module.
pub(crate) const OWN_MODULE: Cure = Cure {
    word: "",
    says: "A call has no module in front here: call the function by its name alone.",
    instead: "?MODULE:loop(N)",
    write: "loop(N)",
};

/// A module that is a variable.
pub(crate) const CALLED_MODULE: Cure = Cure {
    word: "",
    says: "A module is no value here: call a function by its name, and choose it by a `case`.",
    instead: "Module:init(N)",
    write: "case Kind of counter -> init_counter(N); queue -> init_queue(N) end",
};

/// A colon after anything else.
pub(crate) const COLON: Cure = Cure {
    word: ":",
    says: "A `:` stands nowhere in this language: calls have no module in front.",
    instead: "erlang:self()",
    write: "self()",
};
