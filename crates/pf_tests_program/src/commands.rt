//! Whole commands: what is written, and what is left if a call of the reader or of the writer fails.

use crate::streams::{Failing, WorkEnd, Worked, carry_out};
use pf_cli::{Args, read_args};
use std::alloc::Global;
use std::hash::RandomState;
use std::test::Fail;

/// A command, and what it writes.
#[derive(Clone, Copy)]
struct Case {
    words: &'static [&'static str],
    input: &'static str,
    /// What is written where no call fails, and with which status.
    out: &'static str,
    status: u8,
    /// How many bytes are written before the end of the input is read.
    answered: usize,
    /// How many writes there are, of 7 bytes each but the last.
    writes: u64,
    /// How many bytes are written before the last of them.
    written: usize,
}

const RUN: Case = Case {
    words: &[
        "pulsefarm",
        "run",
        "--root=main",
        "--limit=1000",
        "--seed=0",
    ],
    input: "-module(m).\n-export([main/0]).\nmain() -> 1 + 2 * 3.\n",
    out: "0/1 <0> end normal\nfinished 7\nsteps 4\nproperty holds\n",
    status: 0,
    answered: 0,
    writes: 8,
    written: 49,
};

const SHRINK: Case = Case {
    words: &[
        "pulsefarm",
        "shrink",
        "--root=main",
        "--limit=1000",
        "--schedule=0,0,0",
        "--property=nodeadlock",
        "--runs=9",
    ],
    input: "-module(m).\n-export([main/0]).\nmain() -> receive x -> ok end.\n",
    out: "schedule none\ncomplete\n0/1 <0> wait\ndeadlock <0>\nsteps 2\nproperty fails\n",
    status: 1,
    answered: 0,
    writes: 11,
    written: 70,
};

/// Two projects with one module, an order of each, and one trial that is run.
const STEPS: Case = Case {
    words: &["pulsefarm", "steps"],
    input: "submit 1 52\n-module(m).\n-export([main/0]).\nmain() -> 1 + 2 * 3.\n\n\
submit 2 52\n-module(m).\n-export([main/0]).\nmain() -> 1 + 2 * 3.\n\n\
order 1 1 main returns none 100\norder 2 1 main returns 5,9 100\nusage 1\nusage 2\n\
claim 0 1 1\nclaim 0 2 1\nslice 0 1 1 9\nfile 0 1 1\nfetch 1 1\nfetch 2 1\nfetch 2 2\nclaim 4 2 1\n",
    out: "p1 module 1\np2 module 1\np1 ticket 1\np2 ticket 1\n\
p1 usage 1 52 1 100 2\np2 usage 1 52 1 100 2\nw0 done\nw0 not now N2\nw0 done\nw0 done\n\
p1 report 4\n0/1 <0> end normal\nfinished 7\nsteps 4\nproperty holds\n\
p2 refused B5\np2 refused B3\nw4 not now N2\n",
    status: 0,
    answered: 237,
    writes: 34,
    written: 231,
};

/// Whether the work ended so, and the first n bytes of the text were written.
fn is_left(worked: &Worked, ended: WorkEnd, text: &str, count: usize) -> bool {
    worked.ended == ended && worked.out.len() == count && text.as_bytes().starts_with(&worked.out)
}

/// Whether the work of a case, where these calls fail, ends so when the first n bytes have gone out.
fn leaves(
    alloc: Global,
    keys: RandomState,
    args: &Args,
    case: &Case,
    failing: Failing,
    ended: WorkEnd,
    count: usize,
) -> bool {
    let worked = carry_out(alloc, keys, args, case.input.as_bytes(), failing);
    is_left(&worked, ended, case.out, count)
}

/// Whether all is written where no call fails, and else a beginning. One read gives the whole input and one its end, so
/// that a third can't fail.
fn is_answered(alloc: Global, keys: RandomState, args: &Args, case: &Case) -> bool {
    let none = Failing {
        read: 3,
        write: case.writes.saturating_add(1),
    };
    let read = Failing { read: 2, write: 0 };
    let write = Failing {
        read: 0,
        write: case.writes,
    };
    let all = case.out.len();
    leaves(
        alloc,
        keys,
        args,
        case,
        none,
        WorkEnd::Status(case.status),
        all,
    ) && leaves(
        alloc,
        keys,
        args,
        case,
        read,
        WorkEnd::NotRead,
        case.answered,
    ) && leaves(
        alloc,
        keys,
        args,
        case,
        write,
        WorkEnd::NotWritten,
        case.written,
    )
}

/// Whether the words of a case ask for what is answered so.
fn is_done(alloc: Global, keys: RandomState, case: &Case) -> bool {
    match read_args(alloc, case.words) {
        Ok(asked) => is_answered(alloc, keys, &asked.args, case),
        Err(_) => false,
    }
}

#[test]
fn calls_that_fail_leave_a_beginning(rt: HostRuntime) -> Result<(), Fail> {
    let keys = RandomState::new(&rt)?;
    for case in [RUN, SHRINK, STEPS] {
        assert!(rt; is_done(rt.alloc(), keys, &case));
    }
    Ok(())
}
