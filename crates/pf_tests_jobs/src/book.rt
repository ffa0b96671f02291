//! Each call of a client and each claim of a worker once, at one book.

use pf_book::{Book, Reply};
use pf_check::Source;
use pf_request::{Order, Request, RequestKind, RunChoices, ShortBytes};
use pf_sched::{Finished, Job, Scratch, Silent, run_to_end};
use std::alloc::Global;
use std::hash::RandomState;
use std::sync::Arc;
use std::test::Fail;

const SUM: &[u8] = b"-module(m).\n-export([main/0]).\nmain() -> 1 + 2 * 3.\n";

const DIFFERENCE: &[u8] = b"-module(m).\n-export([main/0]).\nmain() -> 1 - 2.\n";

/// Whether a reply is of the kind that this word names.
fn is(reply: Reply, kind: &str) -> bool {
    let word = match &reply {
        Reply::Module(_) => "module",
        Reply::Ticket(_) => "ticket",
        Reply::Result(_) => "result",
        Reply::Stage(_) => "stage",
        Reply::GivenUp => "given up",
        Reply::Usage(_) => "usage",
        Reply::Logged(_) => "logged",
        Reply::HasEdition => "edition",
        Reply::Refused(_) => "refused",
    };
    word == kind
}

fn submitted(alloc: Global, book: &mut Book, project: u32, source: &[u8]) -> Result<Reply, Fail> {
    let source = Source::new(alloc, Vec::from_slice(alloc, source)?)?;
    Ok(book.submit(alloc, project, source)?)
}

fn ordered(alloc: Global, book: &mut Book, project: u32) -> Result<Reply, Fail> {
    let request = Request {
        root: ShortBytes::from_slice(alloc, b"main")?,
        property: ShortBytes::from_slice(alloc, b"returns")?,
        kind: RequestKind::Run(RunChoices::Seed(0)),
        limit: 100,
    };
    Ok(book.order(alloc, project, Order { module: 1, request })?)
}

/// Whether the one trial is claimed, and claimed by its ticket once it was handed back.
fn is_claimed(book: &mut Book) -> Result<bool, Fail> {
    let claimed = book.claim()?.is_some() && book.hand_back(3, 1);
    Ok(claimed && book.claim_at(3, 1)?.is_some())
}

/// Whether a client is answered as it has to be on its submission, its order and the status of its trial.
fn begins(alloc: Global, book: &mut Book) -> Result<bool, Fail> {
    Ok(
        is(submitted(alloc, book, 3, SUM)?, "module")
            & is(ordered(alloc, book, 3)?, "ticket")
            & is(book.status(alloc, 3, 1)?, "stage"),
    )
}

/// The same of its other calls: its trial isn't done, and is given up with its module.
fn ends(alloc: Global, book: &mut Book) -> Result<bool, Fail> {
    Ok(
        is(book.fetch(alloc, 3, 1)?, "refused")
            & is(book.drop_trial(alloc, 3, 1)?, "given up")
            & is(book.withdraw(alloc, 3, 1)?, "given up")
            & is(book.edition(alloc, 3, 2)?, "edition")
            & is(book.log(alloc, 3)?, "logged")
            & is(book.usage(alloc, 3)?, "usage"),
    )
}

/// Whether each call is answered, and the trial is claimed between the first and the last ones.
fn is_reported(alloc: Global, book: &mut Book) -> Result<bool, Fail> {
    Ok(begins(alloc, book)? & is_claimed(book)? & ends(alloc, book)?)
}

#[test]
fn each_call_is_answered(rt: HostRuntime) -> Result<(), Fail> {
    let mut book = Book::new(rt.alloc(), RandomState::new(&rt)?);
    let reported = is_reported(rt.alloc(), &mut book)?;
    assert!(rt; reported);
    Ok(())
}

/// The job of a project's first trial, a run of this source's `main`, once it is claimed.
fn claimed(alloc: Global, book: &mut Book, project: u32, source: &[u8]) -> Result<Arc<Job>, Fail> {
    submitted(alloc, book, project, source)?;
    ordered(alloc, book, project)?;
    match book.claim_at(project, 1)? {
        Some(job) => Ok(job),
        None => Err(Fail::from("the trial isn't queued")),
    }
}

fn run(alloc: Global, job: &Arc<Job>) -> Result<Finished, Fail> {
    let mut scratch = Scratch::new(alloc);
    Ok(run_to_end(alloc, Arc::try_clone(job)?, &mut scratch, &mut Silent)?)
}

/// Whether the result of project 3's trial is filed under the equal ticket of project 4, then under its own, and then
/// once more.
fn filings(alloc: Global, book: &mut Book) -> Result<[bool; 3], Fail> {
    let job = claimed(alloc, book, 3, SUM)?;
    claimed(alloc, book, 4, DIFFERENCE)?;
    let elsewhere = book.file(4, 1, run(alloc, &job)?);
    let own = book.file(3, 1, run(alloc, &job)?);
    let again = book.file(3, 1, run(alloc, &job)?);
    Ok([elsewhere, own, again])
}

#[test]
fn a_result_is_filed_once_and_under_its_own_trial(rt: HostRuntime) -> Result<(), Fail> {
    let mut book = Book::new(rt.alloc(), RandomState::new(&rt)?);
    let filed = filings(rt.alloc(), &mut book)?;
    assert_eq!(rt; filed, [false, true, false]);
    Ok(())
}
