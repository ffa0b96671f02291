//! The line in front of a client's bytes is done, and what it is answered with.

ghost use Rattle.std.specs.Prelude.{◌≡◌, None, IfOk, MatchOption, OnErr, false};
ghost use Rattle.pf_protocol.specs.View.{view_of_client_line};
ghost use Rattle.pf_protocol.specs.Clients.{awaits, calls, client_line_at};
ghost use Rattle.pf_request.specs.View.{view_of_call};
ghost use Rattle.pf_wire.specs.Steps.{last_text};
ghost use Rattle.pf_wire.specs.declared.outcome.Requester.TheVariants as requester;
ghost use Rattle.pf_wire.specs.Whole.{whole_text};
ghost use Rattle.pf_pool.specs.Responses.{response_in};
ghost use Rattle.pf_clients.specs.Lines.{answer_in, call_text, AnswersFront, AnswersLine, CutsLine, IsCut};

use crate::watch::Watch;
use pf_book::Reply;
use pf_errors::{NoMemory, OrNoMemory};
use pf_farm::{ClientSeat, Floor};
use pf_farm_accounts::FarmNames;
use pf_pool::Response;
use pf_protocol::{ClientLine, NoCommand, read_client_line};
use pf_request::Call;
use pf_wire::{Requester, WrittenAnswer, put_no_command, put_outcome};
use std::alloc::Global;
use std::sync::Wait;

/// A line that was done: what it is answered with, and the bytes that follow it.
#[derive(Drop)]
pub(crate) struct AnsweredLine {
    pub reported: WrittenAnswer,
    pub rest: Vec<u8>,
}

/// What came of a call, as what a world responds.
fn response_of(outcome: Result<Reply, NoMemory>) -> Result<Response, NoMemory>
    ensures { response_in result ≡ answer_in outcome }
{
    match outcome {
        Ok(reply) => Ok(Response::Reply(reply)),
        Err(NoMemory) => Err(NoMemory),
    }
}

/// The client of a project, as who is sent an answer.
fn client_of(project: u32) -> Requester
    ensures { result ≡ requester.Client project }
{
    Requester::Client { project }
}

/// The text of what came of a project's call.
fn text_of(
    alloc: Global,
    project: u32,
    outcome: Result<Reply, NoMemory>,
) -> Result<WrittenAnswer, NoMemory>
    ensures { IfOk result (λ t. whole_text t ≡ call_text project outcome) }
{
    let response = response_of(outcome);
    let mut reported = WrittenAnswer {
        text: Vec::new(alloc),
        report: None,
    };
    put_outcome(alloc, &mut reported, client_of(project), response)?;
    Ok(reported)
}

/// The text that says that the line of this number is no command.
pub(crate) fn refusal(alloc: Global, number: u64) -> Result<WrittenAnswer, NoMemory>
    ensures { IfOk result (λ t. whole_text t ≡ last_text false number) }
{
    let mut text = Vec::new(alloc);
    put_no_command(alloc, &mut text, number)?;
    Ok(WrittenAnswer { text, report: None })
}

/// Makes a call, and gives its answer: the reply that its new receipt bears, or that the call is refused.
fn answer_call<N: FarmNames, T: Wait, G: Watch>(
    alloc: Global,
    rt: &T,
    floor: &Floor<N>,
    watch: &G,
    seat: &mut ClientSeat<N>,
    call: Call,
) -> Result<WrittenAnswer, NoMemory>
    ensures answered { IfOk result (λ t. AnswersLine (calls (view_of_call call)) seat.old seat.new (whole_text t)) }
    ensures err { OnErr result (CutsLine (calls (view_of_call call)) seat.old seat.new) }
{
    let project = seat.project();
    let outcome = floor.call(alloc, rt, seat, call);
    if let Ok(Reply::Ticket(_)) = &outcome {
        watch.ordered(project);
    }
    text_of(alloc, project, outcome)
}

/// Waits for the trial of a ticket, which has an empty answer.
fn wait<N: FarmNames, T: Wait>(
    alloc: Global,
    rt: &T,
    floor: &Floor<N>,
    seat: &mut ClientSeat<N>,
    ticket: u64,
) -> WrittenAnswer
    ensures { AnswersLine (awaits ticket) seat.old seat.new (whole_text result) }
{
    floor.wait_done(rt, seat, ticket);
    let text = Vec::new(alloc);
    WrittenAnswer { text, report: None }
}

/// Does what a line asks for, and gives its answer, which is empty where the line waits.
fn answer_line<N: FarmNames, T: Wait, G: Watch>(
    alloc: Global,
    rt: &T,
    floor: &Floor<N>,
    watch: &G,
    seat: &mut ClientSeat<N>,
    line: ClientLine,
) -> Result<WrittenAnswer, NoMemory>
    ensures answered { IfOk result (λ t. AnswersLine (view_of_client_line line) seat.old seat.new (whole_text t)) }
    ensures err { OnErr result (CutsLine (view_of_client_line line) seat.old seat.new) }
{
    match line {
        ClientLine::Call(call) => answer_call(alloc, rt, floor, watch, seat, call),
        ClientLine::Await(ticket) => Ok(wait(alloc, rt, floor, seat, ticket)),
    }
}

/// Does what the first line of some bytes asks for; none, if it is no command.
pub(crate) fn answer_front<N: FarmNames, T: Wait, G: Watch>(
    alloc: Global,
    rt: &T,
    floor: &Floor<N>,
    watch: &G,
    seat: &mut ClientSeat<N>,
    bytes: &[u8],
) -> Result<Option<AnsweredLine>, NoMemory>
    ensures answered { IfOk result (λ o. MatchOption o
        ((client_line_at seat.old.project bytes.now ≡ None) × (seat.new ≡ seat.old))
        (λ a. AnswersFront bytes.now a.rest.items seat.old seat.new (whole_text a.reported))) }
    ensures err { OnErr result (IsCut bytes.now seat.old seat.new) }
{
    match read_client_line(alloc, seat.project(), bytes) {
        Ok((line, after)) => {
            let reported = answer_line(alloc, rt, floor, watch, seat, line)?;
            let rest = Vec::from_slice(alloc, after)?;
            Ok(Some(AnsweredLine { reported, rest }))
        }
        Err(OrNoMemory::Fault(NoCommand)) => Ok(None),
        Err(OrNoMemory::NoMemory) => Err(NoMemory),
    }
}
