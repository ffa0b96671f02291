//! What a line of the file of a project's client asks for.

ghost use Rattle.std.specs.Prelude.{◌≡◌, Err, None, Some, IfOk};
ghost use Rattle.pf_protocol.specs.Clients.{awaited_ticket, client_line_at, own_call};
ghost use Rattle.pf_protocol.specs.Commands.{words_of_line};
ghost use Rattle.pf_protocol.specs.Faults.{no_command};
ghost use Rattle.pf_protocol.specs.View.{view_of_client_line};
ghost use Rattle.pf_world.specs.View.{view_of_step};

use crate::command::{LineFault, NoCommand, read_command};
use crate::split::{first_line, first_word, only_word};
use pf_errors::OrNoMemory;
use pf_request::{Call, Step};
use pf_text::number_of;
use std::alloc::Global;

/// What a line of a client's file asks for.
#[derive(Drop)]
pub enum ClientLine {
    Call(Call),
    /// To wait until the trial of a ticket is done, or isn't held.
    Await(u64),
}

/// The project and the ticket of a line that waits.
fn awaited(line: &[u8]) -> Option<(u32, u32)>
    ensures { result ≡ awaited_ticket (words_of_line line.now) }
{
    let (name, words) = first_word(line)?;
    let (project, words) = first_word(words)?;
    let ticket = only_word(words)?;
    if name != b"await".as_slice() {
        return None;
    }
    Some((number_of(project)?, number_of(ticket)?))
}

/// What a step is in a project's file: only a call of the project's client is anything there.
fn own_call(project: u32, step: Step, rest: &[u8]) -> Result<(ClientLine, &[u8]), LineFault>
    ensures call { IfOk result (λ r. own_call project (view_of_step step) rest.now
        ≡ Some (view_of_client_line r.0, r.1.now)) }
    ensures none { result ≡ Err no_command → own_call project (view_of_step step) rest.now ≡ None }
{
    match step {
        Step::Call {
            project: other,
            call,
        } if other == project => Ok((ClientLine::Call(call), rest)),
        _ => Err(OrNoMemory::Fault(NoCommand)),
    }
}

/// What the first command in the bytes of a project's file asks for, and what follows it. Only the
/// client's own calls are commands there, and `await P T`.
pub fn read_client_line(
    alloc: Global,
    project: u32,
    bytes: &[u8],
) -> Result<(ClientLine, &[u8]), LineFault>
    ensures line { IfOk result (λ r. client_line_at project bytes.now ≡ Some (view_of_client_line r.0, r.1.now)) }
    ensures none { result ≡ Err no_command → client_line_at project bytes.now ≡ None }
{
    let line = first_line(bytes);
    match awaited(line.text) {
        Some((other, ticket)) if other == project => {
            Ok((ClientLine::Await(u64::from(ticket)), line.rest))
        }
        Some(_) => Err(OrNoMemory::Fault(NoCommand)),
        None => {
            let (step, rest) = read_command(alloc, bytes)?;
            own_call(project, step, rest)
        }
    }
}
