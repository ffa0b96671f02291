//! The command at the front of some bytes.

ghost use Rattle.std.specs.Prelude.{◌≡◌, Err, None, Some, true, IfOk};
ghost use Rattle.std.specs.Option.{option_map};
ghost use Rattle.pf_request.specs.Calls.{submit};
ghost use Rattle.pf_world.specs.Steps.{client_calls};
ghost use Rattle.pf_world.specs.View.{view_of_step};
ghost use Rattle.pf_protocol.specs.Commands.{command_at, with_source};
ghost use Rattle.pf_protocol.specs.Faults.{no_command};

use crate::line::{LineContent, read_line};
use crate::split::first_line;
use pf_check::Source;
use pf_errors::{Code, OrNoMemory};
use pf_request::{Call, Step};
use std::alloc::Global;
use std::error::Error;
use std::fmt;

/// `C1`: the line is no command. It prints as its code.
#[derive(Clone, Copy, Debug, PartialEq, Eq)]
pub struct NoCommand;

impl fmt::Display for NoCommand {
    ghost use Rattle.std.specs.Prelude.{Some};
    ghost use Rattle.pf_errors.specs.Codes.{code_text};
    ghost use Rattle.pf_errors.specs.declared.code.Code.TheVariants as code;

    ghost output = { λ _. Some (code_text code.NoCommand) };

    fn fmt<W: fmt::Write>(&self, f: &mut fmt::Formatter<W>) -> fmt::Result {
        write!(f, "{}", Code::NoCommand)
    }
}

impl Error for NoCommand {}

/// Why no command was read.
pub type LineFault = OrNoMemory<NoCommand>;

/// The source of n bytes that comes first, and what follows the line end after it.
fn split_source(bytes: &[u8], size: usize) -> Option<(&[u8], &[u8])>
    ensures { (project : _) → option_map (λ p. (client_calls project (submit p.0.now), p.1.now)) result
        ≡ with_source true project size bytes.now }
{
    if bytes.len() < size {
        return None;
    }
    let (source, after) = bytes.split_at(size);
    match after {
        [] => Some((source, after)),
        [b'\n', rest @ ..] => Some((source, rest)),
        _ => None,
    }
}

/// The step that the first command in some bytes asks for, and what follows the command.
pub fn read_command(alloc: Global, bytes: &[u8]) -> Result<(Step, &[u8]), LineFault>
    ensures command { IfOk result (λ r. command_at bytes.now ≡ Some (view_of_step r.0, r.1.now)) }
    ensures none { result ≡ Err no_command → command_at bytes.now ≡ None }
{
    let line = first_line(bytes);
    match read_line(alloc, line.text)? {
        Some(LineContent::Made(step)) => Ok((step, line.rest)),
        Some(LineContent::Submission(project, size)) if line.is_ended => {
            let Some((source, rest)) = split_source(line.rest, size as usize) else {
                return Err(OrNoMemory::Fault(NoCommand));
            };
            let source = Source::new(alloc, Vec::from_slice(alloc, source)?)?;
            let call = Call::Submit(source);
            Ok((Step::Call { project, call }, rest))
        }
        _ => Err(OrNoMemory::Fault(NoCommand)),
    }
}
