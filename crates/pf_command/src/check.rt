//! What a source is answered with that is only checked.

ghost use Rattle.std.specs.Prelude.{◌≡◌, ◌++◌, IfOk, codes, true};
ghost use Rattle.pf_errors.specs.Codes.{refusal_text};
ghost use Rattle.pf_model.specs.TermText.{line};
ghost use Rattle.pf_command.specs.Checks.{Checks, ExplainsRefusal, IsCheckRefused};

use crate::answer::{Output, refused_at};
use crate::serving::Answering;
use pf_check::ReadSource;
use pf_diagnostics::put_explanations;
use pf_errors::{NoMemory, SourceRefusal};
use pf_hints::faults;
use pf_text::put;
use std::alloc::Global;

/// The answer to a source that is a module.
fn accepted(alloc: Global) -> Result<Output, NoMemory>
    ensures { IfOk result (λ a. (a.text.items ≡ line (codes "ok")) × (a.status ≡ 0)) }
{
    let mut text = Vec::new(alloc);
    put(&mut text, b"ok\n")?;
    Ok(Output { text, status: 0 })
}

/// The explanation of a refusal.
fn explain_refusal(
    alloc: Global,
    source: &[u8],
    refusal: SourceRefusal,
) -> Result<Vec<u8>, NoMemory>
    ensures { IfOk result (λ t. ExplainsRefusal source.now refusal.code refusal.offset true t.items) }
{
    let reported = faults(alloc, source, refusal)?;
    let mut text = Vec::new(alloc);
    put_explanations(alloc, &mut text, source, &reported)?;
    Ok(text)
}

/// What follows the line of a refusal: its explanation, if that is asked for.
fn more_of(
    alloc: Global,
    explain: bool,
    source: &[u8],
    refusal: SourceRefusal,
) -> Result<Vec<u8>, NoMemory>
    ensures { IfOk result (λ t. ExplainsRefusal source.now refusal.code refusal.offset explain t.items) }
{
    if explain {
        explain_refusal(alloc, source, refusal)
    } else {
        Ok(Vec::new(alloc))
    }
}

/// The answer to a source that is refused, with its explanation if that is asked for.
fn refuse(
    alloc: Global,
    explain: bool,
    source: &[u8],
    refusal: SourceRefusal,
) -> Result<Output, NoMemory>
    ensures { IfOk result (IsCheckRefused explain source.now refusal.code refusal.offset) }
{
    let Output { mut text, status } = refused_at(alloc, refusal)?;
    let more = more_of(alloc, explain, source, refusal)?;
    text.extend_from_slice(&more)?;
    Ok(Output { text, status })
}

/// The answer to a source: `ok` if it is a module, else its first refusal.
fn answer_check(alloc: Global, explain: bool, source: &ReadSource) -> Result<Output, NoMemory>
    ensures { IfOk result (λ a. Checks explain source.now a.text.items a.status) }
{
    match source.module() {
        Ok(_) => accepted(alloc),
        Err(refusal) => refuse(alloc, explain, source.bytes(), refusal),
    }
}

/// A check is asked for, and whether a refusal is explained.
#[derive(Drop)]
pub struct CheckCommand {
    pub explain: bool,
}

impl Answering for CheckCommand {
    ghost use Rattle.pf_command.specs.Checks.{Checks};

    ghost answers = { λ c. Checks c.explain };

    fn answer(self, alloc: Global, source: &ReadSource) -> Result<Output, NoMemory> {
        answer_check(alloc, self.explain, source)
    }
}
