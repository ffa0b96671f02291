//! The text of a reply.

ghost use Rattle.std.specs.Prelude.{◌≡◌, ◌++◌, None, OnOk, codes};
ghost use Rattle.std.specs.Fmt.{decimal};
ghost use Rattle.pf_errors.specs.Codes.{code_text};
ghost use Rattle.pf_model.specs.Text.{complete_text};
ghost use Rattle.pf_desks.specs.Reported.{line_count, reply_head, reply_rest, reply_text, result_head, stage_text};
ghost use Rattle.pf_desks.specs.Reported.{to_project, usage_text};
ghost use Rattle.pf_trace.specs.Written.{report_in};
ghost use Rattle.pf_book.specs.View.{view_of_reply};
ghost use Rattle.pf_wire.specs.Whole.{whole_text};

use crate::reported::WrittenAnswer;
use pf_book::Reply;
use pf_desks::TrialStage;
use pf_errors::{Code, NoMemory};
use pf_quota::Usage;
use pf_sched::{Finished, JobResult, memory_report};
use pf_text::{put, put_byte, put_number, put_schedule};
use pf_trace::WrittenReport;
use std::alloc::Global;

/// Puts whom a line is for.
pub(crate) fn put_project(out: &mut Vec<u8>, project: u32) -> Result<(), NoMemory>
    ensures { OnOk result (out.new.items ≡ out.old.items ++ (codes "p" ++ decimal project ++ codes " ")) }
{
    put(out, b"p")?;
    put_number(out, u64::from(project))?;
    put(out, b" ")
}

/// Puts what a project uses: modules, bytes, trials, steps and calls.
fn put_usage(out: &mut Vec<u8>, usage: Usage) -> Result<(), NoMemory>
    ensures { OnOk result (out.new.items ≡ out.old.items ++ usage_text usage) }
{
    put_number(out, usage.modules)?;
    put(out, b" ")?;
    put_number(out, usage.bytes)?;
    put(out, b" ")?;
    put_number(out, usage.trials)?;
    put(out, b" ")?;
    put_number(out, usage.steps)?;
    put(out, b" ")?;
    put_number(out, usage.calls)
}

/// Puts a code of the table of refusals.
pub(crate) fn put_code(alloc: Global, out: &mut Vec<u8>, code: Code) -> Result<(), NoMemory>
    ensures { OnOk result (out.new.items ≡ out.old.items ++ code_text code) }
{
    let text = format!(in alloc; "{code}")?;
    put(out, text.as_bytes())
}

/// Puts how many lines a report has.
fn put_lines(out: &mut Vec<u8>, report: &WrittenReport) -> Result<(), NoMemory>
    ensures { OnOk result (out.new.items ≡ out.old.items ++ decimal (line_count (report_in report.now))) }
{
    put_number(out, report.lines.len() as u64 + 3)
}

/// Puts whether no candidate of a schedule fails.
fn put_complete(out: &mut Vec<u8>, complete: bool) -> Result<(), NoMemory>
    ensures { OnOk result (out.new.items ≡ out.old.items ++ complete_text complete) }
{
    if complete {
        put(out, b"complete")
    } else {
        put(out, b"partial")
    }
}

/// Puts what the first line says of a job's result.
fn put_result_head(alloc: Global, out: &mut Vec<u8>, finished: &Finished) -> Result<(), NoMemory>
    ensures { OnOk result (out.new.items ≡ out.old.items ++ result_head finished.now.result) }
{
    match finished.result() {
        Some(JobResult::Report(report)) => {
            put(out, b"report ")?;
            put_lines(out, report)
        }
        Some(
            JobResult::Shrunk {
                schedule,
                complete,
                report,
            },
        ) => {
            put(out, b"shrunk ")?;
            put_schedule(out, schedule.as_slice())?;
            put(out, b" ")?;
            put_complete(out, *complete)?;
            put(out, b" ")?;
            put_lines(out, report)
        }
        Some(JobResult::NothingFails) => {
            put(out, b"shrunk ")?;
            put_code(alloc, out, Code::NothingFails)
        }
        None => {
            put(out, b"report ")?;
            put_lines(out, &memory_report(alloc))
        }
    }
}

/// Puts how far a trial is.
fn put_stage(out: &mut Vec<u8>, stage: TrialStage) -> Result<(), NoMemory>
    ensures { OnOk result (out.new.items ≡ out.old.items ++ stage_text stage) }
{
    match stage {
        TrialStage::Queued => put(out, b"queued"),
        TrialStage::Running => put(out, b"running"),
        TrialStage::Done => put(out, b"done"),
    }
}

/// Puts what the first line of a reply says.
fn put_head(alloc: Global, out: &mut Vec<u8>, reply: &Reply) -> Result<(), NoMemory>
    ensures { OnOk result (out.new.items ≡ out.old.items ++ reply_head (view_of_reply reply.now)) }
{
    match reply {
        Reply::Module(number) => {
            put(out, b"module ")?;
            put_number(out, *number)
        }
        Reply::Ticket(ticket) => {
            put(out, b"ticket ")?;
            put_number(out, *ticket)
        }
        Reply::Result(finished) => put_result_head(alloc, out, finished),
        Reply::Stage(stage) => put_stage(out, *stage),
        Reply::GivenUp | Reply::HasEdition => put(out, b"done"),
        Reply::Usage(usage) => {
            put(out, b"usage ")?;
            put_usage(out, *usage)
        }
        Reply::Logged(count) => {
            put(out, b"log ")?;
            put_number(out, *count)
        }
        Reply::Refused(refusal) => {
            put(out, b"refused ")?;
            put_code(alloc, out, refusal.code())
        }
    }
}

/// Puts the first line of a reply to a project.
fn put_first(alloc: Global, out: &mut Vec<u8>, project: u32, reply: &Reply) -> Result<(), NoMemory>
    ensures { OnOk result (out.new.items ≡ out.old.items
        ++ to_project project (reply_head (view_of_reply reply.now))) }
{
    put_project(out, project)?;
    put_head(alloc, out, reply)?;
    put_byte(out, b'\n')
}

/// Puts the lines of a reply that follow its first.
fn put_rest(alloc: Global, reported: &mut WrittenAnswer, reply: Reply) -> Result<(), NoMemory>
    requires { reported.old.report ≡ None }
    ensures { OnOk result (whole_text reported.new ≡ reported.old.text.items ++ reply_rest (view_of_reply reply)) }
{
    match reply {
        Reply::Result(finished) => reported.put_report(alloc, finished),
        _ => Ok(()),
    }
}

/// Puts the text of a reply to a project.
pub(crate) fn put_reply(
    alloc: Global,
    reported: &mut WrittenAnswer,
    project: u32,
    reply: Reply,
) -> Result<(), NoMemory>
    requires { reported.old.report ≡ None }
    ensures { OnOk result (whole_text reported.new ≡ reported.old.text.items
        ++ reply_text project (view_of_reply reply)) }
{
    put_first(alloc, &mut reported.text, project, &reply)?;
    put_rest(alloc, reported, reply)
}
