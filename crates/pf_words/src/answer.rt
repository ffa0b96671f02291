//! What a source is answered with, how that is printed, and what is said beside it.

ghost use Rattle.std.specs.Prelude.{◌≡◌, true, ℕ, List, IfOk};
ghost use Rattle.pf_cli.specs.Args.{view_of_args};
ghost use Rattle.pf_command.specs.Printed.{IsAnswerTo};
ghost use Rattle.pf_command.specs.Streams.{Sends};
ghost use Rattle.pf_words.specs.Words.{AnswersOf, has_source};

use crate::explore::Explore;
use pf_check::ReadSource;
use pf_cli::{Args, CliCommand, HuntGoal};
use pf_cli_messages::{
    ProgressLine, REFUSED, Runs, Seeds, WaitingProcesses, lacking_of, say, say_processes,
    say_waiting, why,
};
use pf_command::{
    Answer, Chart, CheckCommand, HuntRequest, Shrink, answer_by, answer_of_hunt, answer_of_run,
    print_answer,
};
use pf_errors::NoMemory;
use pf_files::{AnsweredRoot, workers_of};
use pf_streams::Counted;
use std::alloc::AllocGlobal;
use std::io::Write;
use std::sync::ledger::Ledger;
use std::thread::Threads;
use std::time::Clock;

/// Whether a source is asked for.
pub fn has_source(args: &Args) -> bool
    ensures { result ≡ has_source (view_of_args args.now) }
{
    match args {
        Args::Run(_)
        | Args::Hunt(_)
        | Args::Explore(_)
        | Args::Chart(_)
        | Args::Shrink(_)
        | Args::Check(_) => true,
        Args::Steps(_) | Args::Farm(_) => false,
    }
}

/// Who watches the seeds of a hunt, and for how many seconds it goes on at most.
pub fn seeds_of<'a, C: Clock>(asked: &Args, clock: &'a C, line: &'a ProgressLine) -> Seeds<'a, C> {
    match asked {
        Args::Hunt(args) => Seeds::new(line, clock, args.end.saturating_sub(args.first), args.time),
        _ => Seeds::new(line, clock, 0, None),
    }
}

/// The runs that a schedule may be shrunk within.
fn most_runs(asked: &Args) -> u32 {
    match asked {
        Args::Shrink(args) => args.request.kind.runs(),
        Args::Hunt(args) => match args.sought {
            HuntGoal::Failure { runs } => runs.unwrap_or(0),
            HuntGoal::Outcomes => 0,
        },
        _ => 0,
    }
}

/// Whether processes that still wait are a failure.
fn seeks_leaks(asked: &Args) -> bool {
    matches!(asked, Args::Hunt(args) if args.leaks)
}

/// What a source is answered with. The seeds hear of a hunt, and the line shows the progress of a shrinking and of an
/// exploration.
pub fn answer_of<'a, R: AllocGlobal + Clock + Threads + Sync>(
    rt: &R,
    asked: &'a Args<'a>,
    source: &ReadSource,
    seeds: &mut Seeds<'_, R>,
    line: &ProgressLine,
) -> Result<Answer<'a>, NoMemory>
    requires { has_source (view_of_args asked.now) ≡ true }
    ensures { IfOk result (IsAnswerTo (AnswersOf (view_of_args asked.now)) source.now) }
{
    let alloc = rt.alloc();
    match asked {
        Args::Run(args) => answer_of_run(alloc, args, source),
        Args::Chart(args) => answer_by(alloc, Chart { args }, source),
        Args::Hunt(args) => {
            let workers = workers_of(rt, args);
            answer_of_hunt(rt, alloc, &HuntRequest { args, workers }, source, seeds)
        }
        Args::Explore(args) => {
            let clock = rt;
            answer_by(alloc, Explore { args, clock, line }, source)
        }
        Args::Shrink(args) => {
            let observer = Runs::new(line, most_runs(asked));
            answer_by(alloc, Shrink { args, observer }, source)
        }
        Args::Check(args) => {
            let explain = args.explain;
            answer_by(alloc, CheckCommand { explain }, source)
        }
        Args::Steps(_) | Args::Farm(_) => unreachable!(),
    }
}

/// Prints an answer, and says how many processes still wait: of the run, or of the least such seed of a hunt for leaks.
/// The line shows the progress of a shrinking.
pub fn send<W: Write, M: Ledger, C: Clock>(
    rt: &(impl Eprint + AllocGlobal),
    asked: &Args,
    answer: Result<Answer<'_>, NoMemory>,
    seeds: &Seeds<'_, C>,
    writer: &mut Counted<W, M>,
    line: &ProgressLine,
) -> AnsweredRoot
    ensures { (bytes : List ℕ) → IfOk answer.entry (IsAnswerTo (AnswersOf (view_of_args asked.now)) bytes)
        → Sends (AnswersOf (view_of_args asked.now) bytes)
        (W.contents writer.old.inner) (W.contents writer.new.inner)
        writer.old.failures.total writer.new.failures.total result }
{
    let answer = answer?;
    let mut runs = Runs::new(line, most_runs(asked));
    let mut processes = 0;
    let status = print_answer(rt.alloc(), answer, &mut runs, writer, &mut processes)?;
    let waiting = if processes > 0 {
        Some(WaitingProcesses {
            processes,
            seed: None,
        })
    } else if seeks_leaks(asked) {
        seeds.waiting()
    } else {
        None
    };
    if let Some(waiting) = waiting {
        line.clear();
        say_waiting(rt, waiting);
    }
    Ok(status)
}

/// Says more of a source that was answered on standard error: if it is refused, or what is asked for of it, why.
pub fn say_more(
    rt: &(impl Eprint + AllocGlobal),
    asked: &CliCommand,
    source: &ReadSource,
    answered: &AnsweredRoot,
) {
    let args = &asked.args;
    // The answer was written: nothing more is said where memory runs out now.
    match answered {
        Ok(REFUSED) => {
            if let Ok(reported) = why(rt.alloc(), args, source) {
                say(rt, &reported);
            }
        }
        Ok(_) => {
            if let Ok(Some(reported)) = lacking_of(rt.alloc(), args, source) {
                say(rt, &reported);
            }
            say_processes(rt, asked, source);
        }
        Err(_) => {}
    }
}
