//! The answer to a source whose schedules are explored, as words ask for it.

ghost use Rattle.std.specs.Prelude.{◌≡◌, ◌<◌, ◌++◌, Bool, IfOk, IfSome, Some, List, ℕ, option_map};
ghost use Rattle.pf_model.specs.Limits.{IsEdition};
ghost use Rattle.pf_cli.specs.Args.{view_of_explore_args, view_of_run_args};
ghost use Rattle.pf_command.specs.Answers.{AnswersRun};
ghost use Rattle.pf_explore_answer.specs.Answers.{ExploreAnswers, schedule_line};
ghost use Rattle.pf_explore_answer.specs.Views.{view_of_exploration};
ghost use Rattle.pf_words.specs.Explorations.{ExplorationAnswers, at_pace, exploration_of, shrinking_of};

use pf_check::ReadSource;
use pf_cli::{ExploreArgs, RunArgs};
use pf_cli_messages::{Exploring, ProgressLine, Runs};
use pf_command::{Answering, Output, Shrink};
use pf_errors::NoMemory;
use pf_explore_answer::{Exploration, ExploreAnswer, answer_source, put_schedule_line};
use pf_request::{Request, RequestKind, ShortBytes};
use pf_text::put;
use std::alloc::Global;
use std::sync::Arc;
use std::time::Clock;

/// An exploration is asked for, by a clock; the line shows its progress, and that of a shrinking.
#[derive(Drop)]
pub(crate) struct Explore<'a, C> {
    pub args: &'a ExploreArgs<'a>,
    pub clock: &'a C,
    pub line: &'a ProgressLine,
}

/// The shrinking of a schedule that an exploration found.
fn shrinking(
    alloc: Global,
    args: &ExploreArgs,
    schedule: Vec<u32>,
    runs: u32,
) -> Result<RunArgs<'static>, NoMemory>
    ensures { IfOk result (λ a. view_of_run_args a
        ≡ shrinking_of (view_of_explore_args args.now) schedule.items runs) }
{
    let ExploreArgs { request, .. } = args;
    let request = Request {
        root: ShortBytes::from_slice(alloc, request.root.as_slice())?,
        property: ShortBytes::from_slice(alloc, request.property.as_slice())?,
        kind: RequestKind::Shrink {
            schedule: Arc::new(alloc, schedule)?,
            runs,
        },
        limit: request.limit,
    };
    Ok(RunArgs {
        file: None,
        request,
        edition: args.edition,
        by_seed: None,
    })
}

/// What the shrinking of a schedule is answered with.
fn answer_shrinking(
    alloc: Global,
    args: &ExploreArgs,
    schedule: Vec<u32>,
    runs: u32,
    source: &ReadSource,
    line: &ProgressLine,
) -> Result<Output, NoMemory>
    ensures { IfOk result (λ a. AnswersRun (shrinking_of (view_of_explore_args args.now) schedule.items runs)
        source.now a.text.items a.status) }
{
    let args = shrinking(alloc, args, schedule, runs)?;
    let observer = Runs::new(line, runs);
    let shrink = Shrink {
        args: &args,
        observer,
    };
    shrink.answer(alloc, source)
}

/// A schedule that was found, and then what its shrinking is answered with.
fn answer_shrunk(
    alloc: Global,
    args: &ExploreArgs,
    schedule: Vec<u32>,
    runs: u32,
    source: &ReadSource,
    line: &ProgressLine,
) -> Result<Output, NoMemory>
    ensures { IfOk result (λ a. (text : List ℕ) × (a.text.items ≡ schedule_line schedule.items ++ text)
        × AnswersRun (shrinking_of (view_of_explore_args args.now) schedule.items runs)
        source.now text a.status) }
{
    let mut text = Vec::new(alloc);
    put_schedule_line(&mut text, schedule.as_slice())?;
    let shrunk = answer_shrinking(alloc, args, schedule, runs, source, line)?;
    put(&mut text, shrunk.text.as_slice())?;
    Ok(Output {
        text,
        status: shrunk.status,
    })
}

/// The answer to a source that was explored, if a schedule that was found is to be shrunk.
fn answer_in_runs(
    alloc: Global,
    args: &ExploreArgs,
    explored: ExploreAnswer,
    runs: u32,
    source: &ReadSource,
    line: &ProgressLine,
) -> Result<Output, NoMemory>
    requires runs { (view_of_explore_args args.now).runs ≡ Some runs }
    requires explored { ExploreAnswers (exploration_of (view_of_explore_args args.now)) source.now
        (option_map (λ v. v.items) explored.found) explored.text.items explored.status }
    ensures { IfOk result (λ a.
        ExplorationAnswers (view_of_explore_args args.now) source.now a.text.items a.status) }
{
    let ExploreAnswer {
        text,
        status,
        found,
    } = explored;
    match found {
        Some(schedule) => answer_shrunk(alloc, args, schedule, runs, source, line),
        None => Ok(Output { text, status }),
    }
}

/// The answer to a source that was explored: with a schedule that was found, its shrinking if that is asked for.
fn answer_explored(
    alloc: Global,
    args: &ExploreArgs,
    explored: ExploreAnswer,
    source: &ReadSource,
    line: &ProgressLine,
) -> Result<Output, NoMemory>
    requires { ExploreAnswers (exploration_of (view_of_explore_args args.now)) source.now
        (option_map (λ v. v.items) explored.found) explored.text.items explored.status }
    ensures { IfOk result (λ a.
        ExplorationAnswers (view_of_explore_args args.now) source.now a.text.items a.status) }
{
    match args.runs {
        Some(runs) => answer_in_runs(alloc, args, explored, runs, source, line),
        None => {
            let ExploreAnswer { text, status, .. } = explored;
            Ok(Output { text, status })
        }
    }
}

/// The exploration that words ask for.
fn exploration<'a>(args: &'a ExploreArgs<'a>) -> Exploration<'a>
    ensures asked { (may_stop : Bool) → view_of_exploration may_stop result
        ≡ at_pace may_stop (exploration_of (view_of_explore_args args.now)) }
    ensures edition { IsEdition result.edition }
    ensures few { IfSome result.deviations (λ k. k < 4294967295) }
{
    Exploration {
        request: &args.request,
        edition: args.edition.number(),
        last: args.last,
        budget: args.reach.budget,
        deviations: args.reach.deviations,
    }
}

/// The answer to a source whose schedules are explored, for a time by this clock if one is named.
fn answer_exploration<C: Clock>(
    alloc: Global,
    args: &ExploreArgs,
    clock: &C,
    line: &ProgressLine,
    source: &ReadSource,
) -> Result<Output, NoMemory>
    ensures { IfOk result (λ a.
        ExplorationAnswers (view_of_explore_args args.now) source.now a.text.items a.status) }
{
    let asked = exploration(args);
    let mut pace = Exploring::new(line, clock, args.reach.time);
    let explored = answer_source(alloc, &asked, source, &mut pace)?;
    answer_explored(alloc, args, explored, source, line)
}

impl<C: Clock> Answering for Explore<'_, C> {
    ghost use Rattle.pf_cli.specs.Args.{view_of_explore_args};
    ghost use Rattle.pf_words.specs.Explorations.{ExplorationAnswers};

    ghost answers = { λ c. ExplorationAnswers (view_of_explore_args c.args.now) };

    fn answer(self, alloc: Global, source: &ReadSource) -> Result<Output, NoMemory> {
        let Explore { args, clock, line } = self;
        answer_exploration(alloc, args, clock, line, source)
    }
}
