//! What the words of an order and of a shrinking ask for.

ghost use Rattle.std.specs.Prelude.{◌≡◌, ◌&&◌, ◌∷◌, if◌then◌else◌, None, MatchOption, IfOk};
ghost use Rattle.std.specs.Option.{option_map};
ghost use Rattle.pf_text.specs.Numbers.{number_of_digits, schedule_of};
ghost use Rattle.pf_request.specs.Request as request;
ghost use Rattle.pf_request.specs.View.{view_of_choices, view_of_kind};
ghost use Rattle.pf_protocol.specs.Commands.{choices_at, is_line_word, of_order, of_seed, of_shrink, parts_between};
ghost use Rattle.pf_protocol.specs.Commands.{with_order, with_runs, words_of_line};
ghost use Rattle.pf_protocol.specs.View.{view_of_content};

use crate::line::{LineContent, is_word};
use crate::split::{first_part, first_word, only_part, only_word};
use pf_errors::NoMemory;
use pf_request::{Call, Order, Request, RequestKind, RunChoices, ShortBytes};
use pf_text::{long_number_of, number_of, schedule_of};
use std::alloc::Global;
use std::sync::Arc;

/// The words with which an order and a shrinking begin.
#[derive(Drop)]
struct OrderFront<'a> {
    project: &'a [u8],
    number: &'a [u8],
    root: &'a [u8],
    property: &'a [u8],
}

/// The words with which an order and a shrinking begin, and the text of those that follow.
fn front_words(words: &[u8]) -> Option<(OrderFront<'_>, &[u8])>
    ensures { MatchOption result
        ((of_order (words_of_line words.now) ≡ None) × (of_shrink (words_of_line words.now) ≡ None))
        (λ w. words_of_line words.now
        ≡ w.0.project.now ∷ w.0.number.now ∷ w.0.root.now ∷ w.0.property.now ∷ words_of_line w.1.now) }
{
    let (project, words) = first_word(words)?;
    let (number, words) = first_word(words)?;
    let (root, words) = first_word(words)?;
    let (property, words) = first_word(words)?;
    let front = OrderFront {
        project,
        number,
        root,
        property,
    };
    Some((front, words))
}

/// The order of a kind, within a limit, if the words ask for one.
fn order_of(
    alloc: Global,
    front: &OrderFront<'_>,
    kind: Option<RequestKind>,
    limit: &[u8],
) -> Result<Option<LineContent>, NoMemory>
    ensures { IfOk result (λ a. option_map view_of_content a
        ≡ (if is_line_word front.now.root.now && is_line_word front.now.property.now
        then with_order front.now.root.now front.now.property.now (number_of_digits front.now.project.now)
        (number_of_digits front.now.number.now) (option_map view_of_kind kind) (number_of_digits limit.now)
        else None)) }
{
    if !is_word(front.root) || !is_word(front.property) {
        return Ok(None);
    }
    let Some(project) = number_of(front.project) else {
        return Ok(None);
    };
    let Some(module) = number_of(front.number) else {
        return Ok(None);
    };
    let Some(kind) = kind else {
        return Ok(None);
    };
    let Some(limit) = number_of(limit) else {
        return Ok(None);
    };
    let order = Order {
        module: u64::from(module),
        request: Request {
            root: ShortBytes::from_slice(alloc, front.root)?,
            property: ShortBytes::from_slice(alloc, front.property)?,
            kind,
            limit,
        },
    };
    Ok(Some(LineContent::call(project, Call::Order(order))))
}

/// The choices of a seed, by weights if the text has any.
fn seed_of(text: &[u8]) -> Option<RunChoices>
    ensures { option_map view_of_choices result ≡ of_seed (parts_between 58 text.now) }
{
    let Some((number, weights)) = first_part(text, b':') else {
        return long_number_of(text).map(RunChoices::Seed);
    };
    let (run, others) = first_part(weights, b':')?;
    let deliver = only_part(others, b':')?;
    Some(RunChoices::Weighted {
        seed: long_number_of(number)?,
        run: number_of(run)?,
        deliver: number_of(deliver)?,
    })
}

/// The choices of an order: of a seed, or of a schedule.
fn choices_of(alloc: Global, text: &[u8]) -> Result<Option<RunChoices>, NoMemory>
    ensures { IfOk result (λ cs. option_map view_of_choices cs ≡ choices_at text.now) }
{
    if let Some(seed) = text.strip_prefix(b"seed:".as_slice()) {
        return Ok(seed_of(seed));
    }
    match schedule_of(alloc, text)? {
        Some(numbers) => Ok(Some(RunChoices::schedule(alloc, numbers)?)),
        None => Ok(None),
    }
}

/// One run, by the choices that a text is.
fn run_of(alloc: Global, text: &[u8]) -> Result<Option<RequestKind>, NoMemory>
    ensures { IfOk result (λ k. option_map view_of_kind k ≡ option_map request.run (choices_at text.now)) }
{
    Ok(choices_of(alloc, text)?.map(RequestKind::Run))
}

/// The shrinking of the schedule that a text is, within the runs that another is.
fn shrink_of(alloc: Global, schedule: &[u8], runs: &[u8]) -> Result<Option<RequestKind>, NoMemory>
    ensures { IfOk result (λ k. option_map view_of_kind k
        ≡ with_runs (schedule_of schedule.now) (number_of_digits runs.now)) }
{
    let Some(numbers) = schedule_of(alloc, schedule)? else {
        return Ok(None);
    };
    let Some(runs) = number_of(runs) else {
        return Ok(None);
    };
    let schedule = Arc::new(alloc, numbers)?;
    Ok(Some(RequestKind::Shrink { schedule, runs }))
}

/// The order of one run, if the words ask for one.
pub(crate) fn read_order(alloc: Global, words: &[u8]) -> Result<Option<LineContent>, NoMemory>
    ensures { IfOk result (λ a. option_map view_of_content a ≡ of_order (words_of_line words.now)) }
{
    let Some((front, words)) = front_words(words) else {
        return Ok(None);
    };
    let Some((choices, words)) = first_word(words) else {
        return Ok(None);
    };
    let Some(limit) = only_word(words) else {
        return Ok(None);
    };
    let kind = run_of(alloc, choices)?;
    order_of(alloc, &front, kind, limit)
}

/// The order of a shrinking, if the words ask for one.
pub(crate) fn read_shrink(alloc: Global, words: &[u8]) -> Result<Option<LineContent>, NoMemory>
    ensures { IfOk result (λ a. option_map view_of_content a ≡ of_shrink (words_of_line words.now)) }
{
    let Some((front, words)) = front_words(words) else {
        return Ok(None);
    };
    let Some((schedule, words)) = first_word(words) else {
        return Ok(None);
    };
    let Some((runs, words)) = first_word(words) else {
        return Ok(None);
    };
    let Some(limit) = only_word(words) else {
        return Ok(None);
    };
    let kind = shrink_of(alloc, schedule, runs)?;
    order_of(alloc, &front, kind, limit)
}
