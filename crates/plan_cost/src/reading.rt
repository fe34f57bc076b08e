// A plan file, record by record.
ghost use Rattle.pair_prices.specs.Plan.{Fits};
ghost use Rattle.patterns.specs.Book.{offers_of};
ghost use Rattle.plan_cost.specs.PlanLine.{after_line, line_length, record_at};
ghost use Rattle.plan_cost.specs.PlanReading.{Answers, Refuses, behind, choice_fault, choice_refusal, choice_refusals, end_fault, end_refusal, first_refusal, header_fault, header_refusal, number_of, numbers_read, plan_reading, taken};
ghost use Rattle.plan_cost.specs.PlanText.{plan_text};
ghost use Rattle.std.specs.Prelude.{◌≡◌, ◌↔◌, ◌<◌, ◌≤◌, ℕ, List, length, None, Some, Ok, Err, IfOk, MatchResult};

use crate::plan::Plan;
use crate::record::{PlanRecord, record_in};
use crate::refusal::{PlanFault, PlanKind, PlanRefused};
use pair_prices::Case;
use sequence::Sequence;
use std::alloc::Global;

/// A line has at most so many bytes before its newline.
const LINE_BYTES: usize = 80;

/// The plan of a plan file, or the first record that is refused (docs/FORMATS.md). Memory is taken for the plan alone.
pub fn read_plan(alloc: Global, case: &Case, bytes: &[u8]) -> Result<Plan, PlanFault>
    ensures answer { Answers (plan_reading case.now bytes.now) result }

    // A plan is read exactly where the bytes are its text and it fits the case.
    ensures exact { (plan : List ℕ) → ((plan_reading case.now bytes.now ≡ taken plan) ↔ ((bytes.now ≡ plan_text plan) × Fits case.now plan)) }
    ensures fits { IfOk result (λ plan. Fits case.now plan.choice) }
{
    // A case keeps the limits of its numbers.
    let _trains = case.book().trains();
    read_records(alloc, case, bytes)
}

fn read_records(alloc: Global, case: &Case, bytes: &[u8]) -> Result<Plan, PlanFault>
    ensures { Answers (plan_reading case.now bytes.now) result }
{
    let trains = case.book().trains();
    let choices = take_header(trains, bytes)?;
    let (choice, end) = take_choices(alloc, case, trains, choices)?;
    let rest = take_end(trains, end)?;
    if !rest.is_empty() {
        return Err(PlanFault::Refused(PlanRefused {
            kind: PlanKind::Trail,
            at: trains as u64 + 3,
        }));
    }
    Ok(Plan {
        choice: Sequence::from_vec(choice),
    })
}

// The bytes behind the header.
fn take_header(trains: usize, bytes: &[u8]) -> Result<&[u8], PlanRefused>
    ensures { MatchResult result (λ rest. (header_refusal trains bytes.now ≡ None) × (rest.now ≡ after_line bytes.now)) (λ refused. header_refusal trains bytes.now ≡ Some refused) }
{
    behind_header(trains, bytes).map_err(|kind| PlanRefused { kind, at: 1 })
}

fn behind_header(trains: usize, bytes: &[u8]) -> Result<&[u8], PlanKind>
    ensures { MatchResult result (λ rest. (header_fault trains (record_at bytes.now) ≡ None) × (rest.now ≡ after_line bytes.now)) (λ kind. header_fault trains (record_at bytes.now) ≡ Some kind) }
{
    let (record, rest) = take_record(bytes)?;
    match record {
        PlanRecord::Header(told) => {
            if usize::from(told) == trains {
                Ok(rest)
            } else {
                Err(PlanKind::Train)
            }
        }
        _ => Err(PlanKind::Record),
    }
}

// The numbers of all choices, and the bytes behind them.
fn take_choices<'a>(
    alloc: Global,
    case: &Case,
    trains: usize,
    bytes: &'a [u8],
) -> Result<(Vec<u16>, &'a [u8]), PlanFault>
    requires { trains ≡ length case.now.book }
    ensures { MatchResult result (λ found. (first_refusal (choice_refusals case.now bytes.now) ≡ None) × (found.0.items ≡ numbers_read trains bytes.now) × (found.1.now ≡ behind trains bytes.now)) (Refuses (first_refusal (choice_refusals case.now bytes.now))) }
{
    let mut choice = Vec::new(alloc);
    let mut rest = bytes;
    for train in 0..trains {
        let (number, after) = take_choice(case, train, rest)?;
        choice.push(number)?;
        rest = after;
    }
    Ok((choice, rest))
}

// The number of the train's choice, and the bytes behind it.
fn take_choice<'a>(
    case: &Case,
    train: usize,
    bytes: &'a [u8],
) -> Result<(u16, &'a [u8]), PlanRefused>
    requires { train < length case.now.book }
    ensures { MatchResult result (λ found. (choice_refusal case.now train bytes.now ≡ None) × (found.0 ≡ number_of (record_at bytes.now)) × (found.1.now ≡ after_line bytes.now)) (λ refused. choice_refusal case.now train bytes.now ≡ Some refused) }
{
    // A case has at most 200 trains.
    let _trains = case.book().trains();
    let at = train as u64 + 2;
    behind_choice(case, train, bytes).map_err(|kind| PlanRefused { kind, at })
}

fn behind_choice<'a>(
    case: &Case,
    train: usize,
    bytes: &'a [u8],
) -> Result<(u16, &'a [u8]), PlanKind>
    requires { train < length case.now.book }
    ensures { MatchResult result (λ found. (choice_fault train (length (offers_of case.now.book train)) (record_at bytes.now) ≡ None) × (found.0 ≡ number_of (record_at bytes.now)) × (found.1.now ≡ after_line bytes.now)) (λ kind. choice_fault train (length (offers_of case.now.book train)) (record_at bytes.now) ≡ Some kind) }
{
    let (record, rest) = take_record(bytes)?;
    match record {
        PlanRecord::Header(_) => Err(PlanKind::Record),
        PlanRecord::Choice(told, number) => {
            if usize::from(told) != train {
                Err(PlanKind::Train)
            } else if usize::from(number) >= case.book().count(train) {
                Err(PlanKind::Choice)
            } else {
                Ok((number, rest))
            }
        }
        PlanRecord::End => Err(PlanKind::Train),
    }
}

// The bytes behind the end.
fn take_end(trains: usize, bytes: &[u8]) -> Result<&[u8], PlanRefused>
    requires { trains ≤ 200 }
    ensures { MatchResult result (λ rest. (end_refusal trains bytes.now ≡ None) × (rest.now ≡ after_line bytes.now)) (λ refused. end_refusal trains bytes.now ≡ Some refused) }
{
    let at = trains as u64 + 2;
    behind_end(bytes).map_err(|kind| PlanRefused { kind, at })
}

fn behind_end(bytes: &[u8]) -> Result<&[u8], PlanKind>
    ensures { MatchResult result (λ rest. (end_fault (record_at bytes.now) ≡ None) × (rest.now ≡ after_line bytes.now)) (λ kind. end_fault (record_at bytes.now) ≡ Some kind) }
{
    let (record, rest) = take_record(bytes)?;
    match record {
        PlanRecord::Header(_) => Err(PlanKind::Record),
        PlanRecord::Choice(..) => Err(PlanKind::Train),
        PlanRecord::End => Ok(rest),
    }
}

// The record that the bytes begin with, and the bytes behind its line.
#[tactic(auto, unfolding(crate::specs::PlanLine::record_at))]
fn take_record(bytes: &[u8]) -> Result<(PlanRecord, &[u8]), PlanKind>
    ensures { MatchResult result (λ found. (record_at bytes.now ≡ Ok found.0) × (found.1.now ≡ after_line bytes.now)) (λ kind. record_at bytes.now ≡ Err kind) }
{
    let length = line_length(bytes);
    if length > LINE_BYTES {
        return Err(PlanKind::Record);
    }
    if length == bytes.len() {
        return Err(PlanKind::Short);
    }
    match record_in(&bytes[..length]) {
        Some(record) => Ok((record, &bytes[length + 1..])),
        None => Err(PlanKind::Record),
    }
}

// Where the first newline stands, or the length.
fn line_length(bytes: &[u8]) -> usize
    ensures within { result ≤ length bytes.now }
    ensures value { result ≡ line_length bytes.now }
{
    for (end, byte) in bytes.iter().enumerate() {
        if *byte == b'\n' {
            return end;
        }
    }
    bytes.len()
}
