ghost use Rattle.std.specs.Prelude.{◌≡◌, ◌≤◌, ◌<◌, ◌++◌, ◌∷◌, [], length, Ok, Err, IfOk, MatchResult};
ghost use Rattle.sched_file.specs.Commands.{line_of};
ghost use Rattle.sched_file.specs.Schedule.{schedule_of, with_line, limited, round_of, rounds_of, IsRefusal};
ghost use Rattle.sched_file.specs.Events.{AreBasic};

use crate::bytes::split_at_byte;
use crate::line::{Line, read_line};
use crate::{Event, Plan, SchedError};
use std::alloc::Global;

const MAX_EVENTS: usize = 100_000;

/// The basic events of a schedule for a plan: each server and update is in the plan, `Boot` and `Finish` aren't among them,
/// and each `drain` stands for its runs.
pub fn read_schedule(alloc: Global, text: &[u8], plan: &Plan) -> Result<Vec<Event>, SchedError>
    requires { length plan.now.update ≤ 64 }
    ensures answer { MatchResult result (λ events. schedule_of plan.now text.now ≡ Ok events.items)
        (IsRefusal (schedule_of plan.now text.now)) }
    ensures basic { IfOk result (λ events. AreBasic plan.now events.items) }
{
    let mut events = Vec::new(alloc);
    let mut number = 1;
    let mut rest = text;
    while let Some((line, after)) = split_at_byte(rest, b'\n') {
        match push_line(&mut events, plan, number, line) {
            Ok(()) => {
                number += 1;
                rest = after;
            }
            Err(refusal) => return Err(refusal),
        }
    }
    match push_line(&mut events, plan, number, rest) {
        Ok(()) => Ok(events),
        Err(refusal) => Err(refusal),
    }
}

// Appends the events of the line of that number, where the whole stays within the limit.
fn push_line(
    events: &mut Vec<Event>,
    plan: &Plan,
    number: usize,
    line: &[u8],
) -> Result<(), SchedError>
    requires events { length events.old.items ≤ 100000 }
    requires updates { length plan.now.update ≤ 64 }
    ensures { MatchResult result
        (λ _. with_line (length plan.now.server) number events.old.items (line_of plan.now line.now) ≡ Ok events.new.items)
        (IsRefusal (with_line (length plan.now.server) number events.old.items (line_of plan.now line.now))) }
{
    match read_line(plan, line) {
        None => Err(SchedError::Line { n: number }),
        Some(Line::Empty) => Ok(()),
        Some(Line::Basic(event)) => push_event(events, event),
        Some(Line::Drain(rounds)) => push_rounds(events, plan.server.as_slice().len(), rounds),
    }
}

fn push_event(events: &mut Vec<Event>, event: Event) -> Result<(), SchedError>
    requires { length events.old.items ≤ 100000 }
    ensures { MatchResult result (λ _. limited (events.old.items ++ event ∷ []) ≡ Ok events.new.items)
        (IsRefusal (limited (events.old.items ++ event ∷ []))) }
{
    if events.len() >= MAX_EVENTS {
        return Err(SchedError::Limit);
    }
    events.push(event)?;
    Ok(())
}

fn push_rounds(events: &mut Vec<Event>, servers: usize, rounds: u32) -> Result<(), SchedError>
    requires { length events.old.items ≤ 100000 }
    ensures { MatchResult result (λ _. limited (events.old.items ++ rounds_of rounds servers) ≡ Ok events.new.items)
        (IsRefusal (limited (events.old.items ++ rounds_of rounds servers))) }
{
    for _round in 0..rounds {
        match push_round(events, servers) {
            Ok(()) => {}
            Err(refusal) => return Err(refusal),
        }
    }
    Ok(())
}

// A run of each server.
fn push_round(events: &mut Vec<Event>, servers: usize) -> Result<(), SchedError>
    requires { length events.old.items ≤ 100000 }
    ensures { MatchResult result (λ _. limited (events.old.items ++ round_of servers) ≡ Ok events.new.items)
        (IsRefusal (limited (events.old.items ++ round_of servers))) }
{
    for server in 0..servers {
        let run = Event::Run {
            server,
            ticks: 1_000_000,
        };
        match push_event(events, run) {
            Ok(()) => {}
            Err(refusal) => return Err(refusal),
        }
    }
    Ok(())
}
