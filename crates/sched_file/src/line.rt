// What a line of a schedule says.
ghost use Rattle.std.specs.Prelude.{◌≡◌, ◌≤◌, ◌<◌, ◌∷◌, [], length, Some, None, MatchOption, IfSome, nat_eq};
ghost use Rattle.std.specs.Option.{option_map};
ghost use Rattle.sched_file.specs.Commands as command;
ghost use Rattle.sched_file.specs.Words.{words_of, begins, one_of, two_of};

use crate::Event;
use crate::bytes::is;
use crate::number::{int, number_within};
use crate::word::next_word;
use lu_base::Message;
use plan_file::{Plan, Server, Update};

// What a line says.
#[derive(Clone, Copy, Debug, PartialEq, Eq)]
pub enum Line {
    Empty,
    // One basic event.
    Basic(Event),
    // So many rounds, in each of which each server runs.
    Drain(u32),
}

#[tactic(auto, unfolding(crate::specs::Commands::line_of))]
pub fn read_line(plan: &Plan, line: &[u8]) -> Option<Line>
    requires { length plan.now.update ≤ 64 }
    ensures { result ≡ command.line_of plan.now line.now }
{
    let line = without_return(line);
    if begins_comment(line) {
        return Some(Line::Empty);
    }
    match next_word(line) {
        None => Some(Line::Empty),
        Some((first, rest)) => read_command(plan, first, rest),
    }
}

fn begins_comment(line: &[u8]) -> bool
    ensures { result ≡ begins (λ b. nat_eq b 35) line.now }
{
    match line {
        [first, ..] => *first == b'#',
        [] => false,
    }
}

// The line without its last byte, where that is CR.
fn without_return(line: &[u8]) -> &[u8]
    ensures { result.now ≡ command.without_return line.now }
{
    if line.is_empty() {
        return line;
    }
    let last = line.len() - 1;
    if line[last] == b'\r' {
        &line[..last]
    } else {
        line
    }
}

fn read_command(plan: &Plan, first: &[u8], rest: &[u8]) -> Option<Line>
    requires { length plan.now.update ≤ 64 }
    ensures { result ≡ command.command_of plan.now (first.now ∷ words_of rest.now) }
{
    if is(first, "drain") {
        match read_drain(rest) {
            Some(rounds) => Some(Line::Drain(rounds)),
            None => None,
        }
    } else {
        match read_event(plan, first, rest) {
            Some(event) => Some(Line::Basic(event)),
            None => None,
        }
    }
}

fn read_event(plan: &Plan, first: &[u8], rest: &[u8]) -> Option<Event>
    requires { length plan.now.update ≤ 64 }
    ensures { result ≡ command.event_of plan.now first.now (words_of rest.now) }
{
    if is(first, "send") {
        read_send(plan, rest)
    } else if is(first, "run") {
        read_run(plan, rest)
    } else if is(first, "update") {
        let update = read_update(plan, rest)?;
        Some(Event::Update { update })
    } else if is(first, "work") {
        read_work(plan, rest)
    } else if is(first, "commit") {
        let update = read_update(plan, rest)?;
        Some(Event::Commit { update })
    } else if is(first, "abort") {
        let update = read_update(plan, rest)?;
        Some(Event::Abort { update })
    } else if is(first, "dump") {
        let server = read_server(plan, rest)?;
        Some(Event::Dump { server })
    } else {
        None
    }
}

fn read_send(plan: &Plan, text: &[u8]) -> Option<Event>
    ensures { result ≡ command.send_of plan.now (words_of text.now) }
{
    let (client, rest) = next_word(text)?;
    let (server, rest) = next_word(rest)?;
    let (kind, rest) = next_word(rest)?;
    let client = number_within(client, 100, 999)? as i32;
    let server = server_place(plan.server.as_slice(), server)?;
    let kind = int(kind)?;
    let arg = read_arguments(rest)?;
    let message = Message {
        source: client,
        kind,
        arg,
    };
    Some(Event::Send {
        client,
        server,
        message,
    })
}

// Up to six ints; missing ones are 0.
fn read_arguments(text: &[u8]) -> Option<[i32; 6]>
    ensures { result ≡ command.arguments_of 6 (words_of text.now) }
{
    let (first, rest) = read_argument(text)?;
    let (second, rest) = read_argument(rest)?;
    let (third, rest) = read_argument(rest)?;
    let (fourth, rest) = read_argument(rest)?;
    let (fifth, rest) = read_argument(rest)?;
    let (sixth, rest) = read_argument(rest)?;
    match next_word(rest) {
        None => Some([first, second, third, fourth, fifth, sixth]),
        Some(_) => None,
    }
}

// An int, or 0 where the words are at their end.
fn read_argument(text: &[u8]) -> Option<(i32, &[u8])>
    ensures { MatchOption result (command.argument_of (words_of text.now) ≡ None)
        (λ r. command.argument_of (words_of text.now) ≡ Some (r.0, words_of r.1.now)) }
{
    match next_word(text) {
        None => Some((0, text)),
        Some((word, rest)) => Some((int(word)?, rest)),
    }
}

fn read_run(plan: &Plan, text: &[u8]) -> Option<Event>
    ensures { result ≡ command.run_of plan.now (words_of text.now) }
{
    let (server, ticks) = two_words(text)?;
    let server = server_place(plan.server.as_slice(), server)?;
    let ticks = number_within(ticks, 1, 1_000_000)?;
    Some(Event::Run { server, ticks })
}

fn read_work(plan: &Plan, text: &[u8]) -> Option<Event>
    requires { length plan.now.update ≤ 64 }
    ensures { result ≡ command.work_of plan.now (words_of text.now) }
{
    let (update, units) = two_words(text)?;
    let update = update_place(plan.update.as_slice(), update)?;
    let units = number_within(units, 1, 1_000_000)?;
    Some(Event::Work { update, units })
}

fn read_update(plan: &Plan, text: &[u8]) -> Option<u32>
    requires { length plan.now.update ≤ 64 }
    ensures { result ≡ command.only_update plan.now (words_of text.now) }
{
    update_place(plan.update.as_slice(), one_word(text)?)
}

fn read_server(plan: &Plan, text: &[u8]) -> Option<usize>
    ensures { result ≡ command.only_server plan.now (words_of text.now) }
{
    server_place(plan.server.as_slice(), one_word(text)?)
}

fn read_drain(text: &[u8]) -> Option<u32>
    ensures { result ≡ command.drain_of (words_of text.now) }
{
    number_within(one_word(text)?, 1, 10_000)
}

// The one word of a text.
fn one_word(text: &[u8]) -> Option<&[u8]>
    ensures { MatchOption result (one_of (words_of text.now) ≡ None) (λ word. one_of (words_of text.now) ≡ Some word.now) }
{
    let (word, rest) = next_word(text)?;
    match next_word(rest) {
        None => Some(word),
        Some(_) => None,
    }
}

// The two words of a text.
fn two_words(text: &[u8]) -> Option<(&[u8], &[u8])>
    ensures { MatchOption result (two_of (words_of text.now) ≡ None) (λ r. two_of (words_of text.now) ≡ Some (r.0.now, r.1.now)) }
{
    let (first, rest) = next_word(text)?;
    Some((first, one_word(rest)?))
}

fn server_place(servers: &[Server], name: &[u8]) -> Option<usize>
    ensures { result ≡ command.server_from 0 servers.now name.now }
{
    let mut place = 0;
    let mut rest = servers;
    while let [server, after @ ..] = rest {
        if server.name.as_bytes() == name {
            return Some(place);
        }
        place += 1;
        rest = after;
    }
    None
}

fn update_place(updates: &[Update], name: &[u8]) -> Option<u32>
    requires { length updates.now ≤ 64 }
    ensures { result ≡ command.update_from 0 updates.now name.now }
{
    let mut place = 0;
    let mut rest = updates;
    while let [update, after @ ..] = rest {
        if update.name.as_bytes() == name {
            return Some(place);
        }
        place += 1;
        rest = after;
    }
    None
}
