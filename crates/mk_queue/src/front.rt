//! The first message of each source.

ghost use Rattle.std.specs.Prelude.{◌≡◌, map, None, OnOk, OnErr};
ghost use Rattle.mk_queue.specs.Fronts as spec;

use crate::hold::{Hold, is_held_kind};
use lu_base::{Memory, Message};
use std::collections::VecDeque;

/// Where the first message of a source waits, if one does.
#[derive(Clone, Copy, Debug, PartialEq, Eq)]
pub struct Front {
    pub source: i32,
    pub first: Option<usize>,
}

/// Whether one of these is of the source.
fn has_front(fronts: &[Front], source: i32) -> bool
    ensures { result ≡ spec.has_front fronts.now source }
{
    fronts.iter().any(|front| front.source == source)
}

/// Makes sure that the source has a front, which at first has no message.
pub fn make_front(fronts: &mut Vec<Front>, source: i32) -> Result<(), Memory>
    ensures ok { OnOk result (fronts.new.items ≡ spec.with_front fronts.old.items source) }
    ensures err { OnErr result (fronts.new.items ≡ fronts.old.items) }
{
    if !has_front(fronts, source) {
        fronts.push(Front {
            source,
            first: None,
        })?;
    }
    Ok(())
}

/// The place of the first message of a source from a place on.
fn first_behind(messages: &VecDeque<Message>, place: usize, source: i32) -> Option<usize>
    ensures { result ≡ spec.first_behind messages.now.items place source }
{
    for i in place..messages.len() {
        if messages[i].source == source {
            return Some(i);
        }
    }
    None
}

/// The front of a source after a message has come to a place behind all others.
fn arrived(front: Front, source: i32, place: usize) -> Front
    ensures { result ≡ spec.arrived source place front }
{
    if front.source == source && front.first.is_none() {
        Front {
            source,
            first: Some(place),
        }
    } else {
        front
    }
}

/// Notes the message of a source that has come to a place behind all others.
pub fn note_arrival(fronts: &mut Vec<Front>, source: i32, place: usize)
    ensures { fronts.new.items ≡ map (spec.arrived source place) fronts.old.items }
{
    for i in 0..fronts.len() {
        fronts[i] = arrived(fronts[i], source, place);
    }
}

/// The front of a source after a message was taken from a place, where these are left.
fn left(front: Front, messages: &VecDeque<Message>, place: usize) -> Front
    ensures { result ≡ spec.left messages.now.items place front }
{
    let first = match front.first {
        None => None,
        Some(first) => {
            if first < place {
                Some(first)
            } else if first == place {
                first_behind(messages, place, front.source)
            } else {
                Some(first - 1)
            }
        }
    };
    Front {
        source: front.source,
        first,
    }
}

/// Notes that a message was taken from a place, where these are left.
pub fn note_removal(fronts: &mut Vec<Front>, messages: &VecDeque<Message>, place: usize)
    ensures { fronts.new.items ≡ map (spec.left messages.now.items place) fronts.old.items }
{
    for i in 0..fronts.len() {
        fronts[i] = left(fronts[i], messages, place);
    }
}

/// The place of the first message of a source, if its kind isn't held.
fn free_place(hold: &Hold, messages: &VecDeque<Message>, front: &Front) -> Option<usize>
    ensures { result ≡ spec.free_place hold.now messages.now.items front.now }
{
    let place = front.first?;
    let message = messages.get(place)?;
    if is_held_kind(hold, message) {
        None
    } else {
        Some(place)
    }
}

/// The lesser of two places, if there is one.
fn lesser(a: Option<usize>, b: Option<usize>) -> Option<usize>
    ensures { result ≡ spec.lesser a b }
{
    match (a, b) {
        (Some(a), Some(b)) => Some(a.min(b)),
        (None, b) => b,
        (a, None) => a,
    }
}

/// The least place of a source's first message whose kind isn't held.
pub fn least_free(hold: &Hold, messages: &VecDeque<Message>, fronts: &[Front]) -> Option<usize>
    ensures { result ≡ spec.least_free hold.now messages.now.items None fronts.now }
{
    let mut least = None;
    let mut rest = fronts;
    while let [front, others @ ..] = rest {
        least = lesser(least, free_place(hold, messages, front));
        rest = others;
    }
    least
}
