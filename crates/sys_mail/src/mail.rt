//! Mail between the cells of servers, and to clients.

ghost use Rattle.std.specs.Prelude.{◌≡◌, ◌<◌, [], ◌∷◌, ◌++◌, length, position, OnOk, IfOk};
ghost use Rattle.std.specs.Ordering.{int_eq};
ghost use Rattle.sys_world.specs.World.{change};
ghost use Rattle.sys_world.specs.Mail.{with_arrival, place_of, reply, answer_of, put, post, post_all, send_mail, boot_mail, die_mail, returned_mail, trapped_mail};
ghost use Rattle.sys_mail.specs.Room.{cell_values, mail_of};
ghost use Rattle.sys_mail.specs.Replies.{AnswerComes, answer_by, AnswersAll};

use crate::cell::Cell;
use lu_base::{Memory, Message, Name, Trap};
use lu_lines::{Note, Notes};
use std::alloc::Global;

// The first place of a cell of that number.
fn first_numbered(cells: &[Cell], number: i32) -> Option<usize>
    ensures { result ≡ position (λ cell. int_eq cell.value.number number) cells.now }
{
    cells.iter().position(|cell| cell.number() == number)
}

/// The place of the server of that number, if there is one. It takes no memory.
pub fn find_server(cells: &[Cell], number: i32) -> Option<usize>
    ensures { result ≡ place_of (cell_values cells.now) number }
{
    first_numbered(cells, number)
}

/// Puts a note behind the others.
pub fn tell(notes: &mut Notes, note: Note) -> Result<(), Memory>
    ensures { OnOk result (notes.new.list ≡ notes.old.list ++ note ∷ []) }
{
    notes.reserve(1)?;
    notes.push(note);
    Ok(())
}

/// The line of a message from the server of that name to a client.
pub fn make_reply(
    alloc: Global,
    server: &Name,
    client: i32,
    message: Message,
) -> Result<Note, Memory>
    ensures { IfOk result (λ note. note ≡ reply server.now client message) }
{
    Ok(Note::Reply {
        server: server.copy(alloc)?,
        client,
        kind: message.kind,
        arg: message.arg,
    })
}

/// A message comes into the inbox of the server at a place.
pub fn arrive_at(cells: &mut [Cell], place: usize, message: Message) -> Result<(), Memory>
    requires { place < length cells.old }
    ensures { OnOk result (cell_values cells.new ≡ change (with_arrival message) place (cell_values cells.old)) }
{
    cells[place].arrive(message)
}

/// An answer comes to the server at a place, which drops it where it is dead.
pub fn answer_comes(cells: &mut [Cell], place: usize, message: Message) -> Result<(), Memory>
    requires { place < length cells.old }
    ensures { OnOk result (AnswerComes place message cells.old cells.new) }
{
    match cells[place].trap() {
        None => arrive_at(cells, place, message),
        Some(_) => Ok(()),
    }
}

// The answer of the dead server of that number.
fn make_answer(number: i32) -> Message
    ensures { result ≡ answer_of number }
{
    Message {
        source: number,
        kind: -1,
        arg: [0; 6],
    }
}

/// The dead server of that name and number answers to a number.
pub fn answer_to(
    alloc: Global,
    cells: &mut [Cell],
    notes: &mut Notes,
    name: &Name,
    number: i32,
    to: i32,
) -> Result<(), Memory>
    ensures { OnOk result (mail_of cells.new notes.new ≡ answer_by name.now number to (mail_of cells.old notes.old)) }
{
    let message = make_answer(number);
    match find_server(cells, to) {
        None => {
            let note = make_reply(alloc, name, to, message)?;
            tell(notes, note)
        }
        Some(place) => answer_comes(cells, place, message),
    }
}

/// The dead server of that name and number answers messages in order.
pub fn answer_each(
    alloc: Global,
    cells: &mut [Cell],
    notes: &mut Notes,
    name: &Name,
    number: i32,
    messages: &[Message],
) -> Result<(), Memory>
    ensures { OnOk result (AnswersAll name.now number messages.now (mail_of cells.old notes.old) (mail_of cells.new notes.new)) }
{
    for message in messages {
        answer_to(alloc, cells, notes, name, number, message.source)?;
    }
    Ok(())
}

/// A message comes to the server at a place: into its inbox, or where it is dead it answers.
pub fn put_at(
    alloc: Global,
    cells: &mut [Cell],
    notes: &mut Notes,
    place: usize,
    message: Message,
) -> Result<(), Memory>
    requires { place < length cells.old }
    ensures { OnOk result (mail_of cells.new notes.new ≡ put place message (mail_of cells.old notes.old)) }
{
    match cells[place].trap() {
        None => arrive_at(cells, place, message),
        Some(_) => {
            let name = cells[place].name().copy(alloc)?;
            let number = cells[place].number();
            answer_to(alloc, cells, notes, &name, number, message.source)
        }
    }
}

/// A message of the server of that name goes to a client as a reply, or comes to a server.
pub fn post_one(
    alloc: Global,
    cells: &mut [Cell],
    notes: &mut Notes,
    name: &Name,
    to: i32,
    message: Message,
) -> Result<(), Memory>
    ensures { OnOk result (mail_of cells.new notes.new ≡ post name.now (to, message) (mail_of cells.old notes.old)) }
{
    match find_server(cells, to) {
        None => {
            let note = make_reply(alloc, name, to, message)?;
            tell(notes, note)
        }
        Some(place) => put_at(alloc, cells, notes, place, message),
    }
}

/// What a server sent goes out in order.
pub fn post_each(
    alloc: Global,
    cells: &mut [Cell],
    notes: &mut Notes,
    name: &Name,
    sends: &[(i32, Message)],
) -> Result<(), Memory>
    ensures { OnOk result (mail_of cells.new notes.new ≡ post_all name.now sends.now (mail_of cells.old notes.old)) }
{
    for (to, message) in sends {
        post_one(alloc, cells, notes, name, *to, *message)?;
    }
    Ok(())
}

/// What the server at a place sent is kept in its cell, and goes out in order.
pub fn send(
    alloc: Global,
    cells: &mut [Cell],
    notes: &mut Notes,
    place: usize,
    sends: &[(i32, Message)],
) -> Result<(), Memory>
    requires { place < length cells.old }
    ensures { OnOk result (mail_of cells.new notes.new ≡ send_mail place sends.now (mail_of cells.old notes.old)) }
{
    let name = cells[place].name().copy(alloc)?;
    cells[place].keep_sent(sends)?;
    post_each(alloc, cells, notes, &name, sends)
}

/// The server at a place has booted, and sent these.
pub fn boot(
    alloc: Global,
    cells: &mut [Cell],
    notes: &mut Notes,
    place: usize,
    sends: &[(i32, Message)],
) -> Result<(), Memory>
    requires { place < length cells.old }
    ensures { OnOk result (mail_of cells.new notes.new ≡ boot_mail place sends.now (mail_of cells.old notes.old)) }
{
    let server = cells[place].name().copy(alloc)?;
    tell(notes, Note::Boot { server })?;
    send(alloc, cells, notes, place, sends)
}

/// The server at a place dies: its trap is told, and then its inbox is answered in order.
pub fn die(
    alloc: Global,
    cells: &mut [Cell],
    notes: &mut Notes,
    place: usize,
    trap: Trap,
) -> Result<(), Memory>
    requires { place < length cells.old }
    ensures { OnOk result (mail_of cells.new notes.new ≡ die_mail place trap (mail_of cells.old notes.old)) }
{
    let name = cells[place].name().copy(alloc)?;
    let number = cells[place].number();
    let server = name.copy(alloc)?;
    tell(notes, Note::Trap { server, trap })?;
    let waited = cells[place].die(alloc, trap)?;
    answer_each(alloc, cells, notes, &name, number, waited.as_slice())
}

/// The delivery of a message to the server at a place has returned, and sent these.
pub fn end_delivery(
    alloc: Global,
    cells: &mut [Cell],
    notes: &mut Notes,
    place: usize,
    message: Message,
    sends: &[(i32, Message)],
) -> Result<(), Memory>
    requires { place < length cells.old }
    ensures { OnOk result (mail_of cells.new notes.new ≡ returned_mail place message sends.now (mail_of cells.old notes.old)) }
{
    cells[place].keep_delivery(message)?;
    send(alloc, cells, notes, place, sends)
}

/// The server at a place died of a trap in the delivery of a message.
pub fn die_in_delivery(
    alloc: Global,
    cells: &mut [Cell],
    notes: &mut Notes,
    place: usize,
    message: Message,
    trap: Trap,
) -> Result<(), Memory>
    requires { place < length cells.old }
    ensures { OnOk result (mail_of cells.new notes.new ≡ trapped_mail place message trap (mail_of cells.old notes.old)) }
{
    cells[place].keep_delivery(message)?;
    die(alloc, cells, notes, place, trap)
}
