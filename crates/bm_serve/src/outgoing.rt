// The message that a program sends, and to whom it may.

ghost use Rattle.std.specs.Prelude.{◌≡◌, ◌+◌, ◌≤◌, drop, FitsSigned, slice_get};
ghost use Rattle.std.specs.Int.{w32};
ghost use Rattle.std.specs.Bool.{OnTrue};
ghost use Rattle.std.specs.Option.{option_copied};
ghost use Rattle.lu_base.specs.Sending.{is_client, is_server, is_recipient, sent};
ghost use Rattle.lu_base.specs.declared.limits.TheConstants.{MESSAGE_BYTES};
ghost use Rattle.bm_code.specs.Services.{int_of, message_of};
ghost use Rattle.bm_code.specs.Access.{read_at};
ghost use Rattle.bm_code.specs.Mapped.{IsMapped};
ghost use Rattle.bm_serve.specs.Sent.{outgoing_row, IsOutgoing};

use crate::outbox::Outbox;
use bm_code::code::{MachineCode, MachineGlobal};
use bm_frame::memory::live_row;
use bm_mem::Bytes;
use bm_objects::{Objects, Row};
use lu_base::limits::{FIRST_CLIENT, LAST_CLIENT, MESSAGE_BYTES, SENDS};
use lu_base::{Message, World};

/// The number of the global that holds the outgoing message.
const OUTGOING_GLOBAL: usize = 1;

/// Whether this is the number of a server.
fn is_server(world: &World, to: i64) -> bool
    ensures is { result ≡ is_server world.now to }
    ensures fits { OnTrue result (FitsSigned w32 to) }
{
    world
        .servers
        .as_slice()
        .iter()
        .any(|server| *server as i64 == to)
}

/// Whether this is the number of a client.
fn is_client(to: i64) -> bool
    ensures is { result ≡ is_client to }
    ensures fits { OnTrue result (FitsSigned w32 to) }
{
    FIRST_CLIENT as i64 <= to && to <= LAST_CLIENT as i64
}

/// Whether this is the number of a server, the own one too, or of a client.
fn is_recipient(world: &World, to: i64) -> bool
    ensures is { result ≡ is_recipient world.now to }
    ensures fits { OnTrue result (FitsSigned w32 to) }
{
    is_server(world, to) || is_client(to)
}

/// The int at an index of a message's bytes, the lowest byte first.
fn int_at(bytes: &[u8; MESSAGE_BYTES], at: usize) -> i32
    requires { at + 4 ≤ MESSAGE_BYTES }
    ensures { result ≡ int_of (drop at bytes.now) }
{
    i32::from_le_bytes([bytes[at], bytes[at + 1], bytes[at + 2], bytes[at + 3]])
}

/// The message of these bytes.
fn message_of(bytes: &[u8; MESSAGE_BYTES]) -> Message
    ensures { result ≡ message_of bytes.now }
{
    Message {
        source: int_at(bytes, 0),
        kind: int_at(bytes, 4),
        arg: [
            int_at(bytes, 8),
            int_at(bytes, 12),
            int_at(bytes, 16),
            int_at(bytes, 20),
            int_at(bytes, 24),
            int_at(bytes, 28),
        ],
    }
}

/// The second global, if there is one.
fn outgoing_global(code: &MachineCode) -> Option<&MachineGlobal>
    ensures { option_copied result ≡ slice_get code.now.globals 1 }
{
    code.globals.as_slice().get(OUTGOING_GLOBAL)
}

/// The object of the second global, if the program has one with room for a message.
fn outgoing_row(code: &MachineCode, objects: &Objects) -> Option<Row>
    ensures { result ≡ outgoing_row code.now objects.now }
{
    let global = outgoing_global(code)?;
    if global.bytes.as_slice().len() < MESSAGE_BYTES || objects.len() <= OUTGOING_GLOBAL {
        return None;
    }
    Some(objects.row(OUTGOING_GLOBAL))
}

/// The bytes of a message at an address, if a live object has them.
fn bytes_at<B: Bytes>(memory: &B, objects: &Objects, address: u32) -> Option<[u8; MESSAGE_BYTES]>
    requires { IsMapped (B.content memory.now) objects.now }
    ensures { result ≡ read_at (B.content memory.now) objects.now address MESSAGE_BYTES }
{
    let _row = live_row(objects, address as u64, MESSAGE_BYTES as u64)?;
    let mut bytes = [0u8; MESSAGE_BYTES];
    memory.copy_out(address, &mut bytes);
    Some(bytes)
}

/// The message in the second global. There is none where the program has no such global or one with fewer bytes than a
/// message, nor where its object isn't live or doesn't have them.
pub fn read_message<B: Bytes>(code: &MachineCode, memory: &B, objects: &Objects) -> Option<Message>
    requires { IsMapped (B.content memory.now) objects.now }
    ensures { IsOutgoing code.now (B.content memory.now) objects.now result }
{
    let row = outgoing_row(code, objects)?;
    let bytes = bytes_at(memory, objects, row.addr)?;
    Some(message_of(&bytes))
}

/// Puts the message into the outbox with the server's own number as its source, and gives the answer: 0; or -2 where `to`
/// is no recipient, or else -1 where as many messages wait as may, and then nothing has changed.
pub fn send(world: &World, outbox: &mut Outbox, to: i64, message: Message) -> i64
    ensures { (result, outbox.new) ≡ sent world.now outbox.old to message }
{
    if !is_recipient(world, to) {
        return -2;
    }
    if outbox.len() >= SENDS {
        return -1;
    }
    let mut message = message;
    message.source = world.own;
    outbox.push(to as i32, message);
    0
}
