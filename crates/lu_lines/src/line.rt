//! The line of a note.

ghost use Rattle.std.specs.Prelude.{◌≡◌, ◌≤◌, ◌==◌, ◌++◌, ◌∷◌, [], IfOk, OnOk, length, take, map, codes, string_bytes};
ghost use Rattle.std.specs.Fmt.{decimal, signed_decimal};
ghost use Rattle.lu_lines.specs.Line.{line_bytes, further_words, update_line, reason_words, shown, shown_arguments, bytes_text, address_text, trap_text};

use crate::reason_text::{push_reason, trap_text};
use crate::{Note, Reason};
use lu_base::{Bytes8, Memory, Trap};
use std::alloc::Global;

/// The note's line, which ends with LF.
pub fn line_of(alloc: Global, note: &Note) -> Result<Bytes8, Memory>
    ensures { IfOk result (λ line. line ≡ line_bytes note.now) }
{
    let line = text_of(alloc, note)?;
    Ok(Bytes8::new(line.into_bytes()))
}

#[tactic(auto, unfolding(crate::specs::Line::line_bytes))]
fn text_of(alloc: Global, note: &Note) -> Result<String, Memory>
    ensures { IfOk result (λ line. string_bytes line ≡ line_bytes note.now) }
{
    match note {
        Note::Boot { server } => boot_line(alloc, server.as_str()),
        Note::Reply {
            server,
            client,
            kind,
            arg,
        } => reply_line(alloc, server.as_str(), *client, *kind, arg),
        Note::Trap { server, trap } => trap_line(alloc, server.as_str(), *trap),
        Note::Waiting { update } => update_line(alloc, update.as_str(), "waiting"),
        Note::Held { update } => update_line(alloc, update.as_str(), "held"),
        Note::Walked { update, objects } => count_line(alloc, update.as_str(), "walked", *objects),
        Note::Moved { update, objects } => count_line(alloc, update.as_str(), "moved", *objects),
        Note::Handled { update, calls } => count_line(alloc, update.as_str(), "handled", *calls),
        Note::Ready { update } => update_line(alloc, update.as_str(), "ready"),
        Note::Committed { update } => update_line(alloc, update.as_str(), "committed"),
        Note::Refused { update, reason } => refused_line(alloc, update.as_str(), reason),
        Note::NotReady { update } => update_line(alloc, update.as_str(), "not ready"),
        Note::NotActive { update } => update_line(alloc, update.as_str(), "not active"),
        Note::Dump { server, objects } => dump_line(alloc, server.as_str(), *objects),
        Note::Object {
            address,
            name,
            size,
            bytes,
        } => object_line(alloc, *address, name.as_str(), *size, bytes.as_slice()),
        Note::DumpBusy { server } => no_dump_line(alloc, server.as_str(), "busy"),
        Note::DumpDead { server } => no_dump_line(alloc, server.as_str(), "dead"),
        Note::WaitingAtEnd { update } => update_line(alloc, update.as_str(), "waiting at end"),
        Note::MovingAtEnd { update } => update_line(alloc, update.as_str(), "moving at end"),
        Note::ReadyAtEnd { update } => update_line(alloc, update.as_str(), "ready at end"),
        Note::End => Ok(String::from_str(alloc, "end\n")?),
    }
}

fn trap_line(alloc: Global, server: &str, trap: Trap) -> Result<String, Memory>
    ensures { IfOk result (λ line. string_bytes line ≡ codes "trap" ++ further_words (server.now ∷ trap_text trap ∷ [])) }
{
    let text = trap_text(alloc, trap)?;
    let text = text.as_str();
    Ok(format!(in alloc; "trap {server} {text}\n")?)
}

fn update_line(alloc: Global, update: &str, what: &str) -> Result<String, Memory>
    ensures { IfOk result (λ line. string_bytes line ≡ update_line update.now (what.now ∷ [])) }
{
    Ok(format!(in alloc; "update {update} {what}\n")?)
}

fn count_line(alloc: Global, update: &str, what: &str, count: u64) -> Result<String, Memory>
    ensures { IfOk result (λ line. string_bytes line ≡ update_line update.now (what.now ∷ decimal count ∷ [])) }
{
    Ok(format!(in alloc; "update {update} {what} {count}\n")?)
}

fn refused_line(alloc: Global, update: &str, reason: &Reason) -> Result<String, Memory>
    ensures { IfOk result (λ line. string_bytes line ≡ update_line update.now (codes "refused" ∷ reason_words reason.now)) }
{
    let mut line = format!(in alloc; "update {update} refused")?;
    push_reason(alloc, &mut line, reason)?;
    line.push_str("\n")?;
    Ok(line)
}

fn dump_line(alloc: Global, server: &str, objects: u64) -> Result<String, Memory>
    ensures { IfOk result (λ line. string_bytes line ≡ codes "dump" ++ further_words (server.now ∷ decimal objects ∷ [])) }
{
    Ok(format!(in alloc; "dump {server} {objects}\n")?)
}

fn no_dump_line(alloc: Global, server: &str, why: &str) -> Result<String, Memory>
    ensures { IfOk result (λ line. string_bytes line ≡ codes "dump" ++ further_words (server.now ∷ why.now ∷ [])) }
{
    Ok(format!(in alloc; "dump {server} {why}\n")?)
}

fn object_line(
    alloc: Global,
    address: u32,
    name: &str,
    size: u32,
    bytes: &[u8],
) -> Result<String, Memory>
    ensures { IfOk result (λ line. string_bytes line ≡ codes "object" ++ further_words
        (address_text address ∷ name.now ∷ decimal size ∷ bytes_text bytes.now ∷ [])) }
{
    let address = hex::encode(alloc, address.to_be_bytes())?;
    let address = address.as_str();
    let bytes = bytes_text(alloc, bytes)?;
    let bytes = bytes.as_str();
    Ok(format!(in alloc; "object {address} {name} {size} {bytes}\n")?)
}

// The bytes in hexadecimal, up to the last that isn't zero, or `-` where there is none.
fn bytes_text(alloc: Global, bytes: &[u8]) -> Result<String, Memory>
    ensures { IfOk result (λ text. string_bytes text ≡ bytes_text bytes.now) }
{
    let count = count_of_bytes(bytes);
    if count == 0 {
        return Ok(String::from_str(alloc, "-")?);
    }
    let digits = hex::encode(alloc, &bytes[..count])?;
    Ok(digits)
}

// How many bytes are shown: up to the last that isn't zero.
fn count_of_bytes(bytes: &[u8]) -> usize
    ensures bound { result ≤ length bytes.now }
    ensures front { take result bytes.now ≡ shown (λ b. b == 0) bytes.now }
{
    let mut count = bytes.len();
    while 0 < count && bytes[count - 1] == 0 {
        count -= 1;
    }
    count
}

fn boot_line(alloc: Global, server: &str) -> Result<String, Memory>
    ensures { IfOk result (λ line. string_bytes line ≡ codes "boot" ++ further_words (server.now ∷ [])) }
{
    Ok(format!(in alloc; "boot {server}\n")?)
}

fn reply_line(
    alloc: Global,
    server: &str,
    client: i32,
    kind: i32,
    arg: &[i32],
) -> Result<String, Memory>
    ensures { IfOk result (λ line. string_bytes line ≡ codes "reply" ++ further_words
        (server.now ∷ signed_decimal client ∷ signed_decimal kind ∷ map signed_decimal (shown_arguments arg.now))) }
{
    let mut line = format!(in alloc; "reply {server} {client} {kind}")?;
    let count = shown_count(arg);
    push_numbers(&mut line, &arg[..count])?;
    Ok(line)
}

// How many arguments are shown: up to the last that isn't zero.
fn shown_count(arg: &[i32]) -> usize
    ensures bound { result ≤ length arg.now }
    ensures front { take result arg.now ≡ shown_arguments arg.now }
{
    match arg {
        [] => 0,
        [first, rest @ ..] => {
            let count = shown_count(rest);
            if count == 0 && *first == 0 {
                0
            } else {
                count + 1
            }
        }
    }
}

// Ends the line with these numbers as its last words.
fn push_numbers(line: &mut String, numbers: &[i32]) -> Result<(), Memory>
    ensures { OnOk result (string_bytes line.new ≡ string_bytes line.old ++ further_words (map signed_decimal numbers.now)) }
{
    let mut rest = numbers;
    while let [first, after @ ..] = rest {
        push_number(line, *first)?;
        rest = after;
    }
    line.push_str("\n")?;
    Ok(())
}

fn push_number(line: &mut String, value: i32) -> Result<(), Memory>
    ensures { OnOk result (string_bytes line.new ≡ string_bytes line.old ++ (32 ∷ signed_decimal value)) }
{
    write!(line, " {value}")?;
    Ok(())
}
