//! The words of a refusal.

ghost use Rattle.std.specs.Prelude.{◌≡◌, ◌++◌, ◌∷◌, [], IfOk, OnOk, codes, string_bytes};
ghost use Rattle.std.specs.Fmt.{decimal, signed_decimal};
ghost use Rattle.lu_lines.specs.Line.{spaced, trap_text, reason_words, target_text};

use crate::Reason;
use lu_base::{Memory, Trap};
use std::alloc::Global;

/// A trap's name, and the number of a panic.
pub fn trap_text(alloc: Global, trap: Trap) -> Result<String, Memory>
    ensures { IfOk result (λ text. string_bytes text ≡ trap_text trap) }
{
    let name = match trap {
        Trap::DivZero => "DivZero",
        Trap::BadShift => "BadShift",
        Trap::BadIndex => "BadIndex",
        Trap::BadPointer => "BadPointer",
        Trap::PtrRange => "PtrRange",
        Trap::PtrOrder => "PtrOrder",
        Trap::UnionMember => "UnionMember",
        Trap::BadCall => "BadCall",
        Trap::BadFree => "BadFree",
        Trap::Depth => "Depth",
        Trap::Budget => "Budget",
        Trap::Panic(number) => return Ok(format!(in alloc; "Panic {number}")?),
        Trap::BadCode => "BadCode",
    };
    Ok(String::from_str(alloc, name)?)
}

fn push_word(line: &mut String, word: &str) -> Result<(), Memory>
    ensures { OnOk result (string_bytes line.new ≡ string_bytes line.old ++ spaced (word.now ∷ [])) }
{
    write!(line, " {word}")?;
    Ok(())
}

fn push_two(line: &mut String, first: &str, second: &str) -> Result<(), Memory>
    ensures { OnOk result (string_bytes line.new ≡ string_bytes line.old ++ spaced (first.now ∷ second.now ∷ [])) }
{
    write!(line, " {first} {second}")?;
    Ok(())
}

fn push_three(line: &mut String, first: &str, second: &str, third: &str) -> Result<(), Memory>
    ensures { OnOk result (string_bytes line.new ≡ string_bytes line.old ++ spaced (first.now ∷ second.now ∷ third.now ∷ [])) }
{
    write!(line, " {first} {second} {third}")?;
    Ok(())
}

fn push_count(line: &mut String, name: &str, count: u64) -> Result<(), Memory>
    ensures { OnOk result (string_bytes line.new ≡ string_bytes line.old ++ spaced (name.now ∷ decimal count ∷ [])) }
{
    write!(line, " {name} {count}")?;
    Ok(())
}

fn push_trap(alloc: Global, line: &mut String, name: &str, trap: Trap) -> Result<(), Memory>
    ensures { OnOk result (string_bytes line.new ≡ string_bytes line.old ++ spaced (name.now ∷ trap_text trap ∷ [])) }
{
    let text = trap_text(alloc, trap)?;
    push_two(line, name, text.as_str())
}

fn push_handler_trap(alloc: Global, line: &mut String, call: u64, trap: Trap) -> Result<(), Memory>
    ensures { OnOk result (string_bytes line.new ≡ string_bytes line.old ++ spaced (codes "HandlerTrap" ∷ decimal call ∷ trap_text trap ∷ [])) }
{
    let text = trap_text(alloc, trap)?;
    let text = text.as_str();
    write!(line, " HandlerTrap {call} {text}")?;
    Ok(())
}

fn push_narrow(line: &mut String, path: &str, value: i128) -> Result<(), Memory>
    ensures { OnOk result (string_bytes line.new ≡ string_bytes line.old ++ spaced (codes "Narrow" ∷ path.now ∷ signed_decimal value ∷ [])) }
{
    write!(line, " Narrow {path} {value}")?;
    Ok(())
}

fn push_target(
    line: &mut String,
    name: &str,
    path: &str,
    object: &str,
    offset: u32,
) -> Result<(), Memory>
    ensures { OnOk result (string_bytes line.new ≡ string_bytes line.old ++ spaced (name.now ∷ path.now ∷ target_text object.now offset ∷ [])) }
{
    write!(line, " {name} {path} {object}+{offset}")?;
    Ok(())
}

/// Appends the words of a reason, each behind a space.
pub fn push_reason(alloc: Global, line: &mut String, reason: &Reason) -> Result<(), Memory>
    ensures { OnOk result (string_bytes line.new ≡ string_bytes line.old ++ spaced (reason_words reason.now)) }
{
    match reason {
        Reason::Dead { trap } => push_trap(alloc, line, "Dead", *trap),
        Reason::Busy => push_word(line, "Busy"),
        Reason::Version { version } => push_count(line, "Version", *version),
        Reason::FilterTrap { trap } => push_trap(alloc, line, "FilterTrap", *trap),
        Reason::NotQuiet { deliveries } => push_count(line, "NotQuiet", *deliveries),
        Reason::Aborted { units } => push_count(line, "Aborted", *units),
        Reason::HandlerTrap { call, trap } => push_handler_trap(alloc, line, *call, *trap),
        Reason::NoMemory { unit } => push_count(line, "NoMemory", *unit),
        Reason::Shape { path } => push_two(line, "Shape", path.as_str()),
        Reason::HandledInUnion { path } => push_two(line, "HandledInUnion", path.as_str()),
        Reason::ArrayCut { path } => push_two(line, "ArrayCut", path.as_str()),
        Reason::HeapLimit { object } => push_two(line, "HeapLimit", object.as_str()),
        Reason::Narrow { path, value } => push_narrow(line, path.as_str(), *value),
        Reason::MemberGone { path, member } => {
            push_three(line, "MemberGone", path.as_str(), member.as_str())
        }
        Reason::LostFunction { path, function } => {
            push_three(line, "LostFunction", path.as_str(), function.as_str())
        }
        Reason::UnpairedSite { path, site } => {
            push_three(line, "UnpairedSite", path.as_str(), site.as_str())
        }
        Reason::Dangling {
            path,
            object,
            offset,
        } => push_target(line, "Dangling", path.as_str(), object.as_str(), *offset),
        Reason::LostTarget {
            path,
            object,
            offset,
        } => push_target(line, "LostTarget", path.as_str(), object.as_str(), *offset),
        Reason::NoPlace {
            path,
            object,
            offset,
        } => push_target(line, "NoPlace", path.as_str(), object.as_str(), *offset),
        Reason::Ambiguous {
            path,
            object,
            offset,
        } => push_target(line, "Ambiguous", path.as_str(), object.as_str(), *offset),
    }
}
