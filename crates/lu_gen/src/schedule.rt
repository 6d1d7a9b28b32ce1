//! The schedule of a number.

ghost use Rattle.std.specs.Prelude.{◌≡◌, ◌<◌, ◌≤◌, ◌+◌, ◌^◌, ◌++◌, IfOk, OnOk, string_bytes};
ghost use Rattle.lu_gen.specs.Generator as spec;

use lu_base::Memory;
use std::alloc::Global;

/// The next number of the linear congruential sequence.
fn next(x: u32) -> u32
    ensures { result ≡ spec.next x }
{
    ((1_664_525 * u64::from(x) + 1_013_904_223) % 0x1_0000_0000) as u32
}

/// Appends a message with the key of x, and a round of the server.
#[tactic(auto, unfolding(crate::specs::Generator::pair))]
fn push_pair(text: &mut String, j: u32, x: u32) -> Result<(), Memory>
    ensures { OnOk result (string_bytes text.new ≡ string_bytes text.old ++ spec.pair j x) }
{
    let client = 100 + j % 8;
    let key = x / 65_536 % 4096;
    write!(text, "send {client} store 1 {key}\ndrain 1\n")?;
    Ok(())
}

/// Appends the pairs after the one numbered `after`, and gives the number of the sequence that was used last.
fn push_pairs(text: &mut String, after: u32, count: u32, number: u32) -> Result<u32, Memory>
    requires { after + count < 2 ^ 32 }
    ensures text { OnOk result (string_bytes text.new ≡ string_bytes text.old ++ spec.pairs after count number) }
    ensures last { IfOk result (λ x. x ≡ spec.steps count number) }
{
    let mut x = number;
    for i in 0..count {
        x = next(x);
        push_pair(text, after + i + 1, x)?;
    }
    Ok(x)
}

/// The schedule of the number.
#[tactic(auto, unfolding(crate::specs::Generator::schedule, crate::specs::Generator::update_lines))]
pub fn schedule(alloc: Global, number: u32) -> Result<String, Memory>
    ensures { IfOk result (λ text. string_bytes text ≡ spec.schedule number) }
{
    let mut text = String::new(alloc);
    let middle = push_pairs(&mut text, 0, 500, number)?;
    text.push_str("update up\nwork up 100000\n")?;
    push_pairs(&mut text, 500, 500, middle)?;
    Ok(text)
}
