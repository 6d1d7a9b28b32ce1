//! The generated files.

ghost use Rattle.std.specs.Prelude.{◌≡◌, IfOk, string_bytes};
ghost use Rattle.lu_gen.specs.Generator.{generated_files};

use crate::schedule::schedule;
use crate::texts::{NEW_CELL, OLD_CELL, PLAN, PROGRAM};
use lu_base::{Bytes8, CalmShelf, Memory, Name};
use std::alloc::Global;

fn file(alloc: Global, name: &str, text: String) -> Result<(Name, Bytes8), Memory>
    ensures { IfOk result (λ f. f ≡ (name.now, string_bytes text)) }
{
    Ok((
        Name::new(String::from_str(alloc, name)?),
        Bytes8::new(text.into_bytes()),
    ))
}

/// A shelf with the files that the number stands for, and no other: `plan`, `a.c`, `b.c` and `s`.
#[tactic(auto, using(crate::proofs::TextsAre::texts), unfolding(crate::specs::Generator::generated_files))]
pub fn generate(alloc: Global, number: u32) -> Result<CalmShelf, Memory>
    ensures { IfOk result (λ shelf. shelf ≡ generated_files number) }
{
    let plan = file(alloc, "plan", String::from_str(alloc, PLAN)?)?;
    let old = file(alloc, "a.c", format!(in alloc; "{OLD_CELL}{PROGRAM}")?)?;
    let new = file(alloc, "b.c", format!(in alloc; "{NEW_CELL}{PROGRAM}")?)?;
    let schedule = file(alloc, "s", schedule(alloc, number)?)?;
    Ok(CalmShelf::new(vec![in alloc; plan, old, new, schedule]?))
}
