// Files in memory.
ghost use Rattle.std.specs.Prelude.{◌≡◌};
ghost use Rattle.std.specs.Option.{option_copied};
ghost use Rattle.lu_base.specs.Files.{file_named, ReadAnswers};
ghost use Rattle.std.specs.Prelude.{IsErrOf};

use crate::{Bytes8, Name, ShelfFault};
use std::alloc::Global;

// The file of that name; of two with one name the first.
pub fn find<'a>(files: &'a [(Name, Bytes8)], name: &str) -> Option<&'a Bytes8>
    ensures { option_copied result ≡ file_named files.now name.now }
{
    let mut rest = files;
    while let [file, after @ ..] = rest {
        if file.0.as_str() == name {
            return Some(&file.1);
        }
        rest = after;
    }
    None
}

// A copy of the file's bytes, where there are at most `max`.
pub fn copy_of(
    alloc: Global,
    files: &[(Name, Bytes8)],
    name: &str,
    max: u64,
) -> Result<Bytes8, ShelfFault>
    ensures answer { ReadAnswers (file_named files.now name.now) max result }
    ensures calm { IsErrOf result ShelfFault.Failed → ⊥ }
{
    match find(files, name) {
        None => Err(ShelfFault::Absent),
        Some(bytes) if bytes.as_slice().len() as u64 > max => Err(ShelfFault::TooLarge),
        Some(bytes) => Ok(bytes.copy(alloc)?),
    }
}
