ghost use Rattle.std.specs.Prelude.{◌≡◌};

use crate::{Bytes8, Shelf, ShelfFault};
use std::alloc::Global;
use std::fs;
use std::io::{ErrorKind, Read};
use std::rt::Files;

/// The files of the folder that the program runs in. It tells nothing of what they hold.
#[derive(Drop)]
pub struct FileShelf<'a, R: Files> {
    rt: &'a R,
    faults: u64,
}

impl<'a, R: Files> FileShelf<'a, R> {
    /// It takes no memory.
    pub fn new(rt: &'a R) -> Self {
        FileShelf { rt, faults: 0 }
    }
}

// Reads at most one byte more than `max`, and asks again after an interrupted call.
fn read_up_to<F: Read>(alloc: Global, file: &mut F, max: u64) -> Result<Bytes8, ShelfFault> {
    let mut bytes = Vec::new(alloc);
    let mut buffer = [0u8; 4096];
    let mut left = max;
    for _ in 0..u64::MAX {
        let asked = left.min(4095) as usize + 1;
        match file.read(&mut buffer[..asked]) {
            Err(fault) if fault.kind() == ErrorKind::Interrupted => {}
            Err(_) => return Err(ShelfFault::Failed),
            Ok(0) => return Ok(Bytes8::new(bytes)),
            Ok(count) if count as u64 > left => return Err(ShelfFault::TooLarge),
            Ok(count) => {
                left -= count as u64;
                bytes.extend_from_slice(&buffer[..count])?;
            }
        }
    }
    Err(ShelfFault::Failed)
}

impl<'a, R: Files> Shelf for FileShelf<'a, R> {
    ghost use Rattle.std.specs.Prelude.{None};

    ghost holds = { λ _. None };

    ghost faults = { λ s. s.faults };

    fn read(&mut self, alloc: Global, name: &str, max: u64) -> Result<Bytes8, ShelfFault> {
        let answer = match fs::open(self.rt, name) {
            Ok(mut file) => read_up_to(alloc, &mut file, max),
            Err(fault) if fault.kind() == ErrorKind::NotFound => Err(ShelfFault::Absent),
            Err(_) => Err(ShelfFault::Failed),
        };
        if let Err(ShelfFault::Failed) = answer {
            self.faults = self.faults.saturating_add(1);
        }
        answer
    }
}
