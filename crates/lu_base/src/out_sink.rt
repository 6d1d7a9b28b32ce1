ghost use Rattle.std.specs.Prelude.{◌≡◌};

use crate::{Sink, SinkFault};
use std::io::{ErrorKind, Write, writer};

/// Standard output. It tells nothing of what was written, and never answers `Memory`.
#[derive(Drop)]
pub struct OutSink<'a, P: Print> {
    rt: &'a P,
    faults: u64,
}

impl<'a, P: Print> OutSink<'a, P> {
    /// It takes no memory.
    pub fn new(rt: &'a P) -> Self {
        OutSink { rt, faults: 0 }
    }
}

// Whether all of the piece was taken. A write that takes nothing of it is a failure, an interrupted one is made again.
fn write_whole<W: Write>(out: &mut W, piece: &[u8]) -> bool {
    let mut rest = piece;
    for _ in 0..u64::MAX {
        if rest.is_empty() {
            return true;
        }
        match out.write(rest) {
            Ok(count) if count > 0 => rest = &rest[count..],
            Err(fault) if fault.kind() == ErrorKind::Interrupted => {}
            _ => return false,
        }
    }
    false
}

impl<'a, P: Print> Sink for OutSink<'a, P> {
    ghost use Rattle.std.specs.Prelude.{◌≡◌, None, IsErrOf};
    ghost use Rattle.lu_spec.specs.Fault.{IsCaused};

    ghost wrote = { λ _. None };

    ghost faults = { λ s. s.faults };

    fn write(&mut self, piece: &[u8]) -> Result<(), SinkFault>
        ensures cause { IsCaused SinkFault.Failed self.old.faults self.new.faults result }
        ensures no_memory { IsErrOf result SinkFault.Memory → ⊥ }
    {
        if write_whole(&mut writer(self.rt), piece) {
            return Ok(());
        }
        self.faults = self.faults.saturating_add(1);
        Err(SinkFault::Failed)
    }
}
