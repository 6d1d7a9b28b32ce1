ghost use Rattle.std.specs.Prelude.{◌≡◌, [], min};
ghost use Rattle.lu_base.specs.Stored.{front_in};

use crate::{Sink, SinkFault};
use std::alloc::Global;
use std::marker::Model;

/// Output in memory, and the calls of `write` that fail, each with the length of the front that goes out.
#[derive(Debug, Drop)]
pub struct MemSink {
    written: Vec<u8>,
    failing: Vec<(u64, usize)>,
    calls: u64,
    faults: u64,
}

impl Model for MemSink {
    ghost use Rattle.lu_base.specs.Stored.{StoredOutput};

    ghost Value = { StoredOutput };

    ghost view = { λ s. record { written = s.written.items; failing = s.failing.items; calls = s.calls; faults = s.faults } };
}

impl MemSink {
    /// Calls are numbered from 1; of two entries for one call the first counts. It takes no memory.
    pub fn new(alloc: Global, failing: Vec<(u64, usize)>) -> Self
        ensures { result ≡ record { written = []; failing = failing.items; calls = 0; faults = 0 } }
    {
        MemSink {
            written: Vec::new(alloc),
            failing,
            calls: 0,
            faults: 0,
        }
    }

    /// What was written.
    pub fn written(&self) -> &[u8]
        ensures { result.now ≡ self.now.written }
    {
        self.written.as_slice()
    }
}

// The length of the front that goes out in that call, where it fails.
fn front_of(failing: &[(u64, usize)], call: u64) -> Option<usize>
    ensures { result ≡ front_in failing.now call }
{
    let mut rest = failing;
    while let [entry, after @ ..] = rest {
        if entry.0 == call {
            return Some(entry.1);
        }
        rest = after;
    }
    None
}

impl Sink for MemSink {
    ghost use Rattle.std.specs.Prelude.{◌≡◌, ◌++◌, Some, take, MatchOption, OnOk};
    ghost use Rattle.lu_spec.specs.Fault.{IsCaused};
    ghost use Rattle.lu_base.specs.Output.{WriteAnswers};
    ghost use Rattle.lu_base.specs.Stored.{next_call, front_in, OutputAnswers};

    ghost wrote = { λ s. Some s.written };

    ghost faults = { λ s. s.faults };

    fn write(&mut self, piece: &[u8]) -> Result<(), SinkFault>
        ensures answer { WriteAnswers self.old.written piece.now (Some self.new.written) result }
        ensures cause { IsCaused SinkFault.Failed self.old.faults self.new.faults result }
        ensures exact { OutputAnswers self.old piece.now self.new result }
    {
        self.calls = self.calls.saturating_add(1);
        match front_of(&self.failing, self.calls) {
            None => Ok(self.written.extend_from_slice(piece)?),
            Some(front) => {
                self.written
                    .extend_from_slice(&piece[..front.min(piece.len())])?;
                self.faults = self.faults.saturating_add(1);
                Err(SinkFault::Failed)
            }
        }
    }
}
