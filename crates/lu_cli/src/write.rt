//! Writing: pieces of text and the lines of notes.

ghost use Rattle.std.specs.Prelude.{◌≡◌, IfSome};
ghost use Rattle.lu_spec.specs.Fault.{IsCaused};
ghost use Rattle.lu_lines.specs.Line.{line_bytes};
ghost use Rattle.lu_cli.specs.Told.{lines_bytes};
ghost use Rattle.lu_cli.specs.Sequence.{Wrote};

use lu_base::{Memory, Sink, SinkFault};
use lu_lines::{Note, line_of};
use std::alloc::Global;

/// Why writing stopped.
#[derive(Clone, Copy, Debug, PartialEq, Eq)]
pub enum Stopped {
    /// A write failed.
    WriteFault,
    /// An allocation was refused.
    Memory,
}

/// Writes the piece behind what was written.
pub fn write_piece<K: Sink>(piece: &[u8], sink: &mut K) -> Result<(), Stopped>
    ensures cause { IsCaused Stopped.WriteFault (K.faults sink.old) (K.faults sink.new) result }
    ensures wrote { IfSome (K.wrote sink.old) (λ before. Wrote before piece.now (K.wrote sink.new) result) }
{
    match sink.write(piece) {
        Ok(()) => Ok(()),
        Err(SinkFault::Failed) => Err(Stopped::WriteFault),
        Err(SinkFault::Memory) => Err(Stopped::Memory),
    }
}

/// Writes the lines of the notes.
pub fn write_notes<K: Sink>(alloc: Global, notes: &[Note], sink: &mut K) -> Result<(), Stopped>
    ensures cause { IsCaused Stopped.WriteFault (K.faults sink.old) (K.faults sink.new) result }
    ensures wrote { IfSome (K.wrote sink.old) (λ before. Wrote before (lines_bytes notes.now) (K.wrote sink.new) result) }
{
    let mut rest = notes;
    while let [note, after @ ..] = rest {
        match write_note(alloc, note, sink) {
            Ok(()) => rest = after,
            Err(stopped) => return Err(stopped),
        }
    }
    Ok(())
}

fn write_note<K: Sink>(alloc: Global, note: &Note, sink: &mut K) -> Result<(), Stopped>
    ensures cause { IsCaused Stopped.WriteFault (K.faults sink.old) (K.faults sink.new) result }
    ensures wrote { IfSome (K.wrote sink.old) (λ before. Wrote before (line_bytes note.now) (K.wrote sink.new) result) }
{
    match line_of(alloc, note) {
        Ok(line) => write_piece(line.as_slice(), sink),
        Err(Memory) => Err(Stopped::Memory),
    }
}
