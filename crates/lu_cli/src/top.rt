//! The top call.

ghost use Rattle.std.specs.Prelude.{◌≡◌, ◌⊎◌, ◌↔◌, None, IfOk, IfSome};
ghost use Rattle.lu_spec.specs.Fault.{IsCaused};
ghost use Rattle.lu_load.specs.Setups.{KeepsSetup};
ghost use Rattle.lu_load_lines.specs.Lines.{refusal_line};
ghost use Rattle.lu_cli.specs.Sequence.{Wrote};
ghost use Rattle.lu_cli.specs.Stops.{status_of};
ghost use Rattle.lu_cli.specs.Words.{asked, asked_of};
ghost use Rattle.lu_cli.specs.Top.{Answers, OnlyRisen, SetupWrote};

use crate::run::run;
use crate::words::{Command, Verb, command_of};
use crate::write::{Stopped, write_piece};
use lu_base::{Memory, Shelf, Sink, Status};
use lu_load::{LoadError, Setup, load};
use lu_load_lines::{LoadRefusal, line_of};
use std::alloc::Global;

/// Does what the words ask for: runs the servers of a plan and writes the lines of what they tell, or loads a plan and writes
/// that it is accepted.
pub fn top<S: Shelf, K: Sink>(
    alloc: Global,
    words: &[String],
    shelf: &mut S,
    sink: &mut K,
) -> Status
    // `Usage` is answered exactly where the words are no accepted form, and then nothing was read or written.
    ensures usage { (result ≡ Status.Usage) ↔ (asked_of words.now ≡ None) }
    ensures untouched { result ≡ Status.Usage → (shelf.new ≡ shelf.old) × (sink.new ≡ sink.old) }

    ensures kept { S.holds shelf.new ≡ S.holds shelf.old }
    ensures read_fault { OnlyRisen Status.ReadFault (S.faults shelf.old) (S.faults shelf.new) result }
    ensures write_fault { OnlyRisen Status.WriteFault (K.faults sink.old) (K.faults sink.new) result }

    // Where the words are accepted, the shelf tells what it holds and the sink what it wrote.
    ensures answer { IfSome (asked_of words.now) (λ asked. IfSome (S.holds shelf.old) (λ files. IfSome (K.wrote sink.old) (λ before.
        Answers files asked before (K.wrote sink.new) result))) }
{
    match command_of(words) {
        Some(command) => obey(alloc, &command, shelf, sink),
        None => Status::Usage,
    }
}

// Loads the plan, and writes what is asked of it, or why it is refused.
fn obey<S: Shelf, K: Sink>(
    alloc: Global,
    command: &Command<'_>,
    shelf: &mut S,
    sink: &mut K,
) -> Status
    ensures accepted { result ≡ Status.Usage → ⊥ }
    ensures kept { S.holds shelf.new ≡ S.holds shelf.old }
    ensures read_fault { OnlyRisen Status.ReadFault (S.faults shelf.old) (S.faults shelf.new) result }
    ensures write_fault { OnlyRisen Status.WriteFault (K.faults sink.old) (K.faults sink.new) result }
    ensures answer { IfSome (S.holds shelf.old) (λ files. IfSome (K.wrote sink.old) (λ before.
        Answers files (asked command.now.verb command.now.plan.now) before (K.wrote sink.new) result)) }
{
    match load(alloc, command.plan, shelf) {
        Ok(setup) => status_of(follow(alloc, command.verb, &setup, sink)),
        Err(LoadError::Refused(refusal)) => status_of(refuse(alloc, &refusal, sink)),
        Err(LoadError::ReadFault) => Status::ReadFault,
        Err(LoadError::Memory) => Status::Memory,
    }
}

fn status_of(outcome: Result<Status, Stopped>) -> Status
    ensures { result ≡ status_of outcome }
{
    match outcome {
        Ok(status) => status,
        Err(Stopped::WriteFault) => Status::WriteFault,
        Err(Stopped::Memory) => Status::Memory,
    }
}

// The piece, and then the status.
fn write_whole<K: Sink>(piece: &[u8], status: Status, sink: &mut K) -> Result<Status, Stopped>
    ensures status { IfOk result (λ s. s ≡ status) }
    ensures cause { IsCaused Stopped.WriteFault (K.faults sink.old) (K.faults sink.new) result }
    ensures wrote { IfSome (K.wrote sink.old) (λ before. Wrote before piece.now (K.wrote sink.new) result) }
{
    match write_piece(piece, sink) {
        Ok(()) => Ok(status),
        Err(stopped) => Err(stopped),
    }
}

fn refuse<K: Sink>(alloc: Global, refusal: &LoadRefusal, sink: &mut K) -> Result<Status, Stopped>
    ensures status { IfOk result (λ s. s ≡ Status.Refused) }
    ensures cause { IsCaused Stopped.WriteFault (K.faults sink.old) (K.faults sink.new) result }
    ensures wrote { IfSome (K.wrote sink.old) (λ before. Wrote before (refusal_line refusal.now) (K.wrote sink.new) result) }
{
    match line_of(alloc, refusal) {
        Ok(line) => write_whole(line.as_slice(), Status::Refused, sink),
        Err(Memory) => Err(Stopped::Memory),
    }
}

// Does what is asked of a plan that is loaded.
fn follow<K: Sink>(
    alloc: Global,
    verb: Verb,
    setup: &Setup,
    sink: &mut K,
) -> Result<Status, Stopped>
    requires { KeepsSetup setup.now }
    ensures status { IfOk result (λ s. (s ≡ Status.Done) ⊎ (s ≡ Status.Refused)) }
    ensures cause { IsCaused Stopped.WriteFault (K.faults sink.old) (K.faults sink.new) result }
    ensures wrote { IfSome (K.wrote sink.old) (λ before. SetupWrote verb setup.now before (K.wrote sink.new) result) }
{
    match verb {
        Verb::Check => write_whole(b"ok\n", Status::Done, sink),
        Verb::Run if !setup.plan.update.as_slice().is_empty() => {
            write_whole(b"refused unbuilt\n", Status::Refused, sink)
        }
        Verb::Run => match run(alloc, setup, sink) {
            Ok(()) => Ok(Status::Done),
            Err(stopped) => Err(stopped),
        },
    }
}
