//! Runs servers by an update plan, and prints what their clients see.
#![tactic(auto)]

mod run;
mod servers;
mod top;
mod words;
mod write;

use lu_base::{FileShelf, OutSink, Status};
use std::io::ErrorKind;
use std::process::ExitCode;
use std::{env, io};
use top::top;

fn main(rt: HostRuntime) -> io::Result<ExitCode> {
    let status = match given_words(&rt) {
        Ok(words) => top(
            rt.alloc(),
            words.as_slice(),
            &mut FileShelf::new(&rt),
            &mut OutSink::new(&rt),
        ),
        // A word that is no text.
        Err(fault) if fault.kind() == ErrorKind::InvalidData => Status::Usage,
        Err(_) => Status::Memory,
    };
    if let Some(text) = message(status) {
        // Where standard error can't be written, the status stands all the same.
        let _ = eprintln!(rt; "{text}");
    }
    Ok(ExitCode::from(status.code()))
}

// The words behind the program's name.
fn given_words(rt: &HostRuntime) -> io::Result<Vec<String>> {
    let mut words = Vec::new(rt.alloc());
    for word in env::args(rt)?.skip(1) {
        words.push(word)?;
    }
    Ok(words)
}

// What goes to standard error.
fn message(status: Status) -> Option<&'static str> {
    match status {
        Status::Usage => Some("usage: lu_cli run|check PLAN"),
        Status::ReadFault => Some("read fault"),
        Status::WriteFault => Some("write fault"),
        Status::Memory => Some("out of memory"),
        Status::Done | Status::Refused => None,
    }
}
