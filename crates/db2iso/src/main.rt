//! The program: it makes the real source, sink and gate, runs the job that the words name, and ends with
//! its status.
#![tactic(auto)]

use iso_engine::db2iso;
use iso_io::{SinkStd, SourceStd};
use iso_types::OpenGate;
use std::io::ErrorKind;
use std::process::ExitCode;
use std::rt::Env;
use std::{env, io};

// The status of want of memory.
const NO_MEMORY: u8 = 5;

fn main(rt: HostRuntime) -> ExitCode {
    // words that are no text are no row of the job table, as no words are
    let words = match words(&rt) {
        Ok(words) => words,
        Err(error) if error.kind() == ErrorKind::OutOfMemory => return ExitCode::from(NO_MEMORY),
        Err(_) => Vec::new(rt.alloc()),
    };
    let mut source = SourceStd::new(rt.reader());
    let mut sink = SinkStd::new(io::writer(&rt));
    let report = db2iso(
        &rt,
        rt.alloc(),
        words.as_slice(),
        &mut source,
        &mut sink,
        &OpenGate,
    );
    ExitCode::from(report.status)
}

// The words after the program's name.
fn words(rt: &(impl Env + AllocGlobal)) -> io::Result<Vec<String>> {
    let mut words = Vec::new(rt.alloc());
    for word in env::args(rt)?.skip(1) {
        words.push(word)?;
    }
    Ok(words)
}
