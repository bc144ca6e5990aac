//! The program `ats`: its words, standard input, standard output and standard error, handed to the top call.
#![tactic(auto)]

use ats_io::{NoGate, Reading, Writing};
use ats_run::{Failure, ats, code, refuse};
use std::process::ExitCode;
use std::{env, io};

// The words after the program's name.
fn words(rt: &HostRuntime) -> io::Result<Vec<String>> {
    let words = env::args(rt)?.skip(1).collect(rt.alloc())?;
    Ok(words)
}

// Why there are no words: no memory, or one of them isn't UTF-8.
fn failure_of(error: &io::Error) -> Failure {
    match error.kind() {
        io::ErrorKind::OutOfMemory => Failure::Memory,
        _ => Failure::Words,
    }
}

fn main(rt: HostRuntime) -> ExitCode {
    let mut source = Reading::new(rt.stdin());
    let mut out = Writing::new(rt.stdout());
    let mut err = Writing::new(rt.stderr());
    let status = match words(&rt) {
        Ok(words) => ats(
            &rt,
            rt.alloc(),
            &words,
            &mut source,
            &mut out,
            &mut err,
            &NoGate,
        ),
        Err(error) => refuse(rt.alloc(), failure_of(&error), &mut err).status(),
    };
    ExitCode::from(code(status))
}
