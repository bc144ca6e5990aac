//! The program `dispatch`: its words, the file of the document and the standard streams, handed to the calls of
//! `dispatch_run`.
#![tactic(auto)]

use ats_io::{ReadAll, Reading, Writing, read_all};
use dispatch_run::{
    Failure, Order, Status, WordsAnswered, code, dispatch, refuse, turn_down, words,
};
use live_header::{MOST_BYTES, Unread};
use std::fs::File;
use std::process::ExitCode;
use std::{env, io};

const NO_WORDS: &str = "dispatch: the words of the command line can't be read\n";

// The words after the program's name.
fn line(rt: &HostRuntime) -> io::Result<Vec<String>> {
    let line = env::args(rt)?.skip(1).collect(rt.alloc())?;
    Ok(line)
}

// Why there are no words: no memory, or one of them isn't UTF-8.
fn no_words(rt: &HostRuntime, error: &io::Error) -> WordsAnswered {
    if error.kind() == io::ErrorKind::OutOfMemory {
        return WordsAnswered::Memory;
    }
    match String::from_str(rt.alloc(), NO_WORDS) {
        Ok(text) => WordsAnswered::Refused(text),
        Err(_) => WordsAnswered::Memory,
    }
}

// Why the bytes of a document's file aren't there.
fn unread(why: ReadAll) -> Unread {
    match why {
        ReadAll::Memory => Unread::Memory,
        ReadAll::ReadFault => Unread::ReadFault,
        ReadAll::TooLong { .. } => Unread::TooLong,
    }
}

// The bytes of the document's file; none where no file is named.
fn document(rt: &HostRuntime, order: Order<'_>) -> Result<Vec<u8>, Unread> {
    let Some(path) = order.document else {
        return Ok(Vec::new(rt.alloc()));
    };
    match File::open(rt, path) {
        Ok(file) => read_all(rt.alloc(), &mut Reading::new(file), MOST_BYTES).map_err(unread),
        Err(_) => Err(Unread::ReadFault),
    }
}

// Serves what the words ask for.
fn answer(rt: &HostRuntime, order: Order<'_>) -> Status {
    let mut err = Writing::new(rt.stderr());
    match document(rt, order) {
        Ok(document) => dispatch(
            rt.alloc(),
            document,
            &mut Reading::new(rt.stdin()),
            &mut Writing::new(rt.stdout()),
            &mut err,
        ),
        Err(unread) => refuse(rt.alloc(), &Failure::Unread(unread), &mut err),
    }
}

// Answers words that ask for no session.
fn answer_otherwise(rt: &HostRuntime, words: &WordsAnswered) -> Status {
    turn_down(
        words,
        &mut Writing::new(rt.stdout()),
        &mut Writing::new(rt.stderr()),
    )
}

// Answers the words of a command line.
fn answer_words(rt: &HostRuntime, line: &[String]) -> Status {
    match words(rt.alloc(), line) {
        Ok(order) => answer(rt, order),
        Err(answered) => answer_otherwise(rt, &answered),
    }
}

fn main(rt: HostRuntime) -> ExitCode {
    let status = match line(&rt) {
        Ok(line) => answer_words(&rt, &line),
        Err(error) => answer_otherwise(&rt, &no_words(&rt, &error)),
    };
    ExitCode::from(code(status))
}
