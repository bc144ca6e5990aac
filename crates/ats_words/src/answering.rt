// What a program that has help and a version answers to words that ask for nothing else.
ghost use Rattle.clap.specs.Words.{kind_of};
ghost use Rattle.ats_words.specs.Answered.{AnswersWords};

use clap::Error;
use clap::error::ErrorKind;
use std::alloc::Global;

/// Why there is no order for the words.
#[derive(Drop)]
pub enum WordsAnswered {
    /// They ask for help, or for the version, which this text is.
    Shown(String),
    /// They ask for nothing that there is; the text says why.
    Refused(String),
    /// There was no memory to read them.
    Memory,
}

/// What is written for words that are no order.
pub fn answer_to(alloc: Global, error: &Error) -> WordsAnswered
    ensures { AnswersWords (kind_of error.now) result }
{
    if error.kind() == ErrorKind::OutOfMemory {
        return WordsAnswered::Memory;
    }
    match format!(in alloc; "{error}") {
        Ok(text) => if error.use_stderr() {
            WordsAnswered::Refused(text)
        } else {
            WordsAnswered::Shown(text)
        },
        Err(_) => WordsAnswered::Memory,
    }
}
