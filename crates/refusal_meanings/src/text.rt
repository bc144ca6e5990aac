// Texts that are written piece by piece.

use std::alloc::{AllocError, Global};

/// A text. Where there is no memory for a piece of it, that is noted, and there is no text in the end.
#[derive(Drop)]
pub(crate) struct Text {
    alloc: Global,
    words: String,
    is_out_of_memory: bool,
}

impl Text {
    pub(crate) fn new(alloc: Global) -> Text {
        Text {
            alloc,
            words: String::new(alloc),
            is_out_of_memory: false,
        }
    }

    pub(crate) fn alloc(&self) -> Global {
        self.alloc
    }

    /// Notes that there was no memory for something.
    pub(crate) fn note_no_memory(&mut self) {
        self.is_out_of_memory = true;
    }

    /// Adds words.
    pub(crate) fn say(&mut self, words: &str) {
        if self.words.push_str(words).is_err() {
            self.note_no_memory();
        }
    }

    /// Adds a number.
    pub(crate) fn say_number(&mut self, number: u64) {
        if write!(self.words, "{number}").is_err() {
            self.note_no_memory();
        }
    }

    /// Adds a number that may be below 0, after the word for it.
    pub(crate) fn say_value(&mut self, value: i64) {
        if write!(self.words, "value {value}").is_err() {
            self.note_no_memory();
        }
    }

    /// Adds words in quotes.
    pub(crate) fn quote(&mut self, words: &str) {
        if write!(self.words, "{words:?}").is_err() {
            self.note_no_memory();
        }
    }

    /// The text, if there was memory for all of it.
    pub(crate) fn into_result(self) -> Result<String, AllocError> {
        if self.is_out_of_memory {
            Err(AllocError)
        } else {
            Ok(self.words)
        }
    }
}
