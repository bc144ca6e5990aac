// Texts that are written piece by piece.
use std::alloc::{AllocError, Global};

/// A text. Where there is no memory for a piece of it, that is noted, and there is no text in the end.
#[derive(Drop)]
pub(crate) struct Text {
    pub words: String,
    pub is_short: bool,
}

impl Text {
    pub(crate) fn new(alloc: Global) -> Text {
        Text {
            words: String::new(alloc),
            is_short: false,
        }
    }

    /// Notes whether something was written.
    pub(crate) fn note(&mut self, written: Result<(), AllocError>) {
        if written.is_err() {
            self.is_short = true;
        }
    }

    /// Adds words.
    pub(crate) fn say(&mut self, words: &str) {
        if self.words.push_str(words).is_err() {
            self.is_short = true;
        }
    }

    /// Adds a name between words.
    pub(crate) fn say_name(&mut self, before: &str, name: &str, after: &str) {
        self.say(before);
        self.say(name);
        self.say(after);
    }

    /// Adds a number between words.
    pub(crate) fn say_number(&mut self, before: &str, number: u64, after: &str) {
        if write!(self.words, "{before}{number}{after}").is_err() {
            self.is_short = true;
        }
    }

    /// Adds a share, or how much it rises, between words.
    pub(crate) fn say_share(&mut self, before: &str, share: i32, after: &str) {
        if write!(self.words, "{before}{share}{after}").is_err() {
            self.is_short = true;
        }
    }

    /// Adds a text in quotes.
    pub(crate) fn quote(&mut self, text: &str) {
        if write!(self.words, "{text:?}").is_err() {
            self.is_short = true;
        }
    }
}
