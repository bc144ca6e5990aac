// The words of a fault.
use crate::{Entry, Kind};
use std::alloc::{AllocError, Global};

/// A part of a message.
#[derive(Clone, Copy)]
pub enum Part<'x> {
    Words(&'x str),
    /// A name in quotes: at most 40 characters of it, and `?` for those that don't print.
    Name(&'x str),
    Number(i64),
    Count(usize),
    /// The first ten of these names, with commas between them.
    List(&'x [&'x str]),
    /// The number of a further table, as ` in table 1`; nothing for the first.
    InTable(usize),
}

/// Words that are put together. Where there is no memory for some of them, they are lost.
#[derive(Drop)]
pub(crate) struct Words {
    text: String,
    is_lost: bool,
}

impl Words {
    /// No words.
    pub fn new(alloc: Global) -> Words {
        Words {
            text: String::new(alloc),
            is_lost: false,
        }
    }

    /// The words, if none of them are lost.
    pub fn whole(self) -> Result<String, AllocError> {
        let Words { text, is_lost } = self;
        if is_lost { Err(AllocError) } else { Ok(text) }
    }

    // Adds words.
    fn push(&mut self, words: &str) {
        if self.text.push_str(words).is_err() {
            self.is_lost = true;
        }
    }

    // Adds a number.
    fn push_number(&mut self, number: i64) {
        if write!(self.text, "{number}").is_err() {
            self.is_lost = true;
        }
    }

    // Adds a count.
    fn push_count(&mut self, count: usize) {
        self.push_number(i64::try_from(count).unwrap_or(i64::MAX));
    }

    // Adds a character of a name; `?` for one that doesn't print.
    fn push_letter(&mut self, letter: char) {
        let shown = if letter.is_control() { '?' } else { letter };
        if self.text.push(shown).is_err() {
            self.is_lost = true;
        }
    }

    // Adds a name in quotes.
    fn push_name(&mut self, name: &str) {
        self.push("\"");
        for letter in name.chars().take(40) {
            self.push_letter(letter);
        }
        self.push("\"");
    }

    // Adds the first ten of some names.
    fn push_list(&mut self, names: &[&str]) {
        for index in 0..names.len().min(10) {
            if 0 < index {
                self.push(", ");
            }
            if let Some(name) = names.get(index) {
                self.push(name);
            }
        }
        if 10 < names.len() {
            self.push(" ..");
        }
    }

    // Adds a part of a message.
    fn push_part(&mut self, part: &Part) {
        match *part {
            Part::Words(words) => self.push(words),
            Part::Name(name) => self.push_name(name),
            Part::Number(number) => self.push_number(number),
            Part::Count(count) => self.push_count(count),
            Part::List(names) => self.push_list(names),
            Part::InTable(table) => if 0 < table {
                self.push(" in table ");
                self.push_count(table);
            },
        }
    }

    /// Adds a text, with a part in place of each `{}`.
    pub fn push_form(&mut self, form: &str, parts: &[Part]) {
        let mut index = 0usize;
        for piece in form.split("{}") {
            self.push(piece);
            if let Some(part) = parts.get(index) {
                self.push_part(part);
            }
            index = index.saturating_add(1);
        }
    }

    /// Adds what messages call an entry: the kind of it, and its name or its number. Further tables are numbered from 1.
    pub fn push_entry(&mut self, entry: &Entry) {
        if let Some(table) = entry.table {
            self.push_form("table {}, ", &[Part::Count(table.saturating_add(1))]);
        }
        let kind = Part::Words(entry.kind.word());
        let called = match entry.kind {
            Kind::Top | Kind::Zones | Kind::Ways => return,
            Kind::Table => Part::Count(entry.index.saturating_add(1)),
            _ => match entry.text("name") {
                Some(name) => Part::Name(name),
                None => Part::Count(entry.index),
            },
        };
        self.push_form("{} {}: ", &[kind, called]);
    }
}
