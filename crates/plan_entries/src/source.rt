// Where in the text of a plan an entry is.
use crate::{Entry, Origins};
use std::alloc::{AllocError, Global};

/// The lines of a text.
#[derive(Drop)]
pub(crate) struct Source<'a> {
    lines: Vec<&'a str>,
    origins: Origins,
}

// Whether a key or a name may have this character.
fn is_word_part(letter: char) -> bool {
    letter.is_ascii_alphanumeric() || letter == '_' || letter == '-'
}

// Whether a key or a name ends at this character.
fn is_gap(letter: char) -> bool {
    !is_word_part(letter)
}

// The name in the brackets that a line begins with; empty if it begins with none.
fn header_of(line: &str) -> &str {
    let Some(rest) = line.trim_start().strip_prefix("[") else {
        return "";
    };
    let rest = rest.strip_prefix("[").unwrap_or(rest);
    match rest.split_once("]") {
        Some((name, _)) if name.starts_with(is_word_part) => name.trim(),
        _ => "",
    }
}

// Whether a header names a part of this one, as `train.times` of `train`.
fn is_part_of(part: &str, header: &str) -> bool {
    match part.strip_prefix(header) {
        Some(rest) => header != "table" && rest.starts_with("."),
        None => false,
    }
}

// The key that a line begins with.
fn first_key(line: &str) -> &str {
    let line = line.trim_start();
    let line = line.strip_prefix("\"").unwrap_or(line);
    line.split(is_gap).next().unwrap_or("")
}

// The last part of a header that has several.
fn last_part(header: &str) -> &str {
    match header.rsplit_once(".") {
        Some((_, last)) => last,
        None => "",
    }
}

// Whether a line begins with a key, or is the header of its table.
fn begins_with(line: &str, key: &str) -> bool {
    first_key(line) == key || last_part(header_of(line)) == key
}

// Whether a name is in a line between two of these quotes, or before the first or after the last.
fn has_quoted(line: &str, quote: char, name: &str) -> bool {
    for piece in line.split(quote) {
        if piece == name {
            return true;
        }
    }
    false
}

// Whether a name is in a line as a word.
fn has_bare(line: &str, name: &str) -> bool {
    for piece in line.split(is_gap) {
        if piece == name {
            return true;
        }
    }
    false
}

// Whether a name is in a line, in quotes or as a word.
fn has_name(line: &str, name: &str) -> bool {
    has_quoted(line, '"', name) || has_quoted(line, '\'', name) || has_bare(line, name)
}

// What is looked for in the lines of an entry. Empty words are nowhere.
#[derive(Clone, Copy)]
enum Sought<'s> {
    // A header that is none of a part of this one.
    OtherThan(&'s str),
    Key(&'s str),
    Name(&'s str),
}

impl Sought<'_> {
    fn is_in(self, line: &str) -> bool {
        match self {
            Sought::OtherThan(header) => {
                let next = header_of(line);
                !next.is_empty() && !is_part_of(next, header)
            }
            Sought::Key(key) => !key.is_empty() && begins_with(line, key),
            Sought::Name(name) => !name.is_empty() && has_name(line, name),
        }
    }
}

impl<'a> Source<'a> {
    /// The lines of a text.
    pub fn new(alloc: Global, text: &'a str) -> Result<Source<'a>, AllocError> {
        let mut lines = Vec::new(alloc);
        for line in text.lines() {
            lines.push(line)?;
        }
        Ok(Source {
            lines,
            origins: Origins::new(alloc),
        })
    }

    /// From now on, its trains stand for these entries.
    pub fn set_origins(&mut self, origins: Origins) {
        self.origins = origins;
    }

    /// Whether an entry is a further train of the entry of the train before it.
    pub fn is_copy(&self, at: &Entry) -> bool {
        self.origins.is_copy(at)
    }

    // A line, counted from 0; empty after the last.
    fn line(&self, index: usize) -> &'a str {
        self.lines.get(index).copied().unwrap_or("")
    }

    // The line of the header with this index, of those that begin at a line or below it.
    fn header_line(&self, from: usize, header: &str, index: usize) -> Option<usize> {
        if header.is_empty() {
            return None;
        }
        let mut seen = 0usize;
        for at in from..self.lines.len() {
            if header_of(self.line(at)) == header {
                if seen == index {
                    return Some(at);
                }
                seen = seen.saturating_add(1);
            }
        }
        None
    }

    // The line of an entry's header, if it has one.
    fn first_line(&self, at: &Entry, header: &str) -> Option<usize> {
        let from = match at.table {
            Some(table) => self.header_line(0, "table", table)?,
            None => 0,
        };
        self.header_line(from, header, self.origins.of(at))
    }

    // The first of these lines in which something is.
    fn first_with(&self, from: usize, end: usize, sought: Sought<'_>) -> Option<usize> {
        for at in from..end {
            if sought.is_in(self.line(at)) {
                return Some(at);
            }
        }
        None
    }

    // The line of a name below a key in the lines of an entry, of which the first is its header, if it has one.
    fn find_below(&self, first: usize, header: &str, key: &str, name: &str) -> usize {
        let below = if header.is_empty() {
            first
        } else {
            first.saturating_add(1)
        };
        let all = self.lines.len();
        let end = self
            .first_with(below, all, Sought::OtherThan(header))
            .unwrap_or(all);
        let from = self
            .first_with(below, end, Sought::Key(key))
            .unwrap_or(first);
        self.first_with(from, end, Sought::Name(name))
            .unwrap_or(from)
    }

    // The line of a name below a key of an entry, counted from 0.
    fn find(&self, at: &Entry) -> usize {
        let header = at.header();
        let first = if header.is_empty() {
            self.header_line(0, at.key, 0)
        } else {
            self.first_line(at, header)
        };
        match first {
            Some(first) if header.is_empty() => first,
            Some(first) => self.find_below(first, header, at.key, at.name),
            None if header.is_empty() => self.find_below(0, "", at.key, at.name),
            None => self.find_below(0, "", header, at.name),
        }
    }

    /// The line of a name below a key of an entry, counted from 1: where they aren't found, that of the key, of the entry's
    /// header, or 1.
    pub fn line_of(&self, at: &Entry) -> u32 {
        u32::try_from(self.find(at)).unwrap_or(0).saturating_add(1)
    }
}
