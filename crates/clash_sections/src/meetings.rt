// What is known of each two stands.
ghost use Rattle.std.specs.Prelude.{◌≡◌, ◌≤◌, ◌++◌, ◌∷◌, ◌↔◌, [], IsTrue, OnOk, OnErr, length};
ghost use Rattle.clash_sections.specs.Stands.{meeting as meeting_of};

use std::alloc::{AllocError, Global};
use std::marker::Model;

/// What is known of two stands, if two different trains are on them at once.
#[derive(Clone, Copy)]
pub enum Meeting {
    /// They may be.
    Free,
    /// They must never be.
    Clash,
    /// They never are, so that nothing need be said.
    Never,
}

impl Meeting {
    ghost use Rattle.clash_sections.specs.declared.meetings.Meeting.TheVariants.{Free, Clash};

    pub(crate) fn is_free(self) -> bool
        ensures { IsTrue result ↔ (self ≡ Free) }
    {
        match self {
            Meeting::Free => true,
            Meeting::Clash | Meeting::Never => false,
        }
    }

    pub(crate) fn is_clash(self) -> bool
        ensures { IsTrue result ↔ (self ≡ Clash) }
    {
        match self {
            Meeting::Clash => true,
            Meeting::Free | Meeting::Never => false,
        }
    }
}

// What is known of a stand with each stand up to it.
#[derive(Drop)]
struct Row {
    entries: Vec<Meeting>,
}

impl Model for Row {
    ghost use Rattle.std.specs.Prelude.{List};
    ghost use Rattle.clash_sections.specs.declared.meetings.Meeting.{Meeting as MeetingValue};

    ghost Value = { List MeetingValue };

    ghost view = { λ r. r.entries.items };
}

/// What is known of each two stands, which have the numbers from 0 on: for each stand a row with each stand up to it.
#[derive(Drop)]
pub struct Clashes {
    rows: Vec<Row>,
}

impl Model for Clashes {
    ghost use Rattle.std.specs.Prelude.{List};
    ghost use Rattle.clash_sections.specs.declared.meetings.Meeting.{Meeting as MeetingValue};

    ghost Value = { List (List MeetingValue) };

    ghost view = { λ c. c.rows.items };
}

impl Clashes {
    /// No stand.
    pub fn new(alloc: Global) -> Self
        ensures { result ≡ [] }
    {
        Clashes {
            rows: Vec::new(alloc),
        }
    }

    /// One more stand: what is known of it with stand 0, stand 1 and so on, and last with itself.
    pub fn push(&mut self, row: Vec<Meeting>) -> Result<(), AllocError>
        ensures ok { OnOk result (self.new ≡ self.old ++ row.items ∷ []) }
        ensures err { OnErr result (self.new ≡ self.old) }
    {
        self.rows.push(Row { entries: row })?;
        Ok(())
    }

    /// The number of stands.
    pub fn len(&self) -> usize
        ensures { result ≡ length self.now }
    {
        self.rows.len()
    }

    // What is known of a stand and one that isn't after it.
    fn entry(&self, high: usize, low: usize) -> Meeting
        requires { low ≤ high }
        ensures { result ≡ meeting_of self.now high low }
    {
        match self.rows.get(high) {
            Some(row) => row.entries.get(low).copied().unwrap_or(Meeting::Free),
            None => Meeting::Free,
        }
    }

    /// What is known of two stands.
    pub fn meeting(&self, one: usize, other: usize) -> Meeting
        ensures { result ≡ meeting_of self.now one other }
    {
        if one < other {
            self.entry(other, one)
        } else {
            self.entry(one, other)
        }
    }
}
