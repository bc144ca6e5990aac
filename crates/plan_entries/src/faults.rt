// What is wrong with a plan.
ghost use Rattle.std.specs.Prelude.{◌≡◌, ◌<◌, false, true, not, length, IfOk, OnOk};
ghost use Rattle.std.specs.List.Sorted.{IsNonDecreasingBy};
ghost use Rattle.plan_entries.specs.declared.faults.Fault.{Fault};
ghost use Rattle.plan_entries.specs.Told.{has_fault};

use crate::source::Source;
use crate::words::Words;
use crate::{Entry, Origins, Part};
use std::alloc::{AllocError, Global};

// How many faults are reported.
const MOST: usize = 100;

/// Something that is wrong with a plan: a line of its text, counted from 1, and what is wrong there.
#[derive(Drop)]
pub struct Fault {
    pub line: u32,
    pub words: String,
}

/// The faults of a plan that have been found so far.
#[derive(Drop)]
pub struct Faults<'a> {
    alloc: Global,
    source: Source<'a>,
    list: Vec<Fault>,
    more: bool,
    // Whether there was no memory for a fault.
    lost: bool,
}

// Puts faults in the order of their lines.
fn sort_by_lines(list: &mut Vec<Fault>) -> Result<(), AllocError>
    ensures in_order { OnOk result (IsNonDecreasingBy (λ (f : Fault). f.line) list.new.items) }
    ensures len { length list.new.items ≡ length list.old.items }
{
    list.sort_by_key(|fault| fault.line)?;
    Ok(())
}

// The last of the lines of faults; 1, if there are none.
fn last_line(list: &[Fault]) -> u32 {
    let mut last = 1u32;
    for fault in list {
        last = last.max(fault.line);
    }
    last
}

// Adds that there are more faults than these.
fn push_more(alloc: Global, list: &mut Vec<Fault>) -> Result<(), AllocError>
    ensures { IfOk result (λ _. 0 < length list.new.items) }
{
    let line = last_line(list.as_slice());
    let words = String::from_str(alloc, "there are more faults than these")?;
    list.push(Fault { line, words })?;
    Ok(())
}

// Whether two texts are the same but for their digits.
fn are_alike(one: &str, other: &str) -> bool {
    let mut ones = one.chars().filter(|letter| !letter.is_ascii_digit());
    let mut others = other.chars().filter(|letter| !letter.is_ascii_digit());
    for _ in 0..one.len() {
        let next = ones.next();
        if next != others.next() {
            return false;
        }
        if next.is_none() {
            return true;
        }
    }
    others.next().is_none()
}

impl Fault {
    // Whether it is in this line and has these words; but for digits, if it is of a further train of its entry.
    fn is(&self, line: u32, words: &str, of_copy: bool) -> bool {
        let own = self.words.as_str();
        self.line == line && (own == words || of_copy && are_alike(own, words))
    }
}

impl<'a> Faults<'a> {
    /// No faults, of a text.
    pub fn new(alloc: Global, text: &'a str) -> Result<Faults<'a>, AllocError>
        ensures { IfOk result (λ f. has_fault f ≡ false) }
    {
        Ok(Faults {
            alloc,
            source: Source::new(alloc, text)?,
            list: Vec::new(alloc),
            more: false,
            lost: false,
        })
    }

    /// The allocator.
    pub fn alloc(&self) -> Global {
        self.alloc
    }

    /// Whether no fault has been found.
    pub fn is_empty(&self) -> bool
        ensures { result ≡ not (has_fault self.now) }
    {
        self.list.is_empty() && !self.lost
    }

    /// There was no memory for a fault.
    pub fn lose(&mut self)
        ensures { has_fault self.new ≡ true }
    {
        self.lost = true;
    }

    /// From now on, the trains of the plan stand for these entries of its text.
    pub fn set_origins(&mut self, origins: Origins)
        ensures { has_fault self.new ≡ has_fault self.old }
    {
        self.source.set_origins(origins);
    }

    // Whether a fault is in the list already.
    fn has(&self, line: u32, words: &str, of_copy: bool) -> bool
        ensures { result ≡ true → 0 < length self.now.list.items }
    {
        for fault in &self.list {
            if fault.is(line, words, of_copy) {
                return true;
            }
        }
        false
    }

    // The words of a fault.
    fn words(&self, at: &Entry, form: &str, parts: &[Part]) -> Result<String, AllocError> {
        let mut words = Words::new(self.alloc);
        words.push_entry(at);
        words.push_form(form, parts);
        words.whole()
    }

    // Adds a fault, unless it is there.
    fn add(&mut self, at: &Entry, form: &str, parts: &[Part]) -> Result<(), AllocError>
        ensures { IfOk result (λ _. has_fault self.new ≡ true) }
    {
        let line = self.source.line_of(at);
        let words = self.words(at, form, parts)?;
        if !self.has(line, words.as_str(), self.source.is_copy(at)) {
            self.list.push(Fault { line, words })?;
        }
        Ok(())
    }

    /// Adds a fault of an entry, or of its key and name: a text with a part in place of each `{}`. A fault is in the list once,
    /// and those of the trains of one entry are, if they differ in digits alone.
    pub fn tell(&mut self, at: &Entry, form: &str, parts: &[Part])
        ensures { has_fault self.new ≡ true }
    {
        if MOST <= self.list.len() {
            self.more = true;
        } else if self.add(at, form, parts).is_err() {
            self.lost = true;
        }
    }

    // Puts the faults in the order of their lines. Where there are more of them than are reported, one in the last of the lines says so.
    fn close(&mut self) -> Result<(), AllocError>
        ensures told { IfOk result (λ _. has_fault self.old ≡ true → 0 < length self.new.list.items) }
        ensures in_order { IfOk result (λ _. IsNonDecreasingBy (λ (f : Fault). f.line) self.new.list.items) }
    {
        if self.lost {
            return Err(AllocError);
        }
        if self.more {
            push_more(self.alloc, &mut self.list)?;
        }
        sort_by_lines(&mut self.list)
    }

    /// The faults in the order of their lines.
    ///
    /// # Errors
    ///
    /// Out of memory, also where it was for a fault.
    pub fn into_list(self) -> Result<Vec<Fault>, AllocError>
        ensures told { IfOk result (λ list. has_fault self.entry ≡ true → 0 < length list.items) }
        ensures in_order { IfOk result (λ list. IsNonDecreasingBy (λ (f : Fault). f.line) list.items) }
    {
        let mut faults = self;
        faults.close()?;
        Ok(faults.list)
    }
}
