// Scenes. Each line is of one pass: it makes a call or goes on with one, until it comes to a moment or is answered.
use ats_io::{Gate, Moment};
use std::sync::atomic::{AtomicBool, AtomicUsize, Ordering};
use std::thread::yield_now;
use zone_machine::CONTROL;

// A line of a scene: the pass, a train's by its number or the control's; its call, or nothing if none begins here; and the moment or the
// answer with which the line ends, and whether no other moment may come before.
#[derive(Clone, Copy)]
struct Line<'a> {
    who: u32,
    call: &'a str,
    until: &'a str,
    is_next: bool,
}

// The line that has this text.
fn line_of(text: &str) -> Option<Line<'_>> {
    let (head, until) = text.split_once(": ")?;
    let (who, call) = head.split_once(' ').unwrap_or((head, ""));
    let next = until.strip_prefix("next ");
    Some(Line {
        who: who.parse::<u32>().unwrap_or(CONTROL),
        call,
        until: next.unwrap_or(until),
        is_next: next.is_some(),
    })
}

// So often a pass looks whether it is its turn, before it gives the scene up.
const MOST_TURNS: u32 = 1_000_000_000;

/// A scene that is played: the pass of the line that has come goes on, and each other waits at its next moment. A scene that is given up, or
/// of which all lines were played, holds nobody.
#[derive(Drop)]
pub(crate) struct Scene<'a> {
    pub(crate) text: &'a str,
    played: AtomicUsize,
    is_given_up: AtomicBool,
}

impl<'a> Scene<'a> {
    /// A scene of these lines that begins.
    pub(crate) fn new(text: &'a str) -> Self {
        Scene {
            text,
            played: AtomicUsize::new(0),
            is_given_up: AtomicBool::new(false),
        }
    }

    /// The first line that wasn't played.
    pub(crate) fn unplayed(&self) -> Option<&str> {
        self.text
            .split('\n')
            .nth(self.played.load(Ordering::SeqCst))
    }

    /// No further line is played.
    pub(crate) fn give_up(&self) {
        self.is_given_up.store(true, Ordering::SeqCst);
    }

    // The line that has come, until the scene is over.
    fn line(&self) -> Option<Line<'_>> {
        if self.is_given_up.load(Ordering::SeqCst) {
            return None;
        }
        line_of(self.unplayed()?)
    }

    /// The pass waits until it is its turn.
    pub(crate) fn wait(&self, who: u32) {
        for _turn in 0..MOST_TURNS {
            match self.line() {
                Some(line) if line.who != who => yield_now(),
                _ => return,
            }
        }
        self.give_up();
    }

    /// The call that a line begins, if it is one of this pass. It then is the pass's turn.
    pub(crate) fn turn<'b>(&self, who: u32, text: &'b str) -> &'b str {
        match line_of(text) {
            Some(line) if line.who == who && !line.call.is_empty() => {
                self.wait(who);
                line.call
            }
            _ => "",
        }
    }

    // Whether the line that has come ends so. It then is played.
    fn is_end(&self, who: u32, end: &str) -> bool {
        match self.line() {
            Some(line) if line.who == who && line.until == end => {
                self.played.fetch_add(1, Ordering::SeqCst);
                true
            }
            _ => false,
        }
    }

    // Whether the line that has come wants this pass's next moment.
    fn wants_next(&self, who: u32) -> bool {
        match self.line() {
            Some(line) => line.who == who && line.is_next,
            None => false,
        }
    }

    /// The pass was answered this. With another answer than the line's, the scene is given up.
    pub(crate) fn answer(&self, who: u32, answer: &str) {
        if !self.is_end(who, answer) {
            self.give_up();
        }
    }
}

// What a moment is called.
fn name_of(moment: Moment) -> &'static str {
    match moment {
        Moment::Glanced => "Glanced",
        Moment::Taken => "Taken",
        Moment::Read => "Read",
        Moment::Appended => "Appended",
        Moment::Paid => "Paid",
        Moment::Released => "Released",
    }
}

impl Gate for Scene<'_> {
    fn at(&self, who: u32, moment: Moment) {
        self.wait(who);
        if self.is_end(who, name_of(moment)) {
            self.wait(who);
        } else if self.wants_next(who) {
            self.give_up();
        }
    }
}
