// Journals whose lines have ticks in place of numbers.
ghost use Rattle.std.specs.Prelude.{◌≡◌, ◌<◌, ◌++◌, ◌∷◌, [], IfOk, IfSome, OnOk, codes, decimal, length};
ghost use Rattle.rail_model.specs.Journal.{end_text};
ghost use Rattle.timed_reading.specs.Told as spec;
ghost use Rattle.timed_reading.specs.Told.{IsLineAfterTick, IsOneMore, IsTimedText, last_text, moves_in, tables_in};

use crate::faults::{Fault, LineFault};
use crate::parts::split_once;
use decimal_number::number_of;
use memchr::memmem;
use move_journal::{BadText, Journal, Part, read, read_prefix};
use rail_model::{Line, Names};
use std::alloc::{AllocError, Global};

// More than the lines of any run.
const MOST: usize = 1_000_000_000;

// What an end line begins with, and what comes before its tick.
const END: &[u8] = b"end ";

const LAST: &[u8] = b" last=";

// What the first line of a journal with numbers begins with.
const FIRST: &[u8] = b"1 ";

/// A line and its tick.
#[derive(Clone, Copy)]
pub(crate) struct Timed {
    pub tick: u32,
    pub line: Line,
}

/// The lines of a journal with their ticks.
pub(crate) fn timed_lines(alloc: Global, names: &Names, journal: &[u8]) -> Result<Vec<Timed>, Fault>
    ensures { IfOk result (λ lines. IsTimedText names.now journal.now lines.items) }
{
    let mut lines = Vec::new(alloc);
    let mut rest = journal;
    while !rest.is_empty() {
        let Some((words, later)) = split_once(rest, b'\n') else {
            return Err(Fault::CutOff);
        };
        if words.starts_with(END) {
            check_end(alloc, names, &lines, words)?;
            return whole(lines, later);
        }
        push_line(alloc, names, &mut lines, words)?;
        rest = later;
    }
    Err(Fault::NoEnd)
}

// The lines, if nothing follows their end line.
fn whole(lines: Vec<Timed>, later: &[u8]) -> Result<Vec<Timed>, Fault>
    ensures { IfOk result (λ all. (all ≡ lines) × (later.now ≡ [])) }
{
    if later.is_empty() {
        Ok(lines)
    } else {
        Err(Fault::AfterEnd)
    }
}

// Adds the line that words are. Ticks don't fall.
fn push_line(
    alloc: Global,
    names: &Names,
    lines: &mut Vec<Timed>,
    words: &[u8],
) -> Result<(), Fault>
    ensures { OnOk result (IsOneMore names.now words.now lines.old.items lines.new.items) }
{
    let number = next_number(lines)?;
    let Some((tick, rest)) = ticked(words) else {
        return Err(at_line(number, LineFault::NoTick));
    };
    let before = last_tick(lines);
    if tick < before {
        return Err(at_line(number, LineFault::Falls { tick, before }));
    }
    let Some(line) = line_in(alloc, names, rest)? else {
        return Err(at_line(number, LineFault::Unread));
    };
    lines.push(Timed { tick, line })?;
    Ok(())
}

// The number of the next line, counted from 1.
fn next_number(lines: &[Timed]) -> Result<u64, Fault>
    ensures { OnOk result (length lines.now < 1_000_000_000) }
{
    if lines.len() < MOST {
        Ok(lines.len() as u64 + 1)
    } else {
        Err(Fault::Memory)
    }
}

fn at_line(line: u64, fault: LineFault) -> Fault {
    Fault::Line { line, fault }
}

// The tick of the last line, or 0.
fn last_tick(lines: &[Timed]) -> u32
    ensures { result ≡ spec.last_tick lines.now }
{
    match lines.last() {
        Some(timed) => timed.tick,
        None => 0,
    }
}

// The tick of a line, and what follows it and a space.
fn ticked(words: &[u8]) -> Option<(u32, &[u8])>
    ensures { IfSome result (λ parts. words.now ≡ decimal parts.0 ++ 32 ∷ parts.1.now) }
{
    let (word, rest) = split_once(words, b' ')?;
    let tick = number_of(word)?;
    Some((tick, rest))
}

// The line that words are, if they are one.
fn line_in(alloc: Global, names: &Names, words: &[u8]) -> Result<Option<Line>, AllocError>
    ensures { IfOk result (λ found. IfSome found (IsLineAfterTick names.now (32 ∷ words.now))) }
{
    let mut text = Vec::new(alloc);
    text.extend_from_slice(FIRST)?;
    text.extend_from_slice(words)?;
    text.push(b'\n')?;
    match read_prefix(alloc, names, &text) {
        Ok(Part::Open(journal)) => Ok(only_line(journal.lines())),
        Ok(Part::Whole(_)) => Ok(None),
        Err(BadText::Memory) => Err(AllocError),
        Err(_) => Ok(None),
    }
}

fn only_line(lines: &[Line]) -> Option<Line>
    ensures { IfSome result (λ line. lines.now ≡ line ∷ []) }
{
    match lines {
        [line] => Some(*line),
        _ => None,
    }
}

// Looks whether an end line has the counts of the lines, and the tick of the last one.
fn check_end(alloc: Global, names: &Names, lines: &[Timed], words: &[u8]) -> Result<(), Fault>
    ensures { OnOk result (words.now ++ codes "\n" ≡ last_text lines.now) }
{
    let number = next_number(lines)?;
    let Some((front, last)) = ended(words) else {
        return Err(at_line(number, LineFault::NoLast));
    };
    let tick = last_tick(lines);
    if last != tick {
        return Err(at_line(number, LineFault::Last { last, tick }));
    }
    let Some(said) = counts_in(alloc, names, front)? else {
        return Err(at_line(number, LineFault::Unread));
    };
    check_counts(lines, said)
}

// What comes before the last tick of an end line, and that tick.
fn ended(words: &[u8]) -> Option<(&[u8], u32)>
    ensures { IfSome result (λ parts. words.now ≡ parts.0.now ++ codes " last=" ++ decimal parts.1) }
{
    let place = memmem::find(words, LAST)?;
    let last = number_of(&words[place + LAST.len()..])?;
    Some((&words[..place], last))
}

// The two counts that an end line says.
#[derive(Clone, Copy)]
struct Counts {
    moves: u32,
    tables: u32,
}

// The counts that words say, if they are an end line without a tick.
fn counts_in(alloc: Global, names: &Names, words: &[u8]) -> Result<Option<Counts>, AllocError>
    ensures { IfOk result (λ found. IfSome found (λ said. words.now ++ codes "\n" ≡ end_text said.moves said.tables)) }
{
    let mut text = Vec::new(alloc);
    text.extend_from_slice(words)?;
    text.push(b'\n')?;
    match read(alloc, names, &text) {
        Ok(journal) => Ok(counts_of(&journal)),
        Err(BadText::Memory) => Err(AllocError),
        Err(_) => Ok(None),
    }
}

// The counts of a journal without lines.
fn counts_of(journal: &Journal) -> Option<Counts>
    ensures { IfSome result (λ said. (journal.now.lines ≡ []) × (said.moves ≡ journal.now.moves) × (said.tables ≡ journal.now.tables)) }
{
    if journal.lines().is_empty() {
        Some(Counts {
            moves: journal.moves(),
            tables: journal.tables(),
        })
    } else {
        None
    }
}

// Looks whether the counts are those of the lines.
fn check_counts(lines: &[Timed], said: Counts) -> Result<(), Fault>
    ensures { OnOk result ((said.moves ≡ moves_in lines.now) × (said.tables ≡ tables_in lines.now)) }
{
    let moves = moves_of(lines) as u64;
    let tables = tables_of(lines) as u64;
    if moves != u64::from(said.moves) {
        let said = said.moves;
        return Err(Fault::Moves { said, moves });
    }
    if tables != u64::from(said.tables) {
        let said = said.tables;
        return Err(Fault::Tables { said, tables });
    }
    Ok(())
}

// How many of the lines are moves.
fn moves_of(lines: &[Timed]) -> usize
    ensures { result ≡ moves_in lines.now }
{
    lines
        .iter()
        .filter(|timed| matches!(timed.line, Line::Move { .. }))
        .count()
}

// How many of the lines are tables that took over.
fn tables_of(lines: &[Timed]) -> usize
    ensures { result ≡ tables_in lines.now }
{
    lines
        .iter()
        .filter(|timed| matches!(timed.line, Line::Table { .. }))
        .count()
}
