// Worked examples, as a user meets them at the command line.
ghost use Rattle.std.specs.Prelude.{◌<◌};

use ats_io::{Gate, NoGate};
use ats_rows::{Faults, Played, play};
use ats_run::code;
use std::alloc::{AllocError, Global};
use std::sync::Wait;
use std::thread::Threads;

pub(crate) mod documents;

use crate::devices::first_path_journal;
use documents::document_called;

// A call in each line: its words; its document, and where it has one its journal, or `spaces` and how many of them;
// its exit code; and what it writes, or, where the code isn't 0, its line on the error sink after `ats: `. The last
// end of a line isn't written in a row, `/` is any other; the name of a document stands for it, and `or` is between
// the answers of a call that may have either.
const CALLS: &str = "\
run: first-path => 0 1 move T0 A B/2 move T0 B C/end moves=2 tables=0
run --rounds 5: first-path => 0 1 move T0 A B/2 move T0 B C/end moves=2 tables=0
check: first-path => 0 accepted tables=1 nodes=3
run: named-twice => 0 1 move T0 A B/2 move T0 B C/end moves=2 tables=0
run: passing-loop => 0 1 move T0 W L1/2 move T1 E L2/3 move T0 L1 E/4 move T1 L2 W/end moves=4 tables=0
check: passing-loop => 0 accepted tables=1 nodes=11
make: passing-loop => 0 loop-made
make --budget 17: first-path => 0 first-path-made
make --budget 17: exits => 0 exits-made
make --budget 17: shares => 0 shares-made
make --budget 17: connected => 0 connected-made
make --budget 17: passing-loop => 0 loop-made
migrate: first-path => 0 first-path-later
migrate: exits-of-no-meaning => 0 exits-of-no-meaning-left-out
migrate: connections-of-no-meaning => 0 connections-of-no-meaning-left-out
migrate: later-certificate => 0 later-certificate-kept
migrate: loose => 0 compact
sim: passing-loop => 0 0 move T0 W L1/0 move T1 E L2/1 move T0 L1 E/1 move T1 L2 W/end moves=4 tables=0 last=1
weave --seed 7 --steps 1000: first-path => 0 1 move T0 A B/2 move T0 B C/end moves=2 tables=0
weave --steps 0: passing-loop => 0 1 move T0 W L1/2 move T1 E L2/3 move T0 L1 E/4 move T1 L2 W/end moves=4 tables=0
derive --most 2: unmarked-corridor => 0 corridor-marked
repair: unmarked-corridor => 0 corridor-marked
repair: long-corridor => 0 long-corridor-repaired
derive --most 3: round-done => 0 round-marked
gen --seed 2 --trains 2:  => 0 generated
drill --seed 2:  => 0 trains=2 moves=4 tables=0 nodes=9
run: corridor => 0 1 move T0 A M/2 move T0 M N/3 move T0 N B/4 move T1 C N/5 move T1 N M/6 move T1 M D/end moves=6 tables=0
sim: corridor => 0 0 move T0 A M/1 move T0 M N/2 move T0 N B/2 move T1 C N/3 move T1 N M/4 move T1 M D/end moves=6 tables=0 last=4
run: never-legal => 0 1 move T0 A M/2 kept 1 over 0 1/3 move T0 M N/4 move T0 N B/5 move T1 C N/6 move T1 N M/7 move T1 M D/end moves=6 tables=0
run: goes-on => 0 1 move T0 A B/2 move T0 B C/3 table 1/4 move T0 C D/end moves=3 tables=1
run: exits => 0 1 move T0 A B/2 move T0 B -/3 move T1 C B/4 move T1 B -/end moves=4 tables=0
run: shares => 0 1 move T0 A M/2 move T0 M B/3 move T1 C N/4 move T1 N D/end moves=4 tables=0
run: connected => 0 1 move T1 C D/2 move T0 A B/end moves=2 tables=0
run: same-point => 0 1 move T0 A B/2 move T0 B A/3 kept 1 differs T0 1/4 move T0 A C/end moves=3 tables=0
run --workers 2: first-path => 0 1 move T0 A B/2 move T0 B C/end moves=2 tables=0
run --workers 2 --rounds 0: passing-loop => 0 1 move T0 W L1/2 move T1 E L2/3 move T0 L1 E/4 move T1 L2 W/end moves=4 tables=0
run --workers 1: exits => 0 1 move T0 A B/2 move T0 B -/3 move T1 C B/4 move T1 B -/end moves=4 tables=0
run --workers 2: exits => 0 1 move T0 A B/2 move T0 B -/3 move T1 C B/4 move T1 B -/end moves=4 tables=0 or 1 move T1 C B/2 move T1 B -/3 move T0 A B/4 move T0 B -/end moves=4 tables=0
run --workers 1: same-point => 0 1 move T0 A B/2 move T0 B A/3 kept 1 differs T0 1/4 move T0 A C/end moves=3 tables=0 or 1 move T0 A B/2 move T0 B A/3 move T0 A C/4 kept 1 differs T0 1/end moves=3 tables=0
drill --seed 2 --workers 4:  => 0 trains=2 moves=4 tables=0 nodes=9
sim: loop-of-threes => 0 0 move T0 W L1/0 move T1 E L2/3 move T0 L1 E/3 move T1 L2 W/end moves=4 tables=0 last=3
verify: passing-loop 1 move T0 W L1/2 move T1 E L2/3 move T0 L1 E/4 move T1 L2 W/end moves=4 tables=0/ => 0 ok moves=4 tables=0
verify: passing-loop 1 move T0 W L1/2 move T1 E L2/ => 9 73 NoEnd
resume: passing-loop 1 move T0 W L1/2 move T1 E L2/ => 0 1 move T0 W L1/2 move T1 E L2/3 move T0 L1 E/4 move T1 L2 W/end moves=4 tables=0
resume: passing-loop 1 move T0 W L1/2 move T1 E L2/3 move T0 L1 E/4 move T1 L2 W/end moves=4 tables=0/ => 0 1 move T0 W L1/2 move T1 E L2/3 move T0 L1 E/4 move T1 L2 W/end moves=4 tables=0
resume --workers 2: same-point 1 move T0 A B/2 move T0 B A/3 kept 1 differs T0 1/ => 0 1 move T0 A B/2 move T0 B A/3 kept 1 differs T0 1/4 move T0 A C/end moves=3 tables=0
resume: never-legal 1 move T0 A M/2 kept 1 over 0 1/ => 0 1 move T0 A M/2 kept 1 over 0 1/3 move T0 M N/4 move T0 N B/5 move T1 C N/6 move T1 N M/7 move T1 M D/end moves=6 tables=0
resume: exits 1 move T0 A B/2 move T0 B -/ => 0 1 move T0 A B/2 move T0 B -/3 move T1 C B/4 move T1 B -/end moves=4 tables=0
resume: goes-on 1 move T0 A B/2 move T0 B C/3 table 1/ => 0 1 move T0 A B/2 move T0 B C/3 table 1/4 move T0 C D/end moves=3 tables=1
verify: same-point 1 move T0 A B/2 move T0 B A/3 kept 1 differs T0 1/4 move T0 A C/end moves=3 tables=0/ => 0 ok moves=3 tables=0
resume: passing-loop 2 move T0 W L1/ => 9 72 Number line=1
: first-path => 1 201 Words
run --workers 17: first-path => 1 201 Words
--help: first-path => 1 201 Words
run:  => 3 101 NotJson
verify: passing-loop => 9 70 NoJournal
run: head-on => 3 41 Short table=0 missing=1
run: one-node-more => 3 42 Over table=0 used=11
repair: connected => 3 210 Connected table=0
check: bad-move => 4 56 MovePoint table=0 index=4 train=0 other=1
check: bad-wait => 4 59 MoveWait table=0 index=2 train=0 connection=0
make --budget 8: passing-loop => 5 205 Spent table=0 nodes=8
make: head-on => 6 206 Stuck table=0 at=0,0
make: unmarked-corridor => 6 206 Stuck table=0 at=1,1
derive --most 2: round => 6 206 Stuck table=0 at=0,0,0
derive --most 3: round => 3 112 StartIllegal 34 Over section=0 count=3 limit=2
derive: ladder => 3 121 Many table=0 count=65
repair: head-on => 3 112 StartIllegal 34 Over section=0 count=2 limit=1
repair --rounds 2: long-corridor => 5 209 Rounds table=0 rounds=2 at=1,1
check: spaces 16777216 => 3 101 NotJson
check: spaces 16777217 => 3 104 TooLong limit=16777216";

/// Devices that don't fail.
pub(crate) const SURE: Faults<'static> = Faults {
    most: 4096,
    reads: &[],
    writes: &[],
};

/// Four texts one after the other, in which `/` ends a line.
pub(crate) fn joined<'a>(
    alloc: Global,
    first: &'a str,
    second: &'a str,
    third: &'a str,
    fourth: &'a str,
) -> Result<Vec<u8>, AllocError> {
    let text = [first, second, third, fourth].concat(alloc)?;
    Ok(text.replace(alloc, "/", "\n")?.into_bytes())
}

/// The words of a command line, parted by a space each.
pub(crate) fn line(alloc: Global, words: &str) -> Result<Vec<String>, AllocError> {
    let mut line = Vec::new(alloc);
    if !words.is_empty() {
        for word in words.split(' ') {
            line.push(String::from_str(alloc, word)?)?;
        }
    }
    Ok(line)
}

// What a call on an input by devices with these faults comes to.
fn call<G: Gate>(
    rt: &(impl Threads + Wait + Sync),
    alloc: Global,
    gate: &G,
    words: &str,
    input: Vec<u8>,
    faults: Faults<'_>,
) -> Result<Played, AllocError>
    requires { 0 < faults.most }
{
    let line = line(alloc, words)?;
    play(rt, alloc, &line, input, faults, gate)
}

// Whether a call wrote this text, if its exit code is 0, or this line to the error sink, and nothing else.
fn wrote(alloc: Global, played: &Played, exit_code: &str, text: &str) -> Result<bool, AllocError> {
    let told = match &played.told {
        Some(told) => told.as_slice(),
        None => b"more than there is room for",
    };
    let (before, said, rest) = if exit_code == "0" {
        ("", played.written.as_slice(), told)
    } else {
        ("ats: ", told, played.written.as_slice())
    };
    let text = document_called(text).unwrap_or(text);
    let answer = joined(alloc, before, text, "/", "")?;
    Ok(said == answer.as_slice() && rest.is_empty())
}

// Whether a call ended with a row's code and one of its answers.
fn has_ended(alloc: Global, played: &Played, answer: &str) -> Result<bool, AllocError> {
    let (exit_code, texts) = answer.split_once(' ').unwrap_or((answer, ""));
    let (first, second) = texts.split_once(" or ").unwrap_or((texts, texts));
    let is_code = exit_code.parse::<u32>() == Ok(u32::from(code(played.status)));
    let is_first = wrote(alloc, played, exit_code, first)?;
    Ok(is_code && (is_first || wrote(alloc, played, exit_code, second)?))
}

/// Whether a call on an input by devices that never fail ends so.
pub(crate) fn is_answered<G: Gate>(
    rt: &(impl Threads + Wait + Sync),
    alloc: Global,
    gate: &G,
    words: &str,
    input: Vec<u8>,
    answer: &str,
) -> Result<bool, AllocError> {
    let played = call(rt, alloc, gate, words, input, SURE)?;
    has_ended(alloc, &played, answer)
}

// The input that a row names.
fn input_called(alloc: Global, input: &str) -> Result<Vec<u8>, AllocError> {
    let (name, journal) = input.split_once(' ').unwrap_or((input, ""));
    if name == "spaces" {
        return vec![in alloc; b' '; journal.parse::<usize>().unwrap_or(0)];
    }
    let document = document_called(name).unwrap_or("");
    let between = if journal.is_empty() { "" } else { "/journal/" };
    joined(alloc, document, between, journal, "")
}

/// Whether a call by devices that never fail ends as its row says.
pub(crate) fn is_right<G: Gate>(
    rt: &(impl Threads + Wait + Sync),
    alloc: Global,
    gate: &G,
    row: &str,
) -> Result<bool, AllocError> {
    let (words, rest) = row.split_once(": ").unwrap_or((row, ""));
    let (input, answer) = rest.split_once(" => ").unwrap_or((rest, ""));
    let input = input_called(alloc, input)?;
    is_answered(rt, alloc, gate, words, input, answer)
}

#[test]
fn calls_end_as_their_rows_say(rt: HostRuntime) {
    for row in CALLS.split('\n') {
        assert!(rt;
            matches!(is_right(&rt, rt.alloc(), &NoGate, row), Ok(true)),
            "{row}"
        );
    }
}

// The calls of a source and of a sink that fail, and how a run of the first path ends then: its exit code, how many
// of its 190 bytes it leaves, and how many of its journal it writes.
#[derive(Clone, Copy)]
struct Stop {
    reads: &'static [u64],
    writes: &'static [u64],
    exit_code: u8,
    left: usize,
    written: usize,
}

const STOPS: [Stop; 6] = [
    Stop {
        reads: &[0],
        writes: &[],
        exit_code: 7,
        left: 190,
        written: 0,
    },
    Stop {
        reads: &[11],
        writes: &[],
        exit_code: 7,
        left: 14,
        written: 0,
    },
    Stop {
        reads: &[],
        writes: &[0],
        exit_code: 8,
        left: 0,
        written: 0,
    },
    Stop {
        reads: &[],
        writes: &[1],
        exit_code: 8,
        left: 0,
        written: 16,
    },
    Stop {
        reads: &[],
        writes: &[3],
        exit_code: 8,
        left: 0,
        written: 48,
    },
    Stop {
        reads: &[],
        writes: &[4],
        exit_code: 0,
        left: 0,
        written: 49,
    },
];

// Whether a run of the first path ends so by devices that take sixteen bytes a call.
fn stops(
    rt: &(impl Threads + Wait + Sync),
    alloc: Global,
    stop: &Stop,
) -> Result<bool, AllocError> {
    let faults = Faults {
        most: 16,
        reads: stop.reads,
        writes: stop.writes,
    };
    let input = input_called(alloc, "first-path")?;
    let played = call(rt, alloc, &NoGate, "run", input, faults)?;
    Ok(
        code(played.status) == stop.exit_code
            && played.left.len() == stop.left
            && played.written.len() == stop.written
            && first_path_journal().starts_with(&played.written),
    )
}

#[test]
fn a_device_that_fails_ends_the_call(rt: HostRuntime) {
    for stop in &STOPS {
        assert!(rt;
            matches!(stops(&rt, rt.alloc(), stop), Ok(true)),
            "{} bytes",
            stop.written
        );
    }
}
