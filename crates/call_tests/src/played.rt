// Scenes, and what each comes to.
ghost use Rattle.std.specs.Prelude.{◌≡◌};
ghost use Rattle.document_json.specs.Doc.{offers_of};

use crate::certificates::checked;
use crate::stages::{Stage, finished, play};
use cert_checker::Accepted;
use document_json::Frame;
use rail_model::PlainState;
use std::alloc::Global;
use std::sync::Wait;
use std::thread::Threads;

// The first line of a scene has its name, its document and how many entries each pass may make, and then `resumed` if its yard goes on from a
// journal in which T0 has made a move. Its last line says at which places the trains then are, and by which lines of the journal: as they leave
// the yard, or, after `finished`, once one thread has brought them to their ends.

// Blocks of steps.
const OF_BLOCKS: &str = "\
a block has as many steps as remain: first-path 99
0 try_block 4: Granted { ticket: 0, steps: 2 }
0 try_block 4: Arrived { ticket: 2 }
=> [2] [Move { train: 0, from: 0, to: Some(1) }, Move { train: 0, from: 1, to: Some(2) }]

a block is not whole where its second step is refused: passing-loop 99
0 request_block 2: Taken
1 try_block 2: Busy { zone: 0, holder: 0 }
0: NotWhole { ticket: 0, step: 1, ask: Occupied { by: 1 } }
0 try_request: Granted { ticket: 1 }
=> [1, 0] [Move { train: 0, from: 0, to: Some(1) }]

a block is granted whole before the next: corridor 99
0 request_block 3: Appended
1 try_block 2: Busy { zone: 0, holder: 0 }
0: Granted { ticket: 0, steps: 3 }
1 try_block 2: Granted { ticket: 3, steps: 2 }
=> [3, 2] [Move { train: 0, from: 0, to: Some(1) }, Move { train: 0, from: 1, to: Some(2) }, Move { train: 0, from: 2, to: Some(3) }, Move { train: 1, from: 4, to: Some(2) }, Move { train: 1, from: 2, to: Some(1) }]

a block has as many steps as there are entries: first-path 1
0 try_block 4: Granted { ticket: 0, steps: 1 }
0 try_block 4: Spent
=> [1] [Move { train: 0, from: 0, to: Some(1) }]";

// Zones that are held while a pass stands at a moment of its request. Of the three tracks, T0 needs zones 0 and 1, T1 needs 2 and 3, and T2
// needs 1 alone.
const OF_ZONES: &str = "\
zones are not one lock: three-tracks 99
0 request: Taken
1 request: Granted { ticket: 0 }
2 try_request: Busy { zone: 1, holder: 0 }
0: Granted { ticket: 1 }
2 try_request: Granted { ticket: 2 }
2 try_request: Arrived { ticket: 3 }
=> [1, 1, 1] [Move { train: 1, from: 2, to: Some(3) }, Move { train: 0, from: 0, to: Some(1) }, Move { train: 2, from: 4, to: Some(5) }]

one zone is one lock: one-zone 99
0 request: Taken
1 try_request: Busy { zone: 0, holder: 0 }
0: Granted { ticket: 0 }
1 try_request: Granted { ticket: 1 }
=> [1, 1] [Move { train: 0, from: 0, to: Some(1) }, Move { train: 1, from: 2, to: Some(3) }]

moments come in their order: three-tracks 99
0 request: Glanced
0: Taken
0: Read
0: Appended
0: Paid
0: Released
0: Granted { ticket: 0 }
0 request: Glanced
0: Taken
0: Read
0: Appended
0: next Released
0: Arrived { ticket: 1 }
=> [1, 0, 0] [Move { train: 0, from: 0, to: Some(1) }]

others are answered while T0 has glanced: three-tracks 99
0 request: Glanced
1 request: Granted { ticket: 0 }
2 try_request: Granted { ticket: 1 }
0: Granted { ticket: 2 }
=> [1, 1, 1] [Move { train: 1, from: 2, to: Some(3) }, Move { train: 2, from: 4, to: Some(5) }, Move { train: 0, from: 0, to: Some(1) }]

others are answered while T0 has taken its zones: three-tracks 99
0 request: Taken
1 request: Granted { ticket: 0 }
2 try_request: Busy { zone: 1, holder: 0 }
0: Granted { ticket: 1 }
=> [1, 1, 0] [Move { train: 1, from: 2, to: Some(3) }, Move { train: 0, from: 0, to: Some(1) }]

others are answered while T0 has read its cells: three-tracks 99
0 request: Read
1 request: Granted { ticket: 0 }
2 try_request: Busy { zone: 1, holder: 0 }
0: Granted { ticket: 1 }
=> [1, 1, 0] [Move { train: 1, from: 2, to: Some(3) }, Move { train: 0, from: 0, to: Some(1) }]

others are answered while T0 has appended its entry: three-tracks 99
0 request: Appended
1 request: Granted { ticket: 1 }
2 try_request: Busy { zone: 1, holder: 0 }
0: Granted { ticket: 0 }
=> [1, 1, 0] [Move { train: 0, from: 0, to: Some(1) }, Move { train: 1, from: 2, to: Some(3) }]

others are answered while T0 has paid what it owes: three-tracks 99
0 request: Paid
1 request: Granted { ticket: 1 }
2 try_request: Busy { zone: 1, holder: 0 }
0: Granted { ticket: 0 }
=> [1, 1, 0] [Move { train: 0, from: 0, to: Some(1) }, Move { train: 1, from: 2, to: Some(3) }]

others are answered while T0 has given its zones back: three-tracks 99
0 request: Released
1 request: Granted { ticket: 1 }
2 try_request: Granted { ticket: 2 }
0: Granted { ticket: 0 }
=> [1, 1, 1] [Move { train: 0, from: 0, to: Some(1) }, Move { train: 1, from: 2, to: Some(3) }, Move { train: 2, from: 4, to: Some(5) }]";

// The control's calls, beside a request or alone.
const OF_EXCHANGES: &str = "\
a request begins anew under another table: turns-2 99
0 request: Glanced
control exchange: Exchanged { ticket: 0 }
0: Taken
0: Released
0: Glanced
0: Granted { ticket: 1 }
=> [1] [Table { table: 1 }, Move { train: 0, from: 0, to: Some(2) }]

a request begins anew fifteen times: turns-16 99
0 request: Glanced
control exchange: Exchanged { ticket: 0 }
0: Glanced
control exchange: Exchanged { ticket: 1 }
0: Glanced
control exchange: Exchanged { ticket: 2 }
0: Glanced
control exchange: Exchanged { ticket: 3 }
0: Glanced
control exchange: Exchanged { ticket: 4 }
0: Glanced
control exchange: Exchanged { ticket: 5 }
0: Glanced
control exchange: Exchanged { ticket: 6 }
0: Glanced
control exchange: Exchanged { ticket: 7 }
0: Glanced
control exchange: Exchanged { ticket: 8 }
0: Glanced
control exchange: Exchanged { ticket: 9 }
0: Glanced
control exchange: Exchanged { ticket: 10 }
0: Glanced
control exchange: Exchanged { ticket: 11 }
0: Glanced
control exchange: Exchanged { ticket: 12 }
0: Glanced
control exchange: Exchanged { ticket: 13 }
0: Glanced
control exchange: Exchanged { ticket: 14 }
0: Glanced
0: Granted { ticket: 15 }
control exchange: NoMore
=> [1] [Table { table: 1 }, Table { table: 2 }, Table { table: 3 }, Table { table: 4 }, Table { table: 5 }, Table { table: 6 }, Table { table: 7 }, Table { table: 8 }, Table { table: 9 }, Table { table: 10 }, Table { table: 11 }, Table { table: 12 }, Table { table: 13 }, Table { table: 14 }, Table { table: 15 }, Move { train: 0, from: 0, to: Some(2) }]

an exchange passes its moments: turns-2 99
control exchange: Taken
0 try_request: Busy { zone: 0, holder: 32 }
control: Read
control: Appended
control: Paid
0 try_request: Busy { zone: 0, holder: 32 }
control: Released
0 try_request: Granted { ticket: 1 }
control: Exchanged { ticket: 0 }
=> [1] [Table { table: 1 }, Move { train: 0, from: 0, to: Some(2) }]

nothing is paid for a table that isn't due: goes-on 99
control exchange: next Taken
control: next Read
control: next Appended
control: next Released
control: Early { ticket: 0, moves: 0 }
=> [0] []

a table is early and then kept out: never-legal 99
control exchange: Early { ticket: 0, moves: 0 }
0 request: Granted { ticket: 1 }
control exchange: Over { ticket: 2, section: 0, count: 1 }
control exchange: NoMore
=> [1, 0] [Move { train: 0, from: 0, to: Some(1) }, KeptOver { table: 1, section: 0, count: 1 }]

the control's entries are spent: goes-on 2
control exchange: Early { ticket: 0, moves: 0 }
control exchange: Early { ticket: 1, moves: 0 }
control exchange: Spent
=> [0] []

a driver's entries are spent: first-path 1
0 request: Granted { ticket: 0 }
0 request: Spent
=> [1] [Move { train: 0, from: 0, to: Some(1) }]";

// Yards that are closed before their trains have arrived, and yards that go on from a state.
const OF_CLOSINGS: &str = "\
trains leave before they arrive: passing-loop 99
1 request: Granted { ticket: 0 }
=> finished [2, 2] [Move { train: 1, from: 2, to: Some(3) }, Move { train: 0, from: 0, to: Some(1) }, Move { train: 1, from: 3, to: Some(0) }, Move { train: 0, from: 1, to: Some(2) }]

a yard goes on from a journal: passing-loop 99 resumed
0 request: Taken
1 try_request: Busy { zone: 0, holder: 0 }
0: Occupied { ticket: 0, by: 1 }
1 request: Granted { ticket: 1 }
0 request: Granted { ticket: 2 }
1 request: Granted { ticket: 3 }
1 request: Arrived { ticket: 4 }
=> [2, 2] [Move { train: 0, from: 0, to: Some(1) }, Move { train: 1, from: 2, to: Some(3) }, Move { train: 0, from: 1, to: Some(2) }, Move { train: 1, from: 3, to: Some(0) }]";

// A scene: its document; how its yard opens; its lines; and its end.
#[derive(Clone, Copy)]
struct Row<'a> {
    document: &'a str,
    stage: Stage<'a>,
    end: &'a str,
}

fn row_of(text: &str) -> Option<Row<'_>> {
    let (head, rest) = text.split_once('\n')?;
    let (_name, place) = head.split_once(": ")?;
    let (document, opening) = place.split_once(' ')?;
    let (lines, end) = rest.split_once("\n=> ")?;
    let entries = opening.strip_suffix(" resumed");
    Some(Row {
        document,
        stage: Stage {
            entries: entries.unwrap_or(opening).parse::<u32>().ok()?,
            is_resumed: entries.is_some(),
            lines,
        },
        end,
    })
}

// Whether these are the places and the lines of a state.
fn is_told(alloc: Global, state: &PlainState, end: &str) -> bool {
    let places = state.positions().as_slice();
    let lines = state.lines();
    match format!(in alloc; "{places:?} {lines:?}") {
        Ok(text) => text.as_str() == end,
        Err(_) => false,
    }
}

// Whether a scene over a document's tables is played to its end and comes to what its last line says.
fn is_ended(
    rt: &(impl Threads + Wait + Sync),
    alloc: Global,
    doc: &Frame,
    tables: &[Accepted],
    row: Row<'_>,
) -> Option<bool>
    requires { tables.now ≡ offers_of doc.now }
{
    let state = play(rt, alloc, doc, tables, row.stage)?;
    match row.end.strip_prefix("finished ") {
        Some(end) => Some(is_told(alloc, &finished(tables, state)?, end)),
        None => Some(is_told(alloc, &state, row.end)),
    }
}

// The same of the scene that has this text.
fn is_played(rt: &(impl Threads + Wait + Sync), alloc: Global, text: &str) -> bool {
    let Some(row) = row_of(text) else {
        return false;
    };
    match checked(alloc, row.document) {
        Some(checked) => {
            is_ended(rt, alloc, &checked.doc, &checked.tables, row).unwrap_or(false)
        }
        None => false,
    }
}

#[test]
fn scenes_come_to_what_their_last_lines_say(rt: HostRuntime) {
    for scenes in [OF_BLOCKS, OF_ZONES, OF_EXCHANGES, OF_CLOSINGS] {
        for text in scenes.split("\n\n") {
            assert!(rt; is_played(&rt, rt.alloc(), text), "{text}");
        }
    }
}
