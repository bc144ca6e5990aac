// Steps of a core that aren't allowed, each with the first cause.
ghost use Rattle.std.specs.Prelude.{◌≡◌};
ghost use Rattle.document_json.specs.Doc.{offers_of};

use crate::certificates::checked;
use cert_checker::Accepted;
use document_json::Frame;
use move_claim::Cell;
use std::alloc::Global;
use zone_machine::{Core, Step};

// In each line an actor, a driver or 32, which is the control; its steps; and the place of the one that isn't
// allowed, and why. The core has room for one entry. Point 0 and the section are in zone 0, points 1, 2 and 3 in
// zones 1, 2 and 3. Driver 0 goes by points 0, 1 and 3, driver 1 by points 3, 2 and 0.
const REFUSED: &str = "\
0: Glance => 0 Actor { actor: 0 }
0: Board, Board => 1 Actor { actor: 0 }
0: Board, Leave, Board => 2 Actor { actor: 0 }
0: Board, Leave, Glance => 2 Actor { actor: 0 }
2: Board => 0 Actor { actor: 2 }
33: Board => 0 Actor { actor: 33 }
0: Board, Take 1, Take 2, Glance => 3 Held { zone: 1 }
0: Board, Take 1, Take 2, Leave => 3 Held { zone: 1 }
0: Board, Take 4 => 1 Zone { zone: 4 }
0: Board, Take 1, Take 0 => 2 Order { zone: 0 }
0: Board, Take 1, Take 1 => 2 Order { zone: 1 }
0: Board, Read Table => 1 Cell { cell: Table }
0: Board, Take 0, Read Point 1 => 2 Cell { cell: Point { point: 1 } }
0: Board, Take 0, Read Point 4 => 2 Cell { cell: Point { point: 4 } }
0: Board, Take 1, Read Count 0 => 2 Cell { cell: Count { section: 0 } }
0: Board, Take 0, Take 1, Take 2, Read Position 0 => 4 Cell { cell: Position { train: 0 } }
0: Board, Take 0, Take 1, Take 2, Take 3, Read Count 1 => 5 Cell { cell: Count { section: 1 } }
0: Board, Take 0, Take 1, Take 2, Take 3, Read Position 2 => 5 Cell { cell: Position { train: 2 } }
0: Board, Take 0, Append => 2 Unknown { cell: Table }
0: Board, Take 0, Read Table, Append => 3 Zone { zone: 1 }
0: Board, Take 1, Read Table, Append => 3 Zone { zone: 0 }
0: Board, Take 0, Read Table, Take 1, Append => 4 Unknown { cell: Point { point: 1 } }
0: Board, Take 0, Read Table, Take 1, Read Point 1, Append => 5 Unknown { cell: Count { section: 0 } }
0: Board, Block 0 => 1 Steps { steps: 0 }
0: Board, Block 5 => 1 Steps { steps: 5 }
0: Board, Take 0, Block 2 => 2 Unknown { cell: Table }
0: Board, Take 0, Take 1, Read Table, Block 2 => 4 Zone { zone: 3 }
0: Board, Take 0, Take 1, Take 3, Read Table, Read Point 1, Block 2 => 6 Unknown { cell: Point { point: 3 } }
0: Board, Take 0, Take 1, Take 3, Read Table, Read Point 1, Read Point 3, Read Count 0, Block 2 => 8 Full { most: 1 }
0: Board, Take 0, Pay Point 0 => 2 Cell { cell: Point { point: 0 } }
0: Board, Take 0, Pay Point 4 => 2 Cell { cell: Point { point: 4 } }
0: Board, Release 4 => 1 Zone { zone: 4 }
0: Board, Take 1, Release 0 => 2 Zone { zone: 0 }
0: Board, Take 0, Take 1, Release 1, Take 2 => 4 Closing
0: Board, Take 0, Take 1, Release 1, Take 4 => 4 Closing
0: Board, Take 0, Take 1, Release 1, Read Table => 4 Closing
0: Board, Take 0, Take 1, Release 1, Append => 4 Closing
0: Board, Take 0, Take 1, Release 1, Block 2 => 4 Closing
0: Board, Take 0, Read Table, Take 1, Read Point 1, Read Count 0, Append, Append => 7 Closing
0: Board, Take 0, Read Table, Take 1, Read Point 1, Read Count 0, Append, Release 0 => 7 Owed { cell: Point { point: 0 } }
0: Board, Take 0, Read Table, Take 1, Read Point 1, Read Count 0, Append, Pay Point 0, Release 1 => 8 Owed { cell: Point { point: 1 } }
0: Board, Take 0, Read Table, Take 1, Read Point 1, Read Count 0, Append, Pay Point 0, Pay Point 0 => 8 Cell { cell: Point { point: 0 } }
0: Board, Take 0, Take 1, Read Table, Read Point 1, Read Count 0, Append, Pay Point 0, Pay Point 1, Pay Position 0, Pay Count 0, Release 0, Release 1, Glance, Take 0, Take 1, Take 3, Read Table, Read Point 3, Read Count 0, Append => 20 Full { most: 1 }
1: Board, Take 0, Take 2, Take 3, Read Table, Read Point 2, Read Count 0, Append, Release 4 => 8 Zone { zone: 4 }
32: Board, Block 1 => 1 Actor { actor: 32 }
32: Board, Take 0, Append => 2 Unknown { cell: Table }
32: Board, Take 0, Take 1, Take 3, Read Table, Append => 5 Zone { zone: 2 }
32: Board, Take 0, Take 1, Take 2, Take 3, Read Table, Append => 6 Unknown { cell: Position { train: 0 } }
32: Board, Take 0, Take 1, Take 2, Take 3, Read Table, Read Position 0, Read Position 1, Append => 8 NoMore
32: Board, Take 0, Release 0, Leave, Board => 4 Actor { actor: 32 }";

// The same in a core of a train with two tables, the second of which isn't due when the control tries it for the
// first time.
const SECOND_TRY: &str =
    "32: Board, Take 0, Read Table, Read Position 0, Append, Release 0, Take 0, Read Table, Read Position 0, Append => 9 Full { most: 1 }";

// The cell of this name.
fn cell_called(text: &str) -> Option<Cell> {
    let (kind, number) = text.split_once(' ').unwrap_or((text, "0"));
    let number = number.parse::<u32>().ok()?;
    match kind {
        "Point" => Some(Cell::Point { point: number }),
        "Count" => Some(Cell::Count { section: number }),
        "Position" => Some(Cell::Position { train: number }),
        "Table" => Some(Cell::Table),
        _ => None,
    }
}

// The step of this name.
fn step_called(text: &str) -> Option<Step> {
    let (kind, rest) = text.split_once(' ').unwrap_or((text, ""));
    let number = rest.parse::<u32>().unwrap_or(0);
    match kind {
        "Board" => Some(Step::Board),
        "Glance" => Some(Step::Glance),
        "Append" => Some(Step::Append),
        "Leave" => Some(Step::Leave),
        "Read" => Some(Step::Read {
            cell: cell_called(rest)?,
        }),
        "Pay" => Some(Step::Pay {
            cell: cell_called(rest)?,
        }),
        "Take" => Some(Step::Take { zone: number }),
        "Release" => Some(Step::Release { zone: number }),
        "Block" => Some(Step::Block { steps: number }),
        _ => None,
    }
}

// The steps of these names, all of one actor.
fn steps_called(alloc: Global, actor: u32, names: &str) -> Option<Vec<(u32, Step)>> {
    let mut steps = Vec::new(alloc);
    for name in names.split(", ") {
        let Some(step) = step_called(name) else {
            return None;
        };
        let Ok(()) = steps.push((actor, step)) else {
            return None;
        };
    }
    Some(steps)
}

// Whether one of some steps in a core isn't allowed, for this cause.
fn is_cause(
    alloc: Global,
    core: &mut Core<'_, Accepted>,
    steps: &[(u32, Step)],
    told: &str,
) -> bool {
    match core.weave(steps) {
        Ok(()) => false,
        Err((place, cause)) => match format!(in alloc; "{place} {cause:?}") {
            Ok(text) => text.as_str() == told,
            Err(_) => false,
        },
    }
}

// The same of a core of a document that has room for one entry.
fn is_cause_at(
    alloc: Global,
    doc: &Frame,
    tables: &[Accepted],
    steps: &[(u32, Step)],
    told: &str,
) -> bool
    requires { tables.now ≡ offers_of doc.now }
{
    match Core::new(alloc, doc.layout(), tables, doc.start(), 1) {
        Ok(mut core) => is_cause(alloc, &mut core, steps, told),
        Err(_) => false,
    }
}

// Whether a list of steps ends in a core of the document of this name as its row says.
fn is_refused(alloc: Global, name: &str, row: &str) -> bool {
    let (actor, rest) = row.split_once(": ").unwrap_or((row, ""));
    let (names, told) = rest.split_once(" => ").unwrap_or((rest, ""));
    let Some(steps) = steps_called(alloc, actor.parse::<u32>().unwrap_or(0), names) else {
        return false;
    };
    match checked(alloc, name) {
        Some(checked) => is_cause_at(alloc, &checked.doc, &checked.tables, &steps, told),
        None => false,
    }
}

#[test]
fn a_list_of_steps_ends_where_one_is_refused(rt: HostRuntime) {
    for (name, rows) in [("generated", REFUSED), ("goes-on", SECOND_TRY)] {
        for row in rows.split('\n') {
            assert!(rt; is_refused(rt.alloc(), name, row), "{row}");
        }
    }
}
