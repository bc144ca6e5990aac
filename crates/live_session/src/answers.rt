// What the answer to a request says, by what was replied.
ghost use Rattle.std.specs.Prelude.{◌≡◌, ◌⊎◌, ◌-◌, ◌<◌, ◌^◌, All, IfSome, ℕ, length, slice_get};
ghost use Rattle.rail_model.specs.Names.{Names as NameLists};
ghost use Rattle.move_journal.specs.Printable.{IsNamed as IsNamedLine};
ghost use Rattle.live_lines.specs.Answers.{IsNamed};
ghost use Rattle.live_lines.specs.Told.{IsNamedSpot};
ghost use Rattle.live_session.specs.Replies as spec;

use crate::start::{Start, train_of};
use live_lines::{Answer, Fault, Refusal, Spot, TableAnswer, TableLine, TrainAnswer};
use live_yard::{Elsewhere, Passed, Reply, Request};
use rail_model::{Line, Tried};

// The line of a number.
fn line_of(lines: &[Line], number: u32) -> Option<Line>
    ensures { result ≡ slice_get lines.now (number - 1) }
{
    lines.get((number as usize).saturating_sub(1)).copied()
}

// A train at the place that the line of a number granted it.
fn spot_by(lines: &[Line], train: u32, place: u32, number: u32) -> Spot
    ensures spot { result ≡ spec.spot_by lines.now train place number }
    ensures named { (N : NameLists) → All (IsNamedLine N) lines.now → train < length N.trains → IsNamedSpot N result }
{
    let point = match line_of(lines, number) {
        Some(Line::Move { to, .. }) => to,
        _ => None,
    };
    Spot {
        train,
        place,
        point,
    }
}

// The line of a number, as the answer of a table.
fn table_line(lines: &[Line], number: u32) -> TableLine
    ensures { result ≡ spec.table_line (slice_get lines.now (number - 1)) number }
{
    match line_of(lines, number) {
        Some(Line::Table { table }) => TableLine::Table {
            table,
            line: number,
        },
        Some(Line::KeptDiffers { table, .. } | Line::KeptOver { table, .. }) => TableLine::Kept {
            table,
            line: number,
        },
        _ => TableLine::Kept {
            table: 0,
            line: number,
        },
    }
}

// The answer where the next table was tried.
fn tried_answer(start: Start, tried: Tried) -> TableAnswer
    requires few { start.line < 2 ^ 31 }
    requires tables { start.tried < 2 ^ 31 }
    ensures { result ≡ spec.tried_answer start tried }
{
    let table = start.tried + 1;
    let line = start.line + 1;
    match tried {
        Tried::Exchanged => TableAnswer::Tried {
            answer: TableLine::Table { table, line },
        },
        Tried::Differs { .. } | Tried::Over { .. } => TableAnswer::Tried {
            answer: TableLine::Kept { table, line },
        },
        Tried::Early { moves } => TableAnswer::Early {
            table,
            moves,
            after: start.after,
        },
        Tried::NoMore => TableAnswer::NoMore,
    }
}

// The place that was named; 0 where none was.
fn place_named(request: Request) -> u32
    ensures { result ≡ spec.place_named request }
{
    match request {
        Request::Ask { place, .. } | Request::Want { place, .. } => place.unwrap_or(0),
        _ => 0,
    }
}

// The answer on a place that isn't a train's next one.
fn elsewhere_answer(lines: &[Line], request: Request, place: Elsewhere) -> Answer<'static>
    ensures answer { result ≡ spec.elsewhere_answer lines.now request place }
    ensures named { (N : NameLists) → All (IsNamedLine N) lines.now → spec.train_of request < length N.trains
        → IsNamed N result }
{
    match place {
        Elsewhere::Beyond { last } => Answer::Refused(Refusal::Place { last }),
        Elsewhere::Ahead { at } => Answer::Refused(Refusal::Ahead { at }),
        Elsewhere::Before {
            how: Passed::Granted { line },
        } => {
            let spot = spot_by(lines, train_of(request), place_named(request), line);
            Answer::Train(TrainAnswer::Again { spot, line })
        }
        Elsewhere::Before {
            how: Passed::Begun { start },
        } => Answer::Refused(Refusal::Before { start }),
    }
}

/// The answer of a request; none where its train has to wait or has arrived.
pub(crate) fn answer_of(
    lines: &[Line],
    start: Start,
    request: Request,
    reply: Reply,
) -> Option<Answer<'static>>
    requires few { start.line < 2 ^ 31 }
    requires tables { start.tried < 2 ^ 31 }
    requires place { start.place < 2 ^ 31 }
    ensures answer { result ≡ spec.answer_of lines.now start request reply }
    ensures named { (N : NameLists) → All (IsNamedLine N) lines.now
        → (spec.train_of request < length N.trains) ⊎ spec.IsOnTable reply → IfSome result (IsNamed N) }
{
    let train = train_of(request);
    Some(match reply {
        Reply::Held { .. } => return None,
        Reply::Granted { line } => {
            let spot = spot_by(lines, train, start.place + 1, line);
            Answer::Train(TrainAnswer::Granted { spot, line })
        }
        Reply::Elsewhere { place } => elsewhere_answer(lines, request, place),
        Reply::Dropped { wants } => Answer::Train(TrainAnswer::Dropped { train, wants }),
        Reply::There { place } => Answer::Train(TrainAnswer::There { train, place }),
        Reply::NotThere { at } => Answer::Refused(Refusal::Ahead { at }),
        Reply::NoReports => Answer::Refused(Refusal::Line {
            fault: Fault::Reports,
        }),
        Reply::Tried { tried } => Answer::Table(tried_answer(start, tried)),
        Reply::TriedBefore { line } => Answer::Table(TableAnswer::Again {
            answer: table_line(lines, line),
        }),
        Reply::TooSoon { tried } => Answer::Refused(Refusal::Ahead { at: tried }),
        Reply::NoTable { tables } => Answer::Refused(Refusal::Table { tables }),
    })
}
