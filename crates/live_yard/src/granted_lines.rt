// Lines, looked through from the end and from the front.
ghost use Rattle.std.specs.Prelude.{◌≡◌, ◌<◌, ◌≤◌, ◌^◌, ◌↔◌, ℕ, List, length, IsTrue, Some};
ghost use Rattle.rail_model.specs.declared.types.Line.{Line as LineValue};
ghost use Rattle.rail_model.specs.Journal.{IsRight, after_lines};
ghost use Rattle.rail_model.specs.Yard.{Offer, Yard};
ghost use Rattle.live_yard.specs.GrantedLines.{answered, moves, IsPassed, WasTried};

use rail_model::Line;

/// How a train came to a place that it has passed, or where it is.
#[derive(Clone, Copy)]
pub enum Passed {
    /// It was granted the place by the line of this number, counted from 1.
    Granted { line: u32 },
    /// It began at this place, which isn't before the one that is asked for.
    Begun { start: u32 },
}

/// Whether a line is a move of a train.
pub(crate) fn is_move_of(line: Line, train: u32) -> bool
    ensures { result ≡ moves train line }
{
    matches!(line, Line::Move { train: other, .. } if other == train)
}

/// What a place is that a train has passed, or where it stands: granted by a line, or not after the place where it
/// began.
pub fn passed_place(lines: &[Line], train: u32, place: u32, now: u32) -> Passed
    requires few { length lines.now < 2 ^ 31 }
    requires passed { place ≤ now }
    ensures { IsPassed lines.now now train place result }
{
    let mut at = now;
    let mut left = lines.len();
    while 0 < left {
        let is_grant = is_move_of(lines[left - 1], train);
        if is_grant && at == place {
            return Passed::Granted { line: left as u32 };
        }
        at -= u32::from(is_grant);
        left -= 1;
    }
    Passed::Begun { start: at }
}

// Whether a line is the answer of a table.
fn is_answer_of(line: Line, table: u32) -> bool
    ensures { IsTrue result ↔ (answered line ≡ Some table) }
{
    match line {
        Line::Move { .. } => false,
        Line::Table { table: other }
        | Line::KeptDiffers { table: other, .. }
        | Line::KeptOver { table: other, .. } => other == table,
    }
}

/// Right lines from a state have a line for each table after the last that was tried there.
pub fn each_table_has_a_line()
    ensures { (tables : List Offer) (y : Yard) (all : List LineValue) (t : ℕ)
        → IsRight tables y all → y.tried < t → t ≤ (after_lines y all).tried → (n : ℕ) × WasTried all t n }
{}

/// The number of the line that answered a table.
pub fn answer_of(lines: &[Line], table: u32) -> u32
    requires few { length lines.now < 2 ^ 31 }
    requires there { (n : ℕ) × WasTried lines.now table n }
    ensures { WasTried lines.now table result }
{
    for (index, line) in lines.iter().enumerate() {
        if is_answer_of(*line, table) {
            return index as u32 + 1;
        }
    }
    unreachable!()
}
