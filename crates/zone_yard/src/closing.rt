// A yard is closed.
ghost use Rattle.std.specs.Prelude.{◌≡◌, ◌++◌, length, IfOk};
ghost use Rattle.rail_model.specs.Lines.{journal_of};
ghost use Rattle.zone_yard.specs.Boarding.{Closes};

use crate::steps::{look, word_of};
use crate::yard::{Root, Yard};
use move_claim::Cell;
use rail_model::{Line, PlainState, Standing, State};
use std::alloc::{AllocError, Global};
use ticket_lines::merged;

// All lines of the yard: those that it opened with, and those of all passes. Nobody is out.
fn all_lines(yard: &Yard<'_>, alloc: Global, root: &mut Root) -> Result<Vec<Line>, AllocError>
    requires ours { root.old.yard ≡ yard.now }
    requires nobody { root.old.out ≡ 0 }
    ensures same { root.new ≡ root.old }
    ensures lines { IfOk result (λ lines. lines.items ≡ root.old.yard.setup.opening.lines ++ journal_of root.old.yard.setup.tables root.old.yard.setup.opening.yard root.old.seen) }
{
    look(yard, &mut root.seat);
    merged(alloc, yard.key.opening.lines(), &root.lines)
}

// The state that the words of a yard say, with these lines.
fn read_back(yard: Yard<'_>, root: Root, mut positions: State, lines: Vec<Line>) -> PlainState
    requires ours { root.yard ≡ yard }
    requires nobody { root.out ≡ 0 }
    requires positions { length positions ≡ length root.yard.setup.opening.yard.positions }
    requires lines { lines.items ≡ root.yard.setup.opening.lines ++ journal_of root.yard.setup.tables root.yard.setup.opening.yard root.seen }
    ensures { Closes root result }
{
    let first = word_of(&yard, Cell::Position { train: 0 });
    let at = word_of(&yard, Cell::Table);
    let Yard { table, key } = yard;
    let Root {
        seat,
        boarded: _boarded,
        out: _out,
        lines: rows,
    } = root;
    let closed = table.close_with(seat.seat);
    for train in 0..positions.len() {
        positions.set(train as u32, closed.word(8 * (first + train)) as u32);
    }
    let table = closed.word(8 * at) as u32;
    closed.free();
    let tried = key.opening.tried() + rows[32].len() as u32;
    let moves = lines.len() as u32 - tried;
    PlainState::new(Standing::new(positions, table, tried, moves), lines)
}

impl<'a> Yard<'a> {
    ghost use Rattle.std.specs.Prelude.{◌≡◌, IfOk, IfErr};
    ghost use Rattle.zone_yard.specs.Boarding.{Closes};

    /// The state after the whole history, with its lines. Nobody is out.
    ///
    /// # Errors
    ///
    /// Out of memory alone; the yard and the root come back as they were.
    pub fn close(self, alloc: Global, root: Root) -> Result<PlainState, (Self, Root)>
        requires ours { root.yard ≡ self }
        requires nobody { root.out ≡ 0 }
        ensures closed { IfOk result (λ state. Closes root state) }
        ensures back { IfErr result (λ b. (b.0 ≡ self.entry) × (b.1 ≡ root)) }
    {
        let mut root = root;
        let Ok(positions) = self.key.opening.positions().copy(alloc) else {
            return Err((self, root));
        };
        match all_lines(&self, alloc, &mut root) {
            Ok(lines) => Ok(read_back(self, root, positions, lines)),
            Err(_) => Err((self, root)),
        }
    }
}
