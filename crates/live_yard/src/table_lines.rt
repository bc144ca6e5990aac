// An index of the journal: the line that answered each table.
ghost use Rattle.std.specs.Prelude.{◌≡◌, ◌+◌, ◌<◌, ◌≤◌, length, slice_index, slice_set};
ghost use Rattle.plain_yard.specs.Keeps.{Keeps};
ghost use Rattle.live_yard.specs.TableLines.{AreAnswered};

use crate::answer_of;
use plain_yard::{CheckedTable, PlainYard};

// Tables have numbers up to 15; the one after the last may be tried, too.
const ROOM: usize = 17;

// The number of the last table that was tried. Tables and lines are few.
fn last_tried<A: CheckedTable>(run: &PlainYard<'_, A>) -> u32
    ensures tried { result ≡ run.now.yard.tried }
    ensures keeps { Keeps run.now.tables run.now.yard run.now.lines }
    ensures tables { result < 16 }
    ensures lines { length run.now.lines ≤ 4079 }
{
    // Read for the proof: they are few by its clauses.
    let _table = run.live_in_force();
    run.yard().tried()
}

/// For each table the number of the line that answered it; what stands at the next one is yet to come.
#[derive(Drop)]
pub(crate) struct TableLines {
    numbers: [u32; ROOM],
}

impl TableLines {
    /// The index of a run's lines.
    pub(crate) fn of_run<A: CheckedTable>(run: &PlainYard<'_, A>) -> Self
        ensures { AreAnswered run.now.lines run.now.yard.tried result.numbers }
    {
        let mut numbers = [0; ROOM];
        for table in 1..last_tried(run) + 1 {
            numbers[table as usize] = answer_of(run.lines(), table);
        }
        TableLines { numbers }
    }

    /// The number of the line that answered a table.
    pub(crate) fn line_of(&self, table: u32) -> u32
        requires { table ≤ 16 }
        ensures { result ≡ slice_index self.now.numbers table }
    {
        self.numbers[table as usize]
    }

    /// If the next table is answered now, then by the next line.
    pub(crate) fn expect_next<A: CheckedTable>(&mut self, run: &PlainYard<'_, A>)
        ensures { self.new.numbers
            ≡ slice_set self.old.numbers (run.now.yard.tried + 1) (length run.now.lines + 1) }
    {
        let next = last_tried(run) + 1;
        self.numbers[next as usize] = run.lines().len() as u32 + 1;
    }
}
