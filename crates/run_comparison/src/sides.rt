// The two runs, and what of the one is compared with what of the other.
ghost use Rattle.std.specs.Prelude.{◌≡◌, IfOk};
ghost use Rattle.run_comparison.specs.Sides as spec;

use rail_model::{Layout, Names};
use run_timetable::{Row, Run, place_name, rows_in, train_name};
use std::alloc::{AllocError, Global};

/// One of two runs: its steps, and the points and names that they are about.
#[derive(Clone, Copy)]
pub struct Side<'a> {
    pub layout: &'a Layout,
    pub names: &'a Names,
    pub run: &'a Run,
}

/// The train of the second run that has the name of a train of the first.
pub(crate) fn same_train(first: Side<'_>, second: Side<'_>, train: u32) -> Option<u32>
    ensures { result ≡ spec.same_train first.entry.names.now second.entry.names.now train }
{
    let name = train_name(first.names, train);
    second.names.train_called(name.as_bytes())
}

/// The rows of that train in the second run; none, if there is no such train.
pub(crate) fn same_rows(
    alloc: Global,
    first: Side<'_>,
    second: Side<'_>,
    train: u32,
) -> Result<Vec<Row>, AllocError>
    ensures { IfOk result (λ rows. rows.items ≡ spec.same_rows first.entry second.entry train) }
{
    match same_train(first, second, train) {
        Some(same) => rows_in(alloc, second.run, same),
        None => Ok(Vec::new(alloc)),
    }
}

// Whether both rows are at points of one name, or out of the layout.
fn is_same_place(first: Side<'_>, second: Side<'_>, row: &Row, other: &Row) -> bool
    ensures { result ≡ spec.is_same_place first.entry.layout.now second.entry.layout.now row.now other.now }
{
    place_name(first.layout, row.point) == place_name(second.layout, other.point)
}

/// The other row, if it is at the same place.
pub(crate) fn counterpart(
    first: Side<'_>,
    second: Side<'_>,
    row: &Row,
    other: Option<Row>,
) -> Option<Row>
    ensures { result ≡ spec.counterpart first.entry.layout.now second.entry.layout.now row.now other }
{
    match other {
        Some(other) => {
            if is_same_place(first, second, row, &other) {
                Some(other)
            } else {
                None
            }
        }
        None => None,
    }
}
