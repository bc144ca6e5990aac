// Which points are in each section: some train has a share of it there.
ghost use Rattle.std.specs.Prelude.{◌≡◌, ◌<◌, ◌≤◌, length};
ghost use Rattle.rail_model.specs.Table.{trains, last};
ghost use Rattle.layout_picture.specs.Areas.{shares_at as shares_at_of, shares as shares_of};
ghost use Rattle.layout_picture.specs.Areas.{is_inside as is_inside_of, inside, is_marked};

use rail_model::{Table, last_of, point_of, share_at, trains_of};

// Whether a train has a share of a section at a place, and a point there.
fn shares_at(table: &Table, section: u32, point: u32, train: u32, place: u32) -> bool
    requires section { section < length table.now.sections }
    requires train { train < trains table.now }
    requires place { place ≤ last table.now train }
    ensures { result ≡ shares_at_of table.now section point train place }
{
    match point_of(table, train, place) {
        Some(here) => here == point && 0 < share_at(table, train, section, place),
        None => false,
    }
}

// Whether a train has a share of a section somewhere at a point.
fn shares(table: &Table, section: u32, point: u32, train: u32) -> bool
    requires section { section < length table.now.sections }
    requires train { train < trains table.now }
    ensures { result ≡ shares_of table.now section point train }
{
    for place in 0..last_of(table, train) + 1 {
        if shares_at(table, section, point, train, place) {
            return true;
        }
    }
    false
}

// Whether a point is in a section.
fn is_inside(table: &Table, section: u32, point: u32) -> bool
    requires { section < length table.now.sections }
    ensures { result ≡ is_inside_of table.now section point }
{
    for train in 0..trains_of(table) {
        if shares(table, section, point, train) {
            return true;
        }
    }
    false
}

/// Whether one of this many points is in a section.
pub(crate) fn has_point(table: &Table, points: u32, section: u32, point: u32) -> bool
    requires { section < length table.now.sections }
    ensures { result ≡ is_marked (inside table.now points section) point }
{
    if points <= point {
        return false;
    }
    is_inside(table, section, point)
}
