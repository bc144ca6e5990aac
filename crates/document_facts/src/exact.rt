// Whether a section ever keeps a train out, and whether two trains end at one point.
ghost use Rattle.std.specs.Prelude.{◌≡◌, ◌<◌, ◌↔◌, pos, ◌≤ℤ◌, length, IsTrue};
ghost use Rattle.rail_model.specs.Sums.{total_below};
ghost use Rattle.rail_model.specs.Table.{IsTable, trains, last, share};
ghost use Rattle.document_facts.specs.Sections.{most as most_of, end, end_count, NeverBinds, IsUnused, IsOverfullAtEnd, OverfillsAlone, EndTogether};

use rail_model::{Table, last_of, limit_of, point_of, share_at, trains_of};
use state_boxes::{Span, greatest_share};

/// The greatest share of a section that a train has anywhere.
pub fn most(table: &Table, section: u32, train: u32) -> i32
    requires section { section < length table.now.sections }
    requires train { train < trains table.now }
    ensures most { result ≡ most_of table.now section train }
    ensures low { pos 0 ≤ℤ result }
    ensures high { result ≤ℤ pos 4 }
    ensures formed { IsTable table.now }
{
    greatest_share(table, train, section, Span::new(0, last_of(table, train)))
}

/// The sum of the greatest shares that the trains have of a section.
pub fn most_together(table: &Table, section: u32) -> i32
    requires { section < length table.now.sections }
    ensures { result ≡ total_below (most_of table.now section) (trains table.now) }
{
    let mut sum: i32 = 0;
    for train in 0..trains_of(table) {
        sum += most(table, section, train);
    }
    sum
}

/// Whether a section never keeps a train out: even the greatest shares of all trains together are within its limit.
pub fn never_binds(table: &Table, section: u32) -> bool
    requires { section < length table.now.sections }
    ensures { IsTrue result ↔ NeverBinds table.now section }
{
    let limit = limit_of(table, section) as i32;
    most_together(table, section) <= limit
}

/// Whether no train has a share of a section at any place.
pub fn is_unused(table: &Table, section: u32) -> bool
    requires { section < length table.now.sections }
    ensures { IsTrue result ↔ IsUnused table.now section }
{
    for train in 0..trains_of(table) {
        if most(table, section, train) > 0 {
            return false;
        }
    }
    true
}

/// Whether a train alone has more of a section at some place than its limit.
pub fn overfills_alone(table: &Table, section: u32, train: u32) -> bool
    requires section { section < length table.now.sections }
    requires train { train < trains table.now }
    ensures { IsTrue result ↔ OverfillsAlone table.now section train }
{
    let limit = limit_of(table, section) as i32;
    limit < most(table, section, train)
}

/// A train's share of a section at its last place.
pub fn end_share(table: &Table, section: u32, train: u32) -> i32
    requires section { section < length table.now.sections }
    requires train { train < trains table.now }
    ensures share { result ≡ share table.now train section (last table.now train) }
    ensures low { pos 0 ≤ℤ result }
    ensures high { result ≤ℤ pos 4 }
{
    share_at(table, train, section, last_of(table, train))
}

/// The sum of the trains' shares of a section at their last places.
pub fn count_at_end(table: &Table, section: u32) -> i32
    requires { section < length table.now.sections }
    ensures { result ≡ end_count table.now section }
{
    let mut sum: i32 = 0;
    for train in 0..trains_of(table) {
        sum += end_share(table, section, train);
    }
    sum
}

/// Whether the trains at their last places overfill a section: then they can't all arrive.
pub fn is_overfull_at_end(table: &Table, section: u32) -> bool
    requires { section < length table.now.sections }
    ensures { IsTrue result ↔ IsOverfullAtEnd table.now section }
{
    let limit = limit_of(table, section) as i32;
    limit < count_at_end(table, section)
}

// The point at which a train ends; none if it leaves the layout.
pub(crate) fn end_of(table: &Table, train: u32) -> Option<u32>
    requires { train < trains table.now }
    ensures { result ≡ end table.now train }
{
    point_of(table, train, last_of(table, train))
}

/// Whether two trains end at one point: they can't both arrive.
pub fn end_together(table: &Table, first: u32, second: u32) -> bool
    requires first { first < trains table.now }
    requires second { second < trains table.now }
    ensures { IsTrue result ↔ EndTogether table.now first second }
{
    match end_of(table, first) {
        Some(point) => end_of(table, second) == Some(point),
        None => false,
    }
}
