// Whether a section binds nobody in a box.
ghost use Rattle.std.specs.Prelude.{◌≡◌, ◌+◌, ◌-◌, ℕ, ◌<◌, ◌≤◌, pos, ◌≤ℤ◌, length, IsTrue, ◌↔◌};
ghost use Rattle.rail_model.specs.Sums.{greatest};
ghost use Rattle.rail_model.specs.Table.{IsTable, trains, last, limit, share};
ghost use Rattle.rail_model.specs.Certificate.{range, most_with, IsBox, MayBeFull};
ghost use Rattle.state_boxes.specs.Sums.{AreLists};
ghost use Rattle.cert_maker.specs.Slack.{IsSlack, IsGreatestSum};

use rail_model::{Table, last_of, limit_of};
use state_boxes::{Lists, Ranges, Span};

/// The greatest share of a train in a span.
pub(crate) fn greatest_in(table: &Table, lists: &Lists, train: u32, span: Span, section: u32) -> i32
    requires lists { AreLists table.now lists.now }
    requires train { train < trains table.now }
    requires section { section < length table.now.sections }
    requires some { span.lo ≤ span.hi }
    requires in_range { span.hi ≤ last table.now train }
    ensures greatest { result ≡ greatest (share table.now train section) span.lo (span.hi - span.lo) }
    ensures low { pos 0 ≤ℤ result }
    ensures high { result ≤ℤ pos 4 }
    ensures formed { IsTable table.now }
{
    let shares = lists.shares().train(train);
    let extremes = shares.extremes(table, train, span, section);
    i32::from(extremes.greatest)
}

// The sum of the greatest shares of a section.
fn greatest_sum(table: &Table, lists: &Lists, ranges: &Ranges, section: u32) -> i32
    requires lists { AreLists table.now lists.now }
    requires boxed { IsBox table.now ranges.now }
    requires section { section < length table.now.sections }
    ensures { IsGreatestSum table.now ranges.now section result }
{
    let members = lists.members().of(section);
    let mut sum = 0;
    for &train in members {
        sum += greatest_in(table, lists, train, ranges.span(train), section);
    }
    sum
}

// A train's share after the greatest place of its range and the other trains' greatest shares.
fn most_behind(
    table: &Table,
    lists: &Lists,
    ranges: &Ranges,
    section: u32,
    sum: i32,
    train: u32,
) -> i32
    requires lists { AreLists table.now lists.now }
    requires boxed { IsBox table.now ranges.now }
    requires section { section < length table.now.sections }
    requires sum { IsGreatestSum table.now ranges.now section sum }
    requires train { train < trains table.now }
    requires unfinished { (range ranges.now train).hi < last table.now train }
    ensures { result ≡ most_with table.now ranges.now section train ((range ranges.now train).hi + 1) }
{
    let span = ranges.span(train);
    let behind = Span::new(span.hi() + 1, span.hi() + 1);
    let own = greatest_in(table, lists, train, span, section);
    let next = greatest_in(table, lists, train, behind, section);
    sum - own + next
}

// Whether a section that is within its limit has room for each move of a train. A step inside its range can't pass the sum: the
// step from the greatest place is the one that counts.
fn has_room(
    table: &Table,
    lists: &Lists,
    ranges: &Ranges,
    section: u32,
    sum: i32,
    train: u32,
) -> bool
    requires lists { AreLists table.now lists.now }
    requires boxed { IsBox table.now ranges.now }
    requires section { section < length table.now.sections }
    requires sum { IsGreatestSum table.now ranges.now section sum }
    requires within { sum ≤ℤ pos (limit table.now section) }
    requires train { train < trains table.now }
    ensures { IsTrue result ↔ (MayBeFull table.now ranges.now train section → ⊥) }
{
    if ranges.span(train).hi() >= last_of(table, train) {
        return true;
    }
    let most = most_behind(table, lists, ranges, section, sum, train);
    let limit = limit_of(table, section) as i32;
    most <= limit
}

// Whether a section that is within its limit has room for each move of each train.
fn has_room_for_all(table: &Table, lists: &Lists, ranges: &Ranges, section: u32, sum: i32) -> bool
    requires lists { AreLists table.now lists.now }
    requires boxed { IsBox table.now ranges.now }
    requires section { section < length table.now.sections }
    requires sum { IsGreatestSum table.now ranges.now section sum }
    requires within { sum ≤ℤ pos (limit table.now section) }
    ensures { IsTrue result ↔ ((i : ℕ) → i < trains table.now → MayBeFull table.now ranges.now i section → ⊥) }
{
    let members = lists.members().of(section);
    for &train in members {
        if !has_room(table, lists, ranges, section, sum, train) {
            return false;
        }
    }
    true
}

/// Whether a section is within its limit in each state of a box, and has room for each move out of one.
pub(crate) fn is_slack(table: &Table, lists: &Lists, ranges: &Ranges, section: u32) -> bool
    requires lists { AreLists table.now lists.now }
    requires boxed { IsBox table.now ranges.now }
    requires section { section < length table.now.sections }
    ensures { IsTrue result ↔ IsSlack table.now ranges.now section }
{
    let sum = greatest_sum(table, lists, ranges, section);
    let limit = limit_of(table, section) as i32;
    sum <= limit && has_room_for_all(table, lists, ranges, section, sum)
}
