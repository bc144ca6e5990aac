// The sums of the least and of the greatest shares in a box, summed anew.
ghost use Rattle.std.specs.Prelude.{◌≡◌, ℕ, ◌+◌, ◌-◌, ◌<◌, ◌≤◌, ◌*◌, pos, ◌+ℤ◌, ◌≤ℤ◌, length};
ghost use Rattle.rail_model.specs.Table.{IsTable, trains, share};
ghost use Rattle.rail_model.specs.Certificate.{IsBox, least_count as least_count_of, most_with};

use rail_model::{Table, trains_of};
use state_boxes::{Ranges, greatest_share, least_share};

// The sum of the least shares.
fn least_sum(table: &Table, ranges: &Ranges, section: u32) -> i32
    requires boxed { IsBox table.now ranges.now }
    requires section { section < length table.now.sections }
    ensures least { result ≡ least_count_of table.now ranges.now section }
    ensures low { pos 0 ≤ℤ result }
{
    let mut sum: i32 = 0;
    for train in 0..trains_of(table) {
        sum += least_share(table, train, section, ranges.span(train));
    }
    sum
}

/// The sum of the least shares, which is not below 0.
pub(crate) fn least_count(table: &Table, ranges: &Ranges, section: u32) -> u32
    requires boxed { IsBox table.now ranges.now }
    requires section { section < length table.now.sections }
    ensures least { least_count_of table.now ranges.now section ≡ pos result }
{
    least_sum(table, ranges, section) as u32
}

/// The sum of the greatest shares of all trains but one.
pub(crate) fn others_count(table: &Table, ranges: &Ranges, section: u32, train: u32) -> i32
    requires boxed { IsBox table.now ranges.now }
    requires section { section < length table.now.sections }
    requires train { train < trains table.now }
    ensures most { (k : ℕ) → most_with table.now ranges.now section train k ≡ result +ℤ share table.now train section k }
    ensures low { pos 0 ≤ℤ result }
    ensures high { result ≤ℤ pos (4 * trains table.now) }
    ensures formed { IsTable table.now }
{
    let mut sum: i32 = 0;
    for other in 0..trains_of(table) {
        if other != train {
            sum += greatest_share(table, other, section, ranges.span(other));
        }
    }
    sum
}
