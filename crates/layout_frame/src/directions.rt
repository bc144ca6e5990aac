// Where trains head.
ghost use Rattle.std.specs.Prelude.{◌<◌};
ghost use Rattle.rail_model.specs.Table.{trains};

use crate::bows::difference;
use crate::captions::spot_at;
use crate::frame::View;
use svg_text::Spot;

// To the right.
const EAST: (i64, i64) = (1000, 0);

// From one spot to another.
fn between(from: Spot, to: Spot) -> (i64, i64) {
    let right = difference(to.x, from.x);
    let down = difference(to.y, from.y);
    let square = right
        .saturating_mul(right)
        .saturating_add(down.saturating_mul(down));
    let length = difference(square.unsigned_abs().isqrt(), 0);
    match (
        right.saturating_mul(1000).checked_div(length),
        down.saturating_mul(1000).checked_div(length),
    ) {
        (Some(right), Some(down)) => (right, down),
        _ => EAST,
    }
}

/// How far to the right and down a train heads from a spot, in thousandths: to its next point; at its last one on from the
/// point before.
pub fn direction_of(view: &View, train: u32, at: Spot) -> (i64, i64)
    requires { train < trains view.now.scene.now.table.now }
{
    let place = view.scene.place(train);
    match spot_at(view, train, place.saturating_add(1)) {
        Some(next) => between(at, next),
        None => match spot_at(view, train, place.saturating_sub(1)) {
            Some(before) => between(before, at),
            None => EAST,
        },
    }
}
