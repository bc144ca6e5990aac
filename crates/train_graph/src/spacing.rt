// How far down rows lie.
ghost use Rattle.std.specs.Prelude.{◌≡◌, ◌<◌, ◌≤◌, IfOk, length, vec_len};
ghost use Rattle.std.specs.List.Sorted.{IsStrictlyIncreasing};

use crate::order::stem_of;
use rail_model::Layout;
use run_timetable::point_name;
use std::alloc::{AllocError, Global};

// How far apart the tracks of a station lie.
const BESIDE: u16 = 14;

/// How far down rows lie, from the first one on: the tracks of a station side by side, and all others so far apart.
pub(crate) fn row_depths(
    alloc: Global,
    layout: &Layout,
    rows: &[u32],
    first: u16,
    gap: u16,
) -> Result<Vec<u32>, AllocError>
    requires { length rows.now ≤ 512 }
    ensures each { IfOk result (λ depths. vec_len depths ≡ length rows.now) }
    ensures apart { IfOk result (λ depths. IsStrictlyIncreasing depths.items) }
{
    let mut depths = Vec::new(alloc);
    let mut depth = u32::from(first);
    for (row, point) in rows.iter().enumerate() {
        depths.push(depth)?;
        let next = rows.get(row + 1).copied();
        depth += u32::from(distance(layout, *point, next, gap));
    }
    Ok(depths)
}

// How far the next row lies below a point.
fn distance(layout: &Layout, point: u32, next: Option<u32>, gap: u16) -> u16
    ensures { 0 < result }
{
    match next {
        Some(next) if is_beside(layout, point, next) => BESIDE,
        _ => gap.max(BESIDE),
    }
}

// Whether two points are tracks of one station.
fn is_beside(layout: &Layout, first: u32, second: u32) -> bool {
    stem_of(point_name(layout, first)) == stem_of(point_name(layout, second))
}
