// The sections of circular waits.
ghost use Rattle.std.specs.Prelude.{◌≡◌, ◌≤◌, All, IfOk, length, map};
ghost use Rattle.ring_sections.specs.Ring.{IsRing};
ghost use Rattle.ring_sections.specs.Marking.{stays as stays_of_ring, ring_table, Excludes};

use crate::Ring;
use forbidden_states::{Stay, Stays, marked};
use rail_model::{Missions, Table};
use state_boxes::Span;
use std::alloc::{AllocError, Global};

// The trains of a circular wait, each at its place alone.
fn stays_of(alloc: Global, ring: &Ring) -> Result<Stays, AllocError>
    ensures { IfOk result (λ stays. stays ≡ stays_of_ring ring.now) }
{
    let mut stays = Vec::new(alloc);
    for &(train, place) in ring.as_slice() {
        stays.push(Stay::new(train, Span::new(place, place)))?;
    }
    Ok(Stays::from(stays))
}

fn all_stays(alloc: Global, rings: &[Ring]) -> Result<Vec<Stays>, AllocError>
    ensures { IfOk result (λ all. all.items ≡ map stays_of_ring rings.now) }
{
    let mut all = Vec::new(alloc);
    for ring in rings {
        all.push(stays_of(alloc, ring)?)?;
    }
    Ok(all)
}

/// The missions with a section for each of these circular waits, in their order. It lets all of them
/// but one be at their places. The only error is that there is no memory; the missions are dropped then.
pub fn mark_rings(alloc: Global, missions: Missions, rings: &[Ring]) -> Result<Table, AllocError>
    requires few { length rings.now ≤ 64 }
    requires rings { All (IsRing missions) rings.now }
    ensures table { IfOk result (λ table. table ≡ ring_table missions rings.now) }
    ensures none_left { IfOk result (λ table. Excludes table rings.now) }
{
    let all = all_stays(alloc, rings)?;
    marked(alloc, missions, &all)
}
