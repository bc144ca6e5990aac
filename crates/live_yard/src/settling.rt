// Wants that are granted as soon as they can be.
ghost use Rattle.std.specs.Prelude.{◌≡◌, ◌↔◌, length, IsTrue, slice_index, ◌<◌, ◌≤◌, MatchOption};
ghost use Rattle.std.specs.List.{remove};
ghost use Rattle.rail_model.specs.Move.{IsFirstOrNone};
ghost use Rattle.live_yard.specs.Wants.{AreWants};
ghost use Rattle.live_yard.specs.Firing.{CanFire, IsNextWant, IsSettled, Settles};
ghost use Rattle.live_yard.specs.Reported.{granted, MayGoOn};

use crate::{ReportedYard, Told, WantQueue};
use plain_yard::CheckedTable;

// Whether a train may go on.
fn may_go<A: CheckedTable>(yard: &ReportedYard<'_, A>, train: u32) -> bool
    requires { train < length yard.now.there }
    ensures { IsTrue result ↔ MayGoOn yard.now train }
{
    matches!(yard.told(train), Told::May)
}

// The first want from one index on and before another that can be granted.
fn first_want<A: CheckedTable>(
    yard: &ReportedYard<'_, A>,
    wants: &[u32],
    from: usize,
    end: usize,
) -> Option<usize>
    requires wants { AreWants (length yard.now.there) wants.now }
    requires within { end ≤ length wants.now }
    ensures { IsFirstOrNone (λ k. (from ≤ k) × (k < end)
        × CanFire (record { yard = yard.now; wants = wants.now }) k) result }
{
    for index in from..end {
        if may_go(yard, wants[index]) {
            return Some(index);
        }
    }
    None
}

// The want that is granted next, sought from an index on and then among those before.
fn next_want<A: CheckedTable>(
    yard: &ReportedYard<'_, A>,
    wants: &[u32],
    from: usize,
) -> Option<usize>
    requires wants { AreWants (length yard.now.there) wants.now }
    requires within { from ≤ length wants.now }
    ensures { MatchOption result (IsSettled (record { yard = yard.now; wants = wants.now }))
        (IsNextWant (record { yard = yard.now; wants = wants.now }) from) }
{
    match first_want(yard, wants, from, wants.len()) {
        Some(index) => Some(index),
        None => first_want(yard, wants, 0, from),
    }
}

// Grants a want that can be granted; it stands no longer.
fn fire<A: CheckedTable>(yard: &mut ReportedYard<'_, A>, queue: &mut WantQueue, index: usize)
    requires trains { queue.old.trains ≡ length yard.old.there }
    requires can { CanFire (record { yard = yard.old; wants = queue.old.wants }) index }
    ensures yard { yard.new ≡ granted yard.old (slice_index queue.old.wants index) }
    ensures wants { queue.new.wants ≡ remove queue.old.wants index }
    ensures trains { queue.new.trains ≡ length yard.new.there }
{
    let train = queue.remove(index);
    yard.grant(train);
}

/// Grants standing wants in the order of coming, going on behind the one that was granted and then again from the
/// first, until none can be granted; and says how many.
pub(crate) fn settle<A: CheckedTable>(
    yard: &mut ReportedYard<'_, A>,
    queue: &mut WantQueue,
) -> usize
    requires { queue.old.trains ≡ length yard.old.there }
    ensures settles { Settles (record { yard = yard.old; wants = queue.old.wants })
        (record { yard = yard.new; wants = queue.new.wants }) result }
    ensures trains { queue.new.trains ≡ length yard.new.there }
{
    let before = queue.len();
    let mut from = 0;
    while let Some(index) = next_want(yard, queue.as_slice(), from) {
        fire(yard, queue, index);
        from = index;
    }
    before - queue.len()
}
