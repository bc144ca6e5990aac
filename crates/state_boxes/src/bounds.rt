// The lesser or the greater of the numbers of two lists, place by place. The numbers are small and nothing else stands in the lists, so that
// the processor takes many at once.
ghost use Rattle.std.specs.Prelude.{◌≡◌, pos, ◌+ℤ◌, ◌-ℤ◌, length, IfOk, slice_index_or};
ghost use Rattle.state_boxes.specs.Each.{IsEach};
ghost use Rattle.state_boxes.specs.Bounds.{bound_at, AreFew, AreSmall};

use std::alloc::{AllocError, Global};

/// Which of two numbers counts.
pub(crate) trait Bound {
    ghost use Rattle.std.specs.Prelude.{ℤ};

    ghost bound: { ℤ → ℤ → ℤ };

    fn of(first: i8, second: i8) -> i8
        ensures { result ≡ bound first second };
}

/// The lesser one.
pub(crate) struct Least;

impl Bound for Least {
    ghost use Rattle.std.specs.Int.{int_min};

    ghost bound = { int_min };

    fn of(first: i8, second: i8) -> i8 {
        first.min(second)
    }
}

/// The greater one.
pub(crate) struct Greatest;

impl Bound for Greatest {
    ghost use Rattle.std.specs.Int.{int_max};

    ghost bound = { int_max };

    fn of(first: i8, second: i8) -> i8 {
        first.max(second)
    }
}

/// Two lists of as many numbers.
#[derive(Clone, Copy)]
pub(crate) struct Halves<'a> {
    pub first: &'a [i8],
    pub second: &'a [i8],
}

/// The bound of two lists, place by place.
pub(crate) fn bounds<B: Bound>(
    alloc: Global,
    first: &[i8],
    second: &[i8],
) -> Result<Vec<i8>, AllocError>
    requires { length second.now ≡ length first.now }
    ensures { IfOk result (λ all. IsEach (λ at x. x ≡ bound_at B.bound first.now second.now at) (length first.now) (pos 0) all.items) }
{
    let mut all = vec![in alloc; 0; first.len()]?;
    for at in 0..first.len() {
        all[at] = B::of(first[at], second[at]);
    }
    Ok(all)
}

/// Moves sums from the bound of two lists to that of two others, place by place.
pub(crate) fn move_sums<B: Bound>(sums: &mut [i16], old: Halves<'_>, new: Halves<'_>)
    requires old { AreFew B.bound (length sums.old) old.first.now old.second.now }
    requires new { AreFew B.bound (length sums.old) new.first.now new.second.now }
    requires small { AreSmall sums.old }
    ensures { IsEach (λ at x. x ≡ slice_index_or sums.old at (pos 0) +ℤ (bound_at B.bound new.entry.first.now new.entry.second.now at -ℤ bound_at B.bound old.entry.first.now old.entry.second.now at))
        (length sums.old) (pos 0) sums.new }
{
    let (old_first, old_second) = (old.first, old.second);
    let (new_first, new_second) = (new.first, new.second);
    for at in 0..sums.len() {
        let before = B::of(old_first[at], old_second[at]);
        let after = B::of(new_first[at], new_second[at]);
        sums[at] += i16::from(after - before);
    }
}
