// Numbers in lists: where there is none, it is 0, and nothing is put.

/// The number at an index.
pub(crate) fn at(numbers: &[u32], index: usize) -> u32 {
    numbers.get(index).copied().unwrap_or(0)
}

/// Puts a number at an index.
pub(crate) fn put(numbers: &mut [u32], index: usize, number: u32) {
    if let Some(slot) = numbers.get_mut(index) {
        *slot = number;
    }
}

/// Adds to the number at an index.
pub(crate) fn add(numbers: &mut [u32], index: usize, more: u32) {
    let sum = at(numbers, index).saturating_add(more);
    put(numbers, index, sum);
}

/// Where the number of a train at a place is.
pub(crate) fn of_place(train: u32, place: u32) -> usize {
    train as usize * 128 + place as usize
}

/// Where the number of a train at a point is.
pub(crate) fn of_point(train: u32, point: u32) -> usize {
    train as usize * 512 + point as usize
}

/// Where the number of a section and a train is.
pub(crate) fn of_member(section: u32, train: u32) -> usize {
    section as usize * 32 + train as usize
}

/// Where the share of a section is that a train has at a place.
pub(crate) fn of_share(section: u32, train: u32, place: u32) -> usize {
    (section as usize * 32 + train as usize) * 128 + place as usize
}
