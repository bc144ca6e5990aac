// How trains look.

use state_core::Keeper;

/// The colour of a train; and if it is red and hasn't arrived, what it waits for.
#[derive(Clone, Copy)]
pub struct Look {
    pub colour: &'static str,
    pub waits_for: Option<Keeper>,
}

/// How a train looks; one that isn't in the list has no colour.
pub(crate) fn look_of(looks: &[Look], train: u32) -> Look {
    match looks.get(train as usize) {
        Some(look) => *look,
        None => Look {
            colour: "",
            waits_for: None,
        },
    }
}
