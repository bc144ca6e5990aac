// Whether two sections are the same.
ghost use Rattle.std.specs.Prelude.{◌≡◌, ◌↔◌, IsTrue};

use crate::{Changes, Section};

// Whether a train has the same changes in two sections.
fn are_same_changes(first: &Changes, second: &Changes) -> bool
    ensures { IsTrue result ↔ (first.now ≡ second.now) }
{
    first.as_slice() == second.as_slice()
}

// Whether each train has the same changes in two lists.
fn are_same_lists(first: &[Changes], second: &[Changes]) -> bool
    ensures { IsTrue result ↔ (first.now ≡ second.now) }
{
    if first.len() != second.len() {
        return false;
    }
    for i in 0..first.len() {
        if !are_same_changes(&first[i], &second[i]) {
            return false;
        }
    }
    true
}

impl Section {
    /// Whether two sections have the same limit and the same changes of each train.
    pub fn is_same(&self, other: &Section) -> bool
        ensures { IsTrue result ↔ (self.now ≡ other.now) }
    {
        self.limit() == other.limit() && are_same_lists(self.all_changes(), other.all_changes())
    }
}
