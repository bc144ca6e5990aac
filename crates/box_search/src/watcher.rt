// Who sees how far a search is.

/// Sees how far a search is. It tells nothing back, so no answer depends on it.
pub trait Watcher {
    /// A search has made so many nodes, and its next box is within so many splits.
    fn see(&self, nodes: usize, splits: usize);
}

/// A watcher to whom nothing matters.
#[derive(Clone, Copy)]
pub struct Silent;

impl Watcher for Silent {
    fn see(&self, _nodes: usize, _splits: usize) {}
}
