// Lists that note that there was no memory, so that a search asks once a step whether there was.
use std::alloc::{AllocError, Global};

/// A list that is added to and taken from at its end; and whether an item is missing, for which there was no memory.
#[derive(Drop)]
pub(crate) struct Pile<T> {
    items: Vec<T>,
    is_short: bool,
}

impl<T: Copy> Pile<T> {
    pub(crate) fn new(alloc: Global) -> Pile<T> {
        Pile {
            items: Vec::new(alloc),
            is_short: false,
        }
    }

    pub(crate) fn push(&mut self, item: T) {
        if self.items.push(item).is_err() {
            self.is_short = true;
        }
    }

    pub(crate) fn pop(&mut self) -> Option<T> {
        self.items.pop()
    }

    pub(crate) fn len(&self) -> usize {
        self.items.len()
    }

    pub(crate) fn as_slice(&self) -> &[T] {
        &self.items
    }

    /// Whether an item is missing.
    pub(crate) fn is_short(&self) -> bool {
        self.is_short
    }

    /// The items, if none is missing.
    pub(crate) fn whole(self) -> Result<Vec<T>, AllocError> {
        if self.is_short {
            return Err(AllocError);
        }
        Ok(self.items)
    }
}

/// Lists of items, one behind the other.
#[derive(Drop)]
pub(crate) struct Lists<T> {
    items: Pile<T>,
    lists: Pile<Within>,
}

/// The items of a list: those from an index, without that at another.
#[derive(Clone, Copy)]
struct Within {
    from: usize,
    to: usize,
}

impl<T: Copy> Lists<T> {
    pub(crate) fn new(alloc: Global) -> Lists<T> {
        Lists {
            items: Pile::new(alloc),
            lists: Pile::new(alloc),
        }
    }

    /// Adds to the last list.
    pub(crate) fn add(&mut self, item: T) {
        self.items.push(item);
    }

    /// Ends the last list; a new one begins.
    pub(crate) fn end(&mut self) {
        let from = match self.lists.as_slice().last() {
            Some(before) => before.to,
            None => 0,
        };
        self.lists.push(Within {
            from,
            to: self.items.len(),
        });
    }

    /// The list at an index.
    pub(crate) fn list(&self, index: usize) -> &[T] {
        let Some(within) = self.lists.as_slice().get(index) else {
            return &[];
        };
        match self.items.as_slice().get(within.from..within.to) {
            Some(list) => list,
            None => &[],
        }
    }

    /// Whether an item or a list is missing.
    pub(crate) fn is_short(&self) -> bool {
        self.items.is_short() || self.lists.is_short()
    }
}
