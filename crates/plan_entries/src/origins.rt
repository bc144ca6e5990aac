// Which entry of a text each train stands for, where an entry stands for several trains.
use crate::{Entry, Kind};
use std::alloc::{AllocError, Global};

/// For each train of a plan, and of its further tables in order, the entry of its list in the text, counted from 0.
#[derive(Drop)]
pub struct Origins {
    lists: Vec<Vec<usize>>,
}

impl Origins {
    /// None: each train is the entry of its number.
    pub fn new(alloc: Global) -> Origins {
        Origins {
            lists: Vec::new(alloc),
        }
    }

    /// Adds the list of the plan, and then that of each further table.
    pub fn push(&mut self, list: Vec<usize>) -> Result<(), AllocError> {
        self.lists.push(list)?;
        Ok(())
    }

    // The entry of a train of the plan, or of a further table.
    fn find(&self, table: Option<usize>, train: usize) -> Option<usize> {
        let list = match table {
            Some(table) => table.saturating_add(1),
            None => 0,
        };
        self.lists.get(list)?.get(train).copied()
    }

    /// Which entry of its list in the text an entry is.
    pub(crate) fn of(&self, at: &Entry) -> usize {
        match at.kind {
            Kind::Train => self.find(at.table, at.index).unwrap_or(at.index),
            _ => at.index,
        }
    }

    /// Whether an entry is a further train of the entry of the train before it.
    pub(crate) fn is_copy(&self, at: &Entry) -> bool {
        match at.kind {
            Kind::Train if 0 < at.index => {
                let before = self.find(at.table, at.index.saturating_sub(1));
                before.is_some() && before == self.find(at.table, at.index)
            }
            _ => false,
        }
    }
}
