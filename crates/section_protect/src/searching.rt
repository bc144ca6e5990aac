// Certificates by search.
use crate::{Finder, Finding};
use cert_search::{Effort, Found, Report, Watcher, find};
use rail_model::Table;
use std::alloc::{AllocError, Global};

/// Looks for certificates of at most `budget` nodes, by the searches of an effort. The watcher sees how far
/// they are.
#[derive(Drop)]
pub struct Searching<'a, W> {
    pub budget: u32,
    pub effort: Effort,
    pub watcher: &'a W,
}

impl<W: Watcher> Finder for Searching<'_, W> {
    fn find(&self, alloc: Global, table: &Table) -> Result<Finding, AllocError> {
        let Report {
            found,
            searches: _searches,
        } = find(alloc, table, self.budget, self.effort, self.watcher)?;
        match found {
            Found::Cert(cert) => Ok(Finding::Cert(cert)),
            Found::Stuck(at) => Ok(Finding::Stuck(at)),
            Found::GaveUp { nodes } => Ok(Finding::GaveUp { nodes }),
        }
    }
}
