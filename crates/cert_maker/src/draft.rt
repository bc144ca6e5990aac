// What is kept of a table when the next one is worked on.
ghost use Rattle.std.specs.Prelude.{IfOk};
ghost use Rattle.cert_maker.specs.Draft.{IsDraft};

use crate::Made;
use rail_model::{Node, Table};
use state_boxes::Lists;
use std::alloc::{AllocError, Global};
use std::marker::Model;

/// The lists of a table, and a beginning of the nodes that the rule writes of it.
#[derive(Drop)]
pub struct Draft {
    pub(crate) lists: Lists,
    pub(crate) nodes: Vec<Node>,
}

impl Model for Draft {
    ghost use Rattle.cert_maker.specs.Draft.{Draft as DraftValue};

    ghost Value = { DraftValue };

    ghost view = { λ d. record { lists = d.lists; nodes = d.nodes.items } };
}

impl Draft {
    ghost use Rattle.std.specs.Prelude.{IfOk};
    ghost use Rattle.cert_maker.specs.Draft.{IsDraft};

    /// Nothing is written yet.
    pub fn empty(alloc: Global, table: &Table) -> Result<Draft, AllocError>
        ensures { IfOk result (IsDraft table.now) }
    {
        let lists = Lists::new(alloc, table)?;
        let nodes = Vec::new(alloc);
        Ok(Draft { lists, nodes })
    }
}

/// An answer, and the draft that is left of it.
#[derive(Drop)]
pub struct Remade {
    pub made: Made,
    pub draft: Draft,
}
