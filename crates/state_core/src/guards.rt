// Guards of a table, and the table with guards.
ghost use Rattle.std.specs.Prelude.{◌≡◌, ◌+◌, ◌≤◌, All, IfOk, length};
ghost use Rattle.rail_model.specs.Table.{trains};
ghost use Rattle.forbidden_states.specs.Forbid.{AreStays};
ghost use Rattle.rail_model.specs.State.{Legal};
ghost use Rattle.state_core.specs.Core.{IsCore};
ghost use Rattle.state_core.specs.Guard.{IsGuard, stays_of as stays_of_group, guarded as guarded_table};

use crate::Group;
use forbidden_states::{Stay, Stays, marked};
use rail_model::{State, Table, copy_all, copy_missions, trains_of};
use state_boxes::Span;
use std::alloc::{AllocError, Global};

/// The guard of a core: its trains, each at its place alone. The only error is that there is no memory.
pub fn stays_of(
    alloc: Global,
    table: &Table,
    state: &State,
    group: &Group,
) -> Result<Stays, AllocError>
    requires legal { Legal table.now state.now }
    requires core { IsCore table.now state.now group.now }
    ensures stays { IfOk result (λ stays. stays ≡ stays_of_group table.now state.now group.now) }
    ensures guard { IfOk result (IsGuard table.now) }
{
    let mut stays = Vec::new(alloc);
    for train in 0..trains_of(table) {
        if group.has(train) {
            let place = state.place(train);
            stays.push(Stay::new(train, Span::new(place, place)))?;
        }
    }
    Ok(Stays::from(stays))
}

/// The table with a section for each guard behind its own sections. A section's limit is one less than the number of
/// its stays, and a train's share is 1 in its span. The only error is that there is no memory.
pub fn guarded(alloc: Global, table: &Table, guards: &[Stays]) -> Result<Table, AllocError>
    requires few { length table.now.sections + length guards.now ≤ 64 }
    requires stays { All (AreStays (trains table.now)) guards.now }
    ensures { IfOk result (λ made. made ≡ guarded_table table.now guards.now) }
{
    let mut sections = copy_all(alloc, table.sections())?;
    let made = marked(alloc, copy_missions(alloc, table)?, guards)?;
    let (missions, mut more, _none) = made.into_parts();
    sections.append(&mut more)?;
    let connections = Vec::from_slice(alloc, table.connections())?;
    Ok(Table::new(missions, sections, connections))
}
