// Copies, which take memory and so may be refused.
ghost use Rattle.std.specs.Prelude.{◌≡◌, IfOk};
ghost use Rattle.rail_model.specs.Table.{IsTable};

use crate::{Changes, Mission, Missions, Section, Table};
use std::alloc::{AllocError, Global};

/// What can be made a second time.
pub trait TryCopy: Sized + Drop {
    /// An equal value, or out of memory.
    fn try_copy(&self, alloc: Global) -> Result<Self, AllocError>
        ensures equal { IfOk result (λ copy. copy ≡ self.now) };
}

/// Equal values in the same order, or out of memory.
pub fn copy_all<T: TryCopy>(alloc: Global, items: &[T]) -> Result<Vec<T>, AllocError>
    ensures { IfOk result (λ copies. copies.items ≡ items.now) }
{
    let mut copies = Vec::new(alloc);
    for item in items {
        copies.push(item.try_copy(alloc)?)?;
    }
    Ok(copies)
}

impl TryCopy for Mission {
    fn try_copy(&self, alloc: Global) -> Result<Self, AllocError> {
        let points = Vec::from_slice(alloc, self.as_slice())?;
        Ok(Mission::new(points, self.exits()))
    }
}

impl TryCopy for Changes {
    fn try_copy(&self, alloc: Global) -> Result<Self, AllocError> {
        let changes = Vec::from_slice(alloc, self.as_slice())?;
        Ok(Changes::from(changes))
    }
}

impl TryCopy for Section {
    fn try_copy(&self, alloc: Global) -> Result<Self, AllocError> {
        let changes = copy_all(alloc, self.all_changes())?;
        Ok(Section::new(self.limit(), changes))
    }
}

/// The missions of a table again.
pub fn copy_missions(alloc: Global, table: &Table) -> Result<Missions, AllocError>
    ensures { IfOk result (λ missions. missions ≡ table.now.missions) }
{
    let missions = copy_all(alloc, table.missions().as_slice())?;
    Ok(Missions::new(missions))
}

/// A table again.
pub fn copy_table(alloc: Global, table: &Table) -> Result<Table, AllocError>
    ensures { IfOk result (λ copy. copy ≡ table.now) }
{
    let missions = copy_missions(alloc, table)?;
    let sections = copy_all(alloc, table.sections())?;
    let connections = Vec::from_slice(alloc, table.connections())?;
    Ok(Table::new(missions, sections, connections))
}
