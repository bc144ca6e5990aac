// The step that each actor's program makes next.
ghost use Rattle.std.specs.Prelude.{◌≡◌, ◌<◌, ℕ, [], ◌∷◌, map, find, not, ◌==◌, option_map, is_none, is_some, slice_get, if◌then◌else◌, true, false, Some, None};
ghost use Rattle.std.specs.Option.{option_or};
ghost use Rattle.std.specs.List.Sorted.{IsStrictlyIncreasing};
ghost use Rattle.rail_model.specs.Checks.{below};
ghost use Rattle.rail_model.specs.Yard.{control};
ghost use Rattle.zone_locks.specs.Zones.{has};
ghost use Rattle.move_claim.specs.declared.cells.Cell.TheVariants.{Position as PositionCell, Table as TableCell};
ghost use Rattle.move_claim.specs.Cells.{number_of, first_unknown};
ghost use Rattle.zone_machine.specs.declared.steps.Stage.TheVariants.{Aboard};
ghost use Rattle.zone_machine.specs.declared.steps.Step.TheVariants.{Release, Take, Read, Append};
ghost use Rattle.zone_machine.specs.World.{trains_of as trains_in};
ghost use Rattle.zone_machine.specs.Steps.{first_zone as least};
ghost use Rattle.zone_machine.specs.Program.{rest_of, zones_left, next as step_after, next_aboard as step_aboard};
ghost use Rattle.move_claim.specs.Claims.{claim_of, footprint_of};
ghost use Rattle.zone_machine.specs.Needs.{table_of};

use crate::control::unknown_position;
use crate::kept_needs::kept_for;
use crate::machine::Row;
use crate::refusals::{first_owed, first_zone};
use crate::{CONTROL, Core, Stage, Step};
use move_claim::{Cell, Footprint, Known};
use rail_model::{HasTable, zones_of};
use zone_locks::ZoneSet;

// The first zone is given back, where zones are to be given back and one is held.
fn release_if(go: bool, held: &ZoneSet) -> Option<Step>
    ensures { result ≡ (if go then option_map (λ z. Release z) (least held.now) else None) }
{
    if go {
        first_zone(held).map(|zone| Step::Release { zone })
    } else {
        None
    }
}

// The first zone is given back, or where none is held another step is made.
fn release_or(held: &ZoneSet, step: Step) -> Step
    ensures { Some result ≡ option_or (option_map (λ z. Release z) (least held.now)) (Some step) }
{
    match first_zone(held) {
        Some(zone) => Step::Release { zone },
        None => step,
    }
}

// Whether the zones that are held begin those that are needed, of which this one is the first that isn't held.
fn has_begun(held: &ZoneSet, needed: &ZoneSet, missing: Option<u32>) -> bool
    requires held { IsStrictlyIncreasing held.now }
    requires needed { IsStrictlyIncreasing needed.now }
    requires missing { missing ≡ find (λ z. not (has z held.now)) needed.now }
    requires low { (z : ℕ) → has z needed.now ≡ true → z < 16 }
    ensures { result ≡ is_some (rest_of held.now needed.now) }
{
    if held.first_outside(needed).is_some() {
        return false;
    }
    match missing {
        Some(zone) => held.first_from(zone).is_none(),
        None => true,
    }
}

// The next needed zone is taken, after zones that aren't needed were given back; none where all are held.
fn zone_step(held: &ZoneSet, needed: &ZoneSet) -> Option<Step>
    requires held { IsStrictlyIncreasing held.now }
    requires needed { IsStrictlyIncreasing needed.now }
    requires low { (z : ℕ) → has z needed.now ≡ true → z < 16 }
    ensures { result ≡ option_or (if is_none (rest_of held.now needed.now) then option_map (λ z. Release z) (least held.now) else None)
        (option_map (λ z. Take z) (least (zones_left held.now needed.now))) }
{
    let missing = needed.first_outside(held);
    if has_begun(held, needed, missing) {
        missing.map(|zone| Step::Take { zone })
    } else {
        first_zone(held).map(|zone| Step::Release { zone })
    }
}

// A cell that isn't known is read, and then the entry is made.
fn cell_step(unknown: Option<Cell>) -> Step
    ensures { Some result ≡ option_or (option_map (λ c. Read c) unknown) (Some Append) }
{
    match unknown {
        Some(cell) => Step::Read { cell },
        None => Step::Append,
    }
}

// Whether another table is known than this one.
fn knows_other(known: &Known, table: u32) -> bool
    ensures { result ≡ elim (number_of TableCell known.now) [ None ↦ false | Some t ↦ not (t == table) ] }
{
    match known.number(Cell::Table) {
        Some(other) => other != table,
        None => false,
    }
}

impl<'a, A: HasTable> Core<'a, A> {
    // The first of the cells that the control needs that isn't known.
    fn first_unread(&self, known: &Known) -> Option<Cell>
        ensures { result ≡ first_unknown (TableCell ∷ map (λ (i : ℕ). PositionCell i) (below (trains_in self.now.setup))) known.now }
    {
        if known.number(Cell::Table).is_none() {
            return Some(Cell::Table);
        }
        unknown_position(known, self.trains())
    }

    // The next step of the control, which neither owes a cell nor is closing.
    fn next_of_control(&self, row: &Row) -> Step
        requires there { slice_get self.now.world.actors control ≡ Some row.now }
        requires paid { row.now.owed ≡ [] }
        requires still { row.now.closing ≡ false }
        ensures { Some result ≡ step_aboard self.now.setup control row.now }
    {
        if !self.has_more(row) {
            return release_or(&row.held, Step::Leave);
        }
        let needed = ZoneSet::all(zones_of(self.layout));
        if let Some(step) = zone_step(&row.held, &needed) {
            return step;
        }
        cell_step(self.first_unread(&row.known))
    }

    // The next step of a driver that neither owes a cell nor is closing, glanced at this table and needs this.
    fn next_by(&self, number: u32, row: &Row, table: u32, needs: &Footprint) -> Step
        requires there { slice_get self.now.world.actors number ≡ Some row.now }
        requires train { number < trains_in self.now.setup }
        requires paid { row.now.owed ≡ [] }
        requires still { row.now.closing ≡ false }
        requires glance { row.now.glance ≡ Some table }
        requires needs { needs.now ≡ footprint_of self.now.setup.layout (table_of self.now.setup table) (claim_of (table_of self.now.setup table) number row.now.position 1) }
        ensures { Some result ≡ step_aboard self.now.setup number row.now }
    {
        // What holds of the core is known from here on.
        let _ = &self.layout;
        if let Some(step) = release_if(knows_other(&row.known, table), &row.held) {
            return step;
        }
        if let Some(step) = zone_step(&row.held, needs.zones()) {
            return step;
        }
        cell_step(row.known.first_unknown(needs.cells()))
    }

    // The next step of a driver that neither owes a cell nor is closing, and glanced at this table, by what it needs.
    fn next_unkept(&self, number: u32, row: &Row, table: u32) -> Step
        requires there { slice_get self.now.world.actors number ≡ Some row.now }
        requires train { number < trains_in self.now.setup }
        requires paid { row.now.owed ≡ [] }
        requires still { row.now.closing ≡ false }
        requires glance { row.now.glance ≡ Some table }
        ensures { Some result ≡ step_aboard self.now.setup number row.now }
    {
        // What holds of the core is known from here on.
        let _ = &self.layout;
        let place = row.position;
        let needs = self.needs(number, place, table, 1);
        self.next_by(number, row, table, &needs)
    }

    // The next step of a driver that neither owes a cell nor is closing.
    fn next_of_driver(&self, number: u32, row: &Row) -> Step
        requires there { slice_get self.now.world.actors number ≡ Some row.now }
        requires train { number < trains_in self.now.setup }
        requires paid { row.now.owed ≡ [] }
        requires still { row.now.closing ≡ false }
        ensures { Some result ≡ step_aboard self.now.setup number row.now }
    {
        // What holds of the core is known from here on.
        let _ = &self.layout;
        let Some(table) = row.glance else {
            return release_or(&row.held, Step::Glance);
        };
        let place = row.position;
        if let Some(needs) = kept_for(&self.kept, number, table, place, 1) {
            return self.next_by(number, row, table, needs);
        }
        self.next_unkept(number, row, table)
    }

    // The next step of an actor that is aboard.
    fn next_aboard(&self, number: u32, row: &Row) -> Step
        requires there { slice_get self.now.world.actors number ≡ Some row.now }
        requires aboard { row.now.stage ≡ Aboard }
        ensures { Some result ≡ step_aboard self.now.setup number row.now }
    {
        // What holds of the core is known from here on.
        let _ = &self.layout;
        if let Some(cell) = first_owed(&row.owed) {
            return Step::Pay { cell };
        }
        if let Some(step) = release_if(row.closing, &row.held) {
            return step;
        }
        if number == CONTROL {
            self.next_of_control(row)
        } else {
            self.next_of_driver(number, row)
        }
    }

    /// The step that the actor's program makes next; none where the actor has left or there is no such actor.
    pub fn next(&self, actor: u32) -> Option<Step>
        ensures { result ≡ step_after self.now.setup self.now.world actor }
    {
        let row = self.rows.get(actor as usize)?;
        match row.stage {
            Stage::Away => Some(Step::Board),
            Stage::Aboard => Some(self.next_aboard(actor, row)),
            Stage::Left => None,
        }
    }
}
