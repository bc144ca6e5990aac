// What the next steps of drivers need, kept from a glance on.
ghost use Rattle.std.specs.Prelude.{◌≡◌, ◌<◌, IfOk, IfSome, length};
ghost use Rattle.move_claim.specs.Claims.{claim_of, footprint_of};
ghost use Rattle.zone_machine.specs.Keeping.{AreKept};
ghost use Rattle.zone_machine.specs.Needs.{table_of};
ghost use Rattle.zone_machine.specs.World.{Setup, trains_of as trains_in};

use crate::Core;
use move_claim::Footprint;
use rail_model::HasTable;
use std::alloc::{AllocError, Global};
use std::marker::Model;

/// What a driver's next step needs at a place, under the table of a number, if one is kept.
#[derive(Drop)]
pub(crate) struct Kept<'a> {
    pub(crate) table: Option<u32>,
    pub(crate) place: u32,
    pub(crate) needs: Footprint<'a>,
}

impl<'a> Model for Kept<'a> {
    ghost use Rattle.zone_machine.specs.Keeping.{Kept as KeptValue};

    ghost Value = { KeptValue };

    ghost view = { λ k. record { table = k.table; place = k.place; needs = k.needs } };
}

/// Nothing is kept for any actor.
pub(crate) fn nothing_kept<'a>(alloc: Global) -> Result<Vec<Kept<'a>>, AllocError>
    ensures { IfOk result (λ kept. (S : Setup) → AreKept S kept.items) }
{
    let mut kept = Vec::new(alloc);
    for _number in 0..33_u32 {
        kept.push(Kept {
            table: None,
            place: 0,
            needs: Footprint::new(),
        })?;
    }
    Ok(kept)
}

/// What is kept of a driver's next steps, where it is of this table, this place and this many steps.
pub(crate) fn kept_for<'k, 'a>(
    kept: &'k [Kept<'a>],
    number: u32,
    table: u32,
    place: u32,
    steps: u32,
) -> Option<&'k Footprint<'a>>
    ensures { IfSome result (λ needs. (S : Setup) → AreKept S kept.now
        → needs.now ≡ footprint_of S.layout (table_of S table) (claim_of (table_of S table) number place steps)) }
{
    let own = kept.get(number as usize)?;
    match own.table {
        Some(known) if known == table && own.place == place && steps == 1 => Some(&own.needs),
        _ => None,
    }
}

impl<'a, A: HasTable> Core<'a, A> {
    // Keeps what the next step of a driver at this place needs under a table.
    fn keep_at(&mut self, number: u32, table: u32, place: u32)
        requires table { table < length self.old.setup.tables }
        requires train { number < trains_in self.old.setup }
        ensures { self.new ≡ self.old }
    {
        let needs = self.needs(number, place, table, 1);
        if (number as usize) < self.kept.len() {
            self.kept[number as usize] = Kept {
                table: Some(table),
                place,
                needs,
            };
        }
    }

    /// Keeps what a driver's next step needs under the table that it glanced at.
    pub(crate) fn keep(&mut self, number: u32)
        requires { number < length self.old.world.actors }
        ensures { self.new ≡ self.old }
    {
        let row = &self.rows[number as usize];
        let Some(table) = row.glance else {
            return;
        };
        let place = row.position;
        if self.trains() <= number || kept_for(&self.kept, number, table, place, 1).is_some() {
            return;
        }
        self.keep_at(number, table, place);
    }
}
