// What holds of every exchange: laws of the definitions, with no code.
ghost use Rattle.std.specs.Prelude.{◌≡◌, ℕ, List};
ghost use Rattle.rail_model.specs.declared.types.Entry.{Entry as EntryValue};
ghost use Rattle.rail_model.specs.declared.types.Line.{Line as LineValue};
ghost use Rattle.rail_model.specs.declared.types.Tried.TheVariants.{Exchanged};
ghost use Rattle.rail_model.specs.Checks.{AdmittedAgrees};
ghost use Rattle.rail_model.specs.Exchange.{Admits};
ghost use Rattle.rail_model.specs.Journal.{IsRight, after_lines};
ghost use Rattle.rail_model.specs.State.{Legal};
ghost use Rattle.rail_model.specs.Table.{Table, trains};
ghost use Rattle.rail_model.specs.Yard.{Offer, Yard, IsHistory, after};
ghost use Rattle.table_exchange.specs.Tables.{AreTables, Stands};

/// A state that is legal for the old table is legal for the one that takes over.
pub fn admitted_stays_legal()
    ensures { (T new : Table) (p : List ℕ) → trains new ≡ trains T → Legal T p → Admits T new p Exchanged → Legal new p }
{}

/// A table that is due is admitted exactly where the test of [`admit`](crate::admit)'s definition says so, for the same cause.
pub fn each_admission_is_computed()
    ensures { AdmittedAgrees }
{}

/// Right lines lead from a legal state of the yard to a legal one, and so does a history.
pub fn histories_keep_standing()
    ensures lines { (tables : List Offer) (y : Yard) (lines : List LineValue)
        → AreTables tables → Stands tables y → IsRight tables y lines → Stands tables (after_lines y lines) }
    ensures history { (tables : List Offer) (y : Yard) (h : List EntryValue)
        → AreTables tables → Stands tables y → IsHistory tables y h → Stands tables (after y h) }
{}
