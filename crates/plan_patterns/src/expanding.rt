// A plan that is checked, and written out.
ghost use Rattle.std.specs.Prelude.{◌≡◌, true, IfOk, MatchOption};
ghost use Rattle.toml.specs.View.{table_view};
ghost use Rattle.plan_entries.specs.Told.{has_fault};
ghost use Rattle.plan_patterns.specs.Expanded.{expanded};

use crate::checks::{check, origins_of};
use crate::writing::written_out;
use plan_entries::{Entry, Faults, Kind};
use std::alloc::AllocError;
use toml::Table;

/// A plan without its patterns, counts and ways: with all that they stand for written out. None, if there is a fault: all that
/// is wrong with them is written. Faults that are found afterwards are of the trains that are written out, and in the lines of the
/// entries that these come from.
pub fn expand(faults: &mut Faults, text: Table) -> Result<Option<Table>, AllocError>
    ensures { IfOk result (λ plan. MatchOption plan (has_fault faults.new ≡ true) (λ plan. table_view plan ≡ expanded (table_view text))) }
{
    let top = Entry::part(Kind::Top, Some(&text));
    check(faults, &top);
    if !faults.is_empty() {
        return Ok(None);
    }
    let origins = origins_of(faults, &top);
    faults.set_origins(origins);
    Ok(Some(written_out(faults.alloc(), text)?))
}
