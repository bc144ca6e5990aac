// The sections of clashes.
ghost use Rattle.std.specs.Prelude.{◌≤◌, All, IfOk, IfErr, length};
ghost use Rattle.clash_sections.specs.Answer.{IsRefused};
ghost use Rattle.clash_sections.specs.Sections.{IsExact, IsSized};
ghost use Rattle.clash_sections.specs.Stands.{IsOrderly};

use crate::choosing::choose;
use crate::covering::{check, cover};
use crate::{Clashes, Refused, StandSection};
use std::alloc::Global;

// The most sections that a table has.
const MOST_SECTIONS: usize = 64;

/// Sections that forbid exactly the clashes: of the states without stands that never meet, with any number of trains, they let
/// in exactly those in which no two trains' stands clash.
pub fn sections_of(alloc: Global, clashes: &Clashes) -> Result<Vec<StandSection>, Refused>
    ensures exact { IfOk result (λ sections. IsExact clashes.now sections.items) }
    ensures few { IfOk result (λ sections. length sections.items ≤ 64) }
    ensures sized { IfOk result (λ sections. All (IsSized (length clashes.now)) sections.items) }
    ensures orderly { IfOk result (λ _. IsOrderly clashes.now) }
    ensures refused { IfErr result (IsRefused clashes.now) }
{
    check(clashes)?;
    let mut sections = choose(alloc, clashes)?;
    cover(alloc, clashes, &mut sections)?;
    if sections.len() > MOST_SECTIONS {
        return Err(Refused::Many {
            count: sections.len(),
        });
    }
    Ok(sections)
}
