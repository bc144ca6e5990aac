// The sections of crossings.
ghost use Rattle.std.specs.Prelude.{◌≤◌, ◌-◌, ℕ, All, IfOk, IfErr, OnOk, length, map};
ghost use Rattle.plan_crossings.specs.Answer.{AreSound, IsRefused, IsRefusedFor};
ghost use Rattle.plan_crossings.specs.Sections.{IsExact, IsExactFor, IsSized, seen_section};

use crate::checks::fault;
use crate::shares::{add_sections, numbers};
use crate::stands::{clashes, stands};
use crate::{Crossing, Refused, Route};
use clash_sections::{Refused as ClashesRefused, sections_of};
use plan_document::SectionPlan;
use std::alloc::Global;

// The most sections that a table has.
const MOST_SECTIONS: usize = 64;

// Refuses the first crossing with which something is wrong.
fn check(crossings: &[Crossing], routes: &[Route]) -> Result<(), Refused>
    ensures ok { OnOk result (AreSound crossings.now routes.now) }
    ensures err { IfErr result (λ e. (room : ℕ) → IsRefused crossings.now routes.now room e) }
{
    for index in 0..crossings.len() {
        if let Some(fault) = fault(&crossings[index], routes) {
            return Err(Refused::Faulty {
                crossing: index,
                fault,
            });
        }
    }
    Ok(())
}

// The sections of a crossing.
fn sections_for(
    alloc: Global,
    crossing: &Crossing,
    routes: &[Route],
) -> Result<Vec<SectionPlan>, ClashesRefused>
    ensures exact { IfOk result (λ made. IsExactFor crossing.now routes.now (map seen_section made.items)) }
    ensures sized { IfOk result (λ made. All (IsSized routes.now) (map seen_section made.items)) }
    ensures err { IfErr result (IsRefusedFor crossing.now routes.now) }
{
    let stands = stands(alloc, crossing, routes)?;
    let clashes = clashes(alloc, crossing, &stands)?;
    let sections = match sections_of(alloc, &clashes) {
        Ok(sections) => sections,
        Err(refused) => return Err(refused),
    };
    let rows = numbers(alloc, crossing, routes, &stands)?;
    let mut made = Vec::new(alloc);
    add_sections(alloc, &rows, &sections, &mut made)?;
    Ok(made)
}

/// Sections that let in exactly the states in which the ways agree that trains are on: of all states of the routes in which no two
/// trains are at one point, with any two different trains that are on ways of one crossing on parallel ones. A table that has so many
/// other sections must have room for them.
///
/// # Errors
///
/// Something is wrong with a crossing, and with none before; or there are too many sections; or memory ran out.
pub fn sections_of_crossings(
    alloc: Global,
    crossings: &[Crossing],
    routes: &[Route],
    others: usize,
) -> Result<Vec<SectionPlan>, Refused>
    ensures exact { IfOk result (λ made. IsExact crossings.now routes.now (map seen_section made.items)) }
    ensures few { IfOk result (λ made. length made.items ≤ 64 - others) }
    ensures sized { IfOk result (λ made. All (IsSized routes.now) (map seen_section made.items)) }
    ensures sound { IfOk result (λ made. AreSound crossings.now routes.now) }
    ensures refused { IfErr result (IsRefused crossings.now routes.now (64 - others)) }
{
    if let Err(refused) = check(crossings, routes) {
        return Err(refused);
    }
    let room = MOST_SECTIONS.saturating_sub(others);
    let mut found = Vec::new(alloc);
    for index in 0..crossings.len() {
        let mut made = match sections_for(alloc, &crossings[index], routes) {
            Ok(made) => made,
            Err(ClashesRefused::Many { count }) => {
                return Err(Refused::Many {
                    crossing: index,
                    count: found.len().saturating_add(count),
                });
            }
            Err(ClashesRefused::Memory) => return Err(Refused::Memory),
            Err(ClashesRefused::FreeOfItself { .. }) => unreachable!(),
        };
        found.append(&mut made)?;
        if found.len() > room {
            return Err(Refused::Many {
                crossing: index,
                count: found.len(),
            });
        }
    }
    Ok(found)
}
