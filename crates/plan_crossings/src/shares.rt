// Sections by places, from those by stands.
ghost use Rattle.std.specs.Prelude.{◌≡◌, ◌≤◌, ℕ, ◌++◌, All, IfOk, OnOk, map, position};
ghost use Rattle.clash_sections.specs.Sections.{share, share_of};
ghost use Rattle.plan_crossings.specs.Sections.{places, seen_section};
ghost use Rattle.plan_crossings.specs.Stands as spec;

use crate::stands::Stand;
use crate::{Crossing, Route};
use clash_sections::StandSection;
use plan_document::SectionPlan;
use std::alloc::{AllocError, Global};
use std::marker::Model;

/// The numbers of a train's stands, at each place of its route.
#[derive(Drop)]
pub(crate) struct Row {
    numbers: Vec<Option<usize>>,
}

impl Model for Row {
    ghost use Rattle.std.specs.Prelude.{List, Option, ℕ};

    ghost Value = { List (Option ℕ) };

    ghost view = { λ r. r.numbers.items };
}

// The number of a stand among these.
fn number(stands: &[Stand], stand: &Stand) -> Option<usize>
    ensures { result ≡ position (spec.same stand.now) stands.now }
{
    stands.iter().position(|known| stand.is_same(known))
}

// The number of a train's stand at a place of its route, if it is in the layout there.
fn number_at(
    alloc: Global,
    crossing: &Crossing,
    stands: &[Stand],
    route: &[usize],
    place: usize,
) -> Result<Option<usize>, AllocError>
    ensures { IfOk result (λ number. number ≡ spec.number_at crossing.now stands.now route.now place) }
{
    match route.get(place) {
        Some(_) => {
            let stand = Stand::at(alloc, crossing, route, place)?;
            Ok(number(stands, &stand))
        }
        None => Ok(None),
    }
}

// How many places a route has, with the one after an exit.
fn places(points: &[usize], exits: bool) -> usize
    ensures { result ≡ places (record { points = points.now; exits = exits }) }
{
    if exits {
        points.len() + 1
    } else {
        points.len()
    }
}

fn numbers_of(
    alloc: Global,
    crossing: &Crossing,
    stands: &[Stand],
    route: &Route,
) -> Result<Row, AllocError>
    ensures { IfOk result (λ row. row ≡ spec.numbers_of crossing.now stands.now route.now) }
{
    let points = route.points();
    let mut numbers = Vec::new(alloc);
    for place in 0..places(points, route.exits()) {
        numbers.push(number_at(alloc, crossing, stands, points, place)?)?;
    }
    Ok(Row { numbers })
}

/// The numbers of each train's stands.
pub(crate) fn numbers(
    alloc: Global,
    crossing: &Crossing,
    routes: &[Route],
    stands: &[Stand],
) -> Result<Vec<Row>, AllocError>
    ensures { IfOk result (λ rows. rows.items ≡ spec.numbers crossing.now routes.now stands.now) }
{
    let mut found = Vec::new(alloc);
    for route in routes {
        found.push(numbers_of(alloc, crossing, stands, route)?)?;
    }
    Ok(found)
}

fn share_of(section: &StandSection, number: Option<usize>) -> u8
    requires { (a : ℕ) → share section.now a ≤ 4 }
    ensures { result ≡ share_of section.now number }
{
    match number {
        Some(stand) => section.share(stand) as u8,
        None => 0,
    }
}

// The shares of a train.
fn shares_of(alloc: Global, section: &StandSection, row: &Row) -> Result<Vec<u8>, AllocError>
    requires { (a : ℕ) → share section.now a ≤ 4 }
    ensures { IfOk result (λ shares. shares.items ≡ map (share_of section.now) row.now) }
{
    let numbers = row.numbers.as_slice();
    let mut found = Vec::new(alloc);
    for number in numbers {
        found.push(share_of(section, *number))?;
    }
    Ok(found)
}

// A section by stands as one by places.
fn section_of(
    alloc: Global,
    rows: &[Row],
    section: &StandSection,
) -> Result<SectionPlan, AllocError>
    requires { (a : ℕ) → share section.now a ≤ 4 }
    ensures { IfOk result (λ made. seen_section made ≡ spec.section_of rows.now section.now) }
{
    let mut shares = Vec::new(alloc);
    for row in rows {
        shares.push(shares_of(alloc, section, row)?)?;
    }
    Ok(SectionPlan {
        limit: section.limit(),
        shares,
    })
}

/// Adds sections by stands as ones by places.
pub(crate) fn add_sections(
    alloc: Global,
    rows: &[Row],
    sections: &[StandSection],
    found: &mut Vec<SectionPlan>,
) -> Result<(), AllocError>
    requires { All (λ s. (a : ℕ) → share s a ≤ 4) sections.now }
    ensures { OnOk result
        (map seen_section found.new.items ≡ map seen_section found.old.items ++ map (spec.section_of rows.now) sections.now) }
{
    for section in sections {
        found.push(section_of(alloc, rows, section)?)?;
    }
    Ok(())
}
