// The names of points and trains together.
ghost use Rattle.std.specs.Prelude.{◌≡◌, IfOk, map, string_bytes};
ghost use Rattle.rail_model.specs.Layout.{point_names};

use crate::Trains;
use rail_model::{Layout, Names, Point};
use std::alloc::{AllocError, Global};

/// What the points of a layout and the trains are called.
pub fn names(alloc: Global, layout: &Layout, trains: &Trains) -> Result<Names, AllocError>
    ensures { IfOk result (λ names. names ≡ record { points = point_names layout.now; trains = trains.now }) }
{
    let points = names_of_points(alloc, layout.points())?;
    let trains = names_of_trains(alloc, trains.names())?;
    Ok(Names::new(points, trains))
}

pub(crate) fn names_of_points(alloc: Global, points: &[Point]) -> Result<Vec<String>, AllocError>
    ensures { IfOk result (λ names. map string_bytes names.items ≡ map (λ p. p.name) points.now) }
{
    let mut names = Vec::new(alloc);
    for point in points {
        names.push(String::from_str(alloc, point.name())?)?;
    }
    Ok(names)
}

fn names_of_trains(alloc: Global, trains: &[String]) -> Result<Vec<String>, AllocError>
    ensures { IfOk result (λ names. map string_bytes names.items ≡ map string_bytes trains.now) }
{
    trains.to_vec(alloc)
}
