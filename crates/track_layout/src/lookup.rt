// The number of a point by its name.
ghost use Rattle.std.specs.Prelude.{◌≡◌, ◌≤◌, ◌↔◌, Some, IsNone, IfSome, Contains, length, slice_get, position, bytes_eq};
ghost use Rattle.rail_model.specs.Layout.{point_names};

use rail_model::{Layout, Point};

/// The number of the point with a name; none exactly where no point has it.
pub fn number_of(layout: &Layout, name: &str) -> Option<u32>
    ensures first { result ≡ position (bytes_eq name.now) (point_names layout.now) }
    ensures found { IfSome result (λ q. slice_get (point_names layout.now) q ≡ Some name.now) }
    ensures none { IsNone result ↔ (Contains (point_names layout.now) name.now → ⊥) }
{
    let point = place_of(layout.points(), name)?;
    Some(point as u32)
}

fn place_of(points: &[Point], name: &str) -> Option<usize>
    ensures { result ≡ position (λ p. bytes_eq name.now p.name) points.now }
{
    points.iter().position(|point| name == point.name())
}
