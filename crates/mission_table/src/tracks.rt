// A layout with its names and its links at hand.
ghost use Rattle.std.specs.Prelude.{◌≡◌, IfOk};
ghost use Rattle.rail_model.specs.Layout.{point_names};

use crate::naming::names_of_points;
use rail_model::{Layout, points_of};
use std::alloc::{AllocError, Global};
use std::marker::Model;
use track_layout::Numbers;

/// A layout, the numbers of its points by name, and for each two points whether a link joins them.
#[derive(Drop)]
pub(crate) struct Tracks<'a> {
    layout: &'a Layout,
    numbers: Numbers,
    // A row for each point, with a mark at each point that it is linked to.
    marks: Vec<bool>,
}

impl<'a> Model for Tracks<'a> {
    ghost use Rattle.std.specs.Prelude.{◌≡◌};
    ghost use Rattle.rail_model.specs.Layout.{Layout as LayoutValue, IsLayout, point_names};
    ghost use Rattle.mission_table.specs.Marks.{AreMarks};

    ghost Value = { LayoutValue };

    ghost view = { λ t. t.layout.now };

    ghost invariant = { λ t. IsLayout t.layout.now × (t.numbers ≡ point_names t.layout.now) × AreMarks t.layout.now t.marks.items };
}

impl<'a> Tracks<'a> {
    ghost use Rattle.std.specs.Prelude.{◌≡◌, ◌<◌, IfOk, IfSome, length, position, bytes_eq};
    ghost use Rattle.rail_model.specs.Layout.{IsLayout, point_names};
    ghost use Rattle.mission_table.specs.Ways.{are_linked};

    /// Numbers the names of a layout and marks its links.
    pub(crate) fn new(alloc: Global, layout: &'a Layout) -> Result<Self, AllocError>
        ensures same { IfOk result (λ tracks. tracks ≡ layout.now) }
        ensures formed { IfOk result (λ tracks. IsLayout tracks) }
    {
        let numbers = numbers_of(alloc, layout)?;
        let points = points_of(layout) as usize;
        let mut marks = vec![in alloc; false; points * points]?;
        for link in layout.links() {
            let first = link.first() as usize;
            let second = link.second() as usize;
            marks[first * points + second] = true;
            marks[second * points + first] = true;
        }
        Ok(Tracks {
            layout,
            numbers,
            marks,
        })
    }

    /// The number of the point with a name.
    pub(crate) fn number_of(&self, name: &str) -> Option<u32>
        ensures first { result ≡ position (bytes_eq name.now) (point_names self.now) }
        ensures inside { IfSome result (λ q. q < length self.now.points) }
    {
        self.numbers.number(name)
    }

    /// Whether a link joins the two points.
    pub(crate) fn are_linked(&self, a: u32, b: u32) -> bool
        requires { b < length self.now.points }
        ensures { result ≡ are_linked self.now a b }
    {
        let points = points_of(self.layout) as usize;
        let place = a as usize * points + b as usize;
        self.marks.get(place).copied().unwrap_or(false)
    }
}

// The numbers of the points by name.
fn numbers_of(alloc: Global, layout: &Layout) -> Result<Numbers, AllocError>
    ensures { IfOk result (λ numbers. numbers ≡ point_names layout.now) }
{
    let names = names_of_points(alloc, layout.points())?;
    // No name comes twice in a layout, so memory alone can be wanting.
    match Numbers::new(alloc, names) {
        Ok(numbers) => Ok(numbers),
        Err(_) => Err(AllocError),
    }
}
