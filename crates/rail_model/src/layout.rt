// A layout, as contracts see it: points, links and the number of zones.
ghost use Rattle.std.specs.Prelude.{◌≡◌, ◌<◌, ◌↔◌, ◌⊎◌, IsTrue, length, string_bytes};
ghost use Rattle.rail_model.specs.Layout.{IsLayout, AreLinked, zone, home};

use std::marker::Model;

/// A point's name and its zone.
#[derive(Drop)]
pub struct Point {
    name: String,
    zone: u32,
}

impl Model for Point {
    ghost use Rattle.std.specs.Prelude.{string_bytes};
    ghost use Rattle.rail_model.specs.Layout.{Point as PointValue};

    ghost Value = { PointValue };

    ghost view = { λ p. record { name = string_bytes p.name; zone = p.zone } };
}

impl Point {
    pub fn new(name: String, zone: u32) -> Self
        ensures { result ≡ record { name = string_bytes name; zone = zone } }
    {
        Point { name, zone }
    }

    pub fn name(&self) -> &str
        ensures { result.now ≡ self.now.name }
    {
        self.name.as_str()
    }

    pub fn zone(&self) -> u32
        ensures { result ≡ self.now.zone }
    {
        self.zone
    }
}

/// Two points with a way from each to the other.
#[derive(Clone, Copy, Debug, PartialEq, Eq)]
pub struct Link {
    first: u32,
    second: u32,
}

impl Model for Link {
    ghost use Rattle.rail_model.specs.Layout.{Link as LinkValue};

    ghost Value = { LinkValue };

    ghost view = { λ k. record { first = k.first; second = k.second } };

    ghost inverse = { λ k. record { first = k.first; second = k.second } };
}

impl Link {
    pub fn new(first: u32, second: u32) -> Self
        ensures { result ≡ record { first = first; second = second } }
    {
        Link { first, second }
    }

    pub fn first(&self) -> u32
        ensures { result ≡ self.now.first }
    {
        self.first
    }

    pub fn second(&self) -> u32
        ensures { result ≡ self.now.second }
    {
        self.second
    }
}

/// Points, links and zones that fit together.
#[derive(Drop)]
pub struct Layout {
    points: Vec<Point>,
    links: Vec<Link>,
    zones: u32,
}

impl Model for Layout {
    ghost use Rattle.rail_model.specs.Layout.{Layout as LayoutValue, IsLayout};

    ghost Value = { LayoutValue };

    ghost view = { λ l. record { points = l.points.items; links = l.links.items; zones = l.zones } };

    ghost invariant = { λ l. IsLayout (record { points = l.points.items; links = l.links.items; zones = l.zones }) };
}

impl Layout {
    pub fn new(points: Vec<Point>, links: Vec<Link>, zones: u32) -> Self
        requires { IsLayout (record { points = points.items; links = links.items; zones = zones }) }
        ensures { result ≡ record { points = points.items; links = links.items; zones = zones } }
    {
        Layout {
            points,
            links,
            zones,
        }
    }

    pub fn points(&self) -> &[Point]
        ensures points { result.now ≡ self.now.points }
        ensures formed { IsLayout self.now }
    {
        &self.points
    }

    /// The links as they were given, doubles and directions kept.
    pub fn links(&self) -> &[Link]
        ensures links { result.now ≡ self.now.links }
        ensures formed { IsLayout self.now }
    {
        &self.links
    }
}

/// The number of points.
pub fn points_of(layout: &Layout) -> u32
    ensures count { result ≡ length layout.now.points }
    ensures formed { IsLayout layout.now }
{
    layout.points.len() as u32
}

/// The number of zones.
pub fn zones_of(layout: &Layout) -> u32
    ensures count { result ≡ layout.now.zones }
    ensures formed { IsLayout layout.now }
{
    layout.zones
}

/// The zone of a point.
pub fn zone_of(layout: &Layout, point: u32) -> u32
    requires { point < length layout.now.points }
    ensures zone { result ≡ zone layout.now point }
    ensures formed { IsLayout layout.now }
{
    layout.points[point as usize].zone()
}

/// The zone that a section belongs to.
pub fn home_of(layout: &Layout, section: u32) -> u32
    ensures home { result ≡ home layout.now section }
    ensures formed { IsLayout layout.now }
{
    section % zones_of(layout)
}

/// Whether a link joins the two points.
pub fn are_linked(layout: &Layout, a: u32, b: u32) -> bool
    ensures { IsTrue result ↔ AreLinked layout.now a b }
{
    let links = layout.links();
    links.contains(&Link::new(a, b)) || links.contains(&Link::new(b, a))
}
