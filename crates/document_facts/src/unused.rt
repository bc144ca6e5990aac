// Points, links and zones that no train ever uses.
ghost use Rattle.std.specs.Prelude.{◌<◌, ◌+◌, ◌↔◌, IsTrue, length, Contains};
ghost use Rattle.document_facts.specs.Adding.{Adds};
ghost use Rattle.document_facts.specs.Counting.{Counts, IsAmongFirst};
ghost use Rattle.document_facts.specs.Facts.{Holds, IsUnusedPoint, named};
ghost use Rattle.document_facts.specs.Kinds.{OfLayout, OfLink, OfLinks, OfMoreLinks, OfPoint, OfPoints, OfZone, OfZones};
ghost use Rattle.document_facts.specs.Used.{GoAlong, IsEntered, IsEnteredAt, IsJoined, IsUnusedLink, IsUsed, IsVisited, Joins, LeadsTo, Uses, Visits};

use crate::fact::Fact;
use crate::found::Found;
use document_json::{Doc, layout_of, table_of, tables_of};
use rail_model::{Layout, Link, Mission, Table, points_of, trains_of, zone_of, zones_of};

// This many unused links are named.
const NAMED: usize = 8;

// Whether a mission comes to a point.
fn comes_to(mission: &Mission, point: u32) -> bool
    ensures { IsTrue result ↔ Contains mission.now.points point }
{
    mission.as_slice().contains(&point)
}

// Whether some mission of a table comes to a point.
fn visits(table: &Table, point: u32) -> bool
    ensures { IsTrue result ↔ Visits table.now point }
{
    for train in 0..trains_of(table) {
        if comes_to(table.missions().mission(train), point) {
            return true;
        }
    }
    false
}

// Whether some mission comes to a point.
fn is_visited(doc: &Doc, point: u32) -> bool
    ensures { IsTrue result ↔ IsVisited doc.now point }
{
    for table in 0..tables_of(doc) {
        if visits(table_of(doc, table), point) {
            return true;
        }
    }
    false
}

// Whether a link leads to a point.
fn leads_to(link: Link, point: u32) -> bool
    ensures { IsTrue result ↔ LeadsTo link point }
{
    link.first() == point || link.second() == point
}

// Whether some link leads to a point.
fn is_joined(layout: &Layout, point: u32) -> bool
    ensures { IsTrue result ↔ IsJoined layout.now point }
{
    let links = layout.links();
    for number in 0..links.len() {
        if leads_to(links[number], point) {
            return true;
        }
    }
    false
}

// Whether a link joins two points, in either direction.
fn joins(link: Link, from: u32, to: u32) -> bool
    ensures { IsTrue result ↔ Joins link from to }
{
    link.first() == from && link.second() == to || link.first() == to && link.second() == from
}

// Whether points in a row are those of a link, in either direction.
fn goes_along(points: &[u32], link: Link) -> bool
    ensures { IsTrue result ↔ GoAlong points.now link }
{
    for place in 1..points.len() {
        if joins(link, points[place - 1], points[place]) {
            return true;
        }
    }
    false
}

// Whether some mission of a table goes along a link.
fn uses(table: &Table, link: Link) -> bool
    ensures { IsTrue result ↔ Uses table.now link }
{
    for train in 0..trains_of(table) {
        if goes_along(table.missions().mission(train).as_slice(), link) {
            return true;
        }
    }
    false
}

// Whether some mission goes along a link.
fn is_used(doc: &Doc, link: Link) -> bool
    ensures { IsTrue result ↔ IsUsed doc.now link }
{
    for table in 0..tables_of(doc) {
        if uses(table_of(doc, table), link) {
            return true;
        }
    }
    false
}

// Whether a point is in a zone and a mission comes to it.
fn is_entered_at(doc: &Doc, point: u32, zone: u32) -> bool
    requires { point < length doc.now.layout.points }
    ensures { IsTrue result ↔ IsEnteredAt doc.now zone point }
{
    zone_of(layout_of(doc), point) == zone && is_visited(doc, point)
}

// Whether a mission comes to some point of a zone.
fn is_entered(doc: &Doc, zone: u32) -> bool
    ensures { IsTrue result ↔ IsEntered doc.now zone }
{
    for point in 0..points_of(layout_of(doc)) {
        if is_entered_at(doc, point, zone) {
            return true;
        }
    }
    false
}

// Whether neither a mission nor a link leads to a point.
fn is_unused_point(doc: &Doc, point: u32) -> bool
    ensures { IsTrue result ↔ IsUnusedPoint doc.now point }
{
    !is_joined(layout_of(doc), point) && !is_visited(doc, point)
}

// Finds that neither a mission nor a link leads to a point, if none does.
fn find_point(found: &mut Found, doc: &Doc, point: u32)
    requires { point < length doc.now.layout.points }
    ensures { Adds (Holds doc.now) (OfPoint doc.now point) found.old found.new }
{
    found.add_if(is_unused_point(doc, point), Fact::PointUnused { point });
}

// Finds the points to which neither a mission nor a link leads.
fn find_points(found: &mut Found, doc: &Doc)
    ensures { Adds (Holds doc.now) (OfPoints doc.now) found.old found.new }
{
    for point in 0..points_of(layout_of(doc)) {
        find_point(found, doc, point);
    }
}

// Whether no mission goes along the link of a number.
fn is_unused_link(doc: &Doc, number: usize) -> bool
    requires { number < length doc.now.layout.links }
    ensures { IsTrue result ↔ IsUnusedLink doc.now number }
{
    !is_used(doc, layout_of(doc).links()[number])
}

// Whether a link is one of the first unused ones, where so many links before it are unused.
fn is_named(doc: &Doc, link: usize, is_unused: bool, count: usize) -> bool
    requires unused { IsTrue is_unused ↔ IsUnusedLink doc.now link }
    requires counted { Counts (IsUnusedLink doc.now) link count }
    ensures { IsTrue result ↔ IsAmongFirst (IsUnusedLink doc.now) named link }
{
    // Read for the clause alone, which is about the document.
    let _points = points_of(layout_of(doc));
    is_unused && count < NAMED
}

// How many links are unused up to one, where so many are before it.
fn count_with(doc: &Doc, link: usize, is_unused: bool, count: usize) -> usize
    requires unused { IsTrue is_unused ↔ IsUnusedLink doc.now link }
    requires counted { Counts (IsUnusedLink doc.now) link count }
    requires link { link < length doc.now.layout.links }
    ensures { Counts (IsUnusedLink doc.now) (link + 1) result }
{
    // Read for the proof: the links are few.
    let _links = layout_of(doc).links();
    if is_unused {
        count.saturating_add(1)
    } else {
        count
    }
}

// Finds that no mission goes along a link, if none does and it is one of the first such ones; and how many there are with it.
fn find_link(found: &mut Found, doc: &Doc, link: usize, count: usize) -> usize
    requires counted { Counts (IsUnusedLink doc.now) link count }
    requires link { link < length doc.now.layout.links }
    ensures adds { Adds (Holds doc.now) (OfLink doc.now link) found.old found.new }
    ensures counted { Counts (IsUnusedLink doc.now) (link + 1) result }
{
    let is_unused = is_unused_link(doc, link);
    found.add_if(
        is_named(doc, link, is_unused, count),
        Fact::LinkUnused { link },
    );
    count_with(doc, link, is_unused, count)
}

// Finds how many unused links there are beside the first ones, where there are so many in all.
fn find_more_links(found: &mut Found, doc: &Doc, count: usize)
    requires { Counts (IsUnusedLink doc.now) (length doc.now.layout.links) count }
    ensures { Adds (Holds doc.now) (OfMoreLinks doc.now) found.old found.new }
{
    if NAMED < count {
        let more = count - NAMED;
        found.add_if(true, Fact::MoreLinksUnused { more });
    }
}

// Finds the links along which no mission goes: the first of them by name, and how many more there are.
fn find_links(found: &mut Found, doc: &Doc)
    ensures { Adds (Holds doc.now) (OfLinks doc.now) found.old found.new }
{
    let mut count: usize = 0;
    for link in 0..layout_of(doc).links().len() {
        count = find_link(found, doc, link, count);
    }
    find_more_links(found, doc, count);
}

// Whether no mission comes to a zone.
fn is_left_out(doc: &Doc, zone: u32) -> bool
    ensures { IsTrue result ↔ (IsEntered doc.now zone → ⊥) }
{
    !is_entered(doc, zone)
}

// Finds that no mission comes to a zone, if none does.
fn find_zone(found: &mut Found, doc: &Doc, zone: u32)
    requires { zone < doc.now.layout.zones }
    ensures { Adds (Holds doc.now) (OfZone doc.now zone) found.old found.new }
{
    found.add_if(is_left_out(doc, zone), Fact::ZoneUnused { zone });
}

// Finds the zones to which no mission comes.
fn find_zones(found: &mut Found, doc: &Doc)
    ensures { Adds (Holds doc.now) (OfZones doc.now) found.old found.new }
{
    for zone in 0..zones_of(layout_of(doc)) {
        find_zone(found, doc, zone);
    }
}

/// Finds the points, links and zones of a document that no mission uses.
pub(crate) fn find_layout(found: &mut Found, doc: &Doc)
    ensures { Adds (Holds doc.now) (OfLayout doc.now) found.old found.new }
{
    find_points(found, doc);
    find_links(found, doc);
    find_zones(found, doc);
}
