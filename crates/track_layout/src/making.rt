// The maker of layouts.
ghost use Rattle.std.specs.Prelude.{◌≡◌, ◌≤◌, not, nat_eq, nat_le, find, position, bytes_eq, [], ◌∷◌, IfOk, ◌&&◌, Some, None, length, map, zip, vec_len, string_bytes};
ghost use Rattle.std.specs.Bool.{then_some};
ghost use Rattle.std.specs.List.{list_any, range_with_len};
ghost use Rattle.std.specs.Result.{result_err};
ghost use Rattle.rail_model.specs.Turns.{AnswersAs, first_of, unless};
ghost use Rattle.track_layout.specs.Counted.{most_of};
ghost use Rattle.track_layout.specs.Making.{too_many, no_zone, bad_name, zone_range, zone_empty, unknown_point, self_link, names_of, zones_of, is_known, link_value, layout_from};
ghost use Rattle.track_layout.specs.Seen.{points_seen, links_seen, link_seen};

use crate::{LayoutRefused, Numbers, What};
use rail_model::{Layout, Link, Point, first_bad_name};
use std::alloc::{AllocError, Global};

/// The layout of these points, each with its zone, these links, and `zones` zones.
///
/// # Errors
///
/// The first thing wrong with them, in the order of `LayoutRefused`; out of memory.
pub fn layout(
    alloc: Global,
    points: Vec<(String, u32)>,
    links: &[(String, String)],
    zones: u32,
) -> Result<Layout, LayoutRefused>
    ensures { AnswersAs LayoutRefused.Memory (λ made. made) result (layout_from (points_seen points.items) (links_seen links.now) zones) }
{
    check_counts(points.len(), links.len(), zones)?;
    let (names, in_zones) = parted(alloc, points)?;
    check_names(&names)?;
    let numbers = Numbers::new(alloc, names)?;
    check_zones(&in_zones, zones)?;
    let joined = joined(alloc, &numbers, links)?;
    check_self_links(links)?;
    let points = listed(alloc, numbers.into_names(alloc)?, in_zones)?;
    Ok(Layout::new(points, joined, zones))
}

fn check_counts(points: usize, links: usize, zones: u32) -> Result<(), LayoutRefused>
    ensures { result_err result ≡ first_of (too_many What.Points 512 points ∷ too_many What.Links 2048 links ∷ too_many What.Zones 16 zones ∷ no_zone zones ∷ []) }
{
    at_most(What::Points, points)?;
    at_most(What::Links, links)?;
    at_most(What::Zones, zones as usize)?;
    if zones == 0 {
        return Err(LayoutRefused::NoZone);
    }
    Ok(())
}

fn at_most(what: What, count: usize) -> Result<(), LayoutRefused>
    ensures { result_err result ≡ too_many what (most_of what) count }
{
    if count > what.most() {
        return Err(LayoutRefused::TooMany { what, count });
    }
    Ok(())
}

// The names of the points, and the zones that they are in.
fn parted(alloc: Global, points: Vec<(String, u32)>) -> Result<(Vec<String>, Vec<u32>), AllocError>
    ensures names { IfOk result (λ parts. parts.0.items ≡ map (λ p. p.0) points.items) }
    ensures zones { IfOk result (λ parts. parts.1.items ≡ map (λ p. p.1) points.items) }
{
    let in_zones = zones_of(alloc, &points)?;
    let names = points.into_iter().map(|(name, _zone)| name).collect(alloc)?;
    Ok((names, in_zones))
}

fn zones_of(alloc: Global, points: &[(String, u32)]) -> Result<Vec<u32>, AllocError>
    ensures { IfOk result (λ zones. zones.items ≡ map (λ p. p.1) points.now) }
{
    points.iter().map(|point| point.1).collect(alloc)
}

fn check_names(names: &[String]) -> Result<(), LayoutRefused>
    requires { length names.now ≤ 512 }
    ensures { result_err result ≡ bad_name (map string_bytes names.now) }
{
    match first_bad_name(names) {
        Some(point) => Err(LayoutRefused::Name {
            point: point as u32,
        }),
        None => Ok(()),
    }
}

fn check_zones(in_zones: &[u32], zones: u32) -> Result<(), LayoutRefused>
    requires { length in_zones.now ≤ 512 }
    ensures { result_err result ≡ first_of (zone_range in_zones.now zones ∷ zone_empty in_zones.now zones ∷ []) }
{
    check_range(in_zones, zones)?;
    match first_empty(in_zones, zones) {
        Some(zone) => Err(LayoutRefused::ZoneEmpty { zone }),
        None => Ok(()),
    }
}

fn check_range(in_zones: &[u32], zones: u32) -> Result<(), LayoutRefused>
    requires { length in_zones.now ≤ 512 }
    ensures { result_err result ≡ zone_range in_zones.now zones }
{
    match first_outside(in_zones, zones) {
        Some(point) => Err(LayoutRefused::ZoneRange {
            point: point as u32,
        }),
        None => Ok(()),
    }
}

fn first_outside(in_zones: &[u32], zones: u32) -> Option<usize>
    ensures { result ≡ position (nat_le zones) in_zones.now }
{
    in_zones.iter().position(|zone| zones <= *zone)
}

fn first_empty(in_zones: &[u32], zones: u32) -> Option<u32>
    ensures { result ≡ find (λ z. not (list_any (nat_eq z) in_zones.now)) (range_with_len 0 zones) }
{
    (0..zones).find(|zone| !in_zones.contains(zone))
}

// The links by the numbers of their points.
fn joined(
    alloc: Global,
    numbers: &Numbers,
    links: &[(String, String)],
) -> Result<Vec<Link>, LayoutRefused>
    requires { length links.now ≤ 2048 }
    ensures { AnswersAs LayoutRefused.Memory (λ joined. joined.items) result (unless (unknown_point numbers.now (links_seen links.now)) (map (link_value numbers.now) (links_seen links.now))) }
{
    let mut joined = Vec::new(alloc);
    for (index, link) in links.iter().enumerate() {
        let Some(link) = join(numbers, link) else {
            return Err(LayoutRefused::UnknownPoint { link: index as u32 });
        };
        joined.push(link)?;
    }
    Ok(joined)
}

fn join(numbers: &Numbers, link: &(String, String)) -> Option<Link>
    ensures { let names = link_seen link.now in result ≡ then_some (is_known numbers.now names.0 && is_known numbers.now names.1) (link_value numbers.now names) }
{
    let first = numbers.number(&link.0)?;
    let second = numbers.number(&link.1)?;
    Some(Link::new(first, second))
}

fn check_self_links(links: &[(String, String)]) -> Result<(), LayoutRefused>
    requires { length links.now ≤ 2048 }
    ensures { result_err result ≡ self_link (links_seen links.now) }
{
    match first_self_link(links) {
        Some(link) => Err(LayoutRefused::SelfLink { link: link as u32 }),
        None => Ok(()),
    }
}

fn first_self_link(links: &[(String, String)]) -> Option<usize>
    ensures { result ≡ position (λ l. bytes_eq (string_bytes l.0) (string_bytes l.1)) links.now }
{
    links.iter().position(|link| link.0 == link.1)
}

// The points, from their names and zones.
fn listed(alloc: Global, names: Vec<String>, in_zones: Vec<u32>) -> Result<Vec<Point>, AllocError>
    ensures { IfOk result (λ points. points.items ≡ map (λ p. record { name = string_bytes p.0; zone = p.1 }) (zip names.items in_zones.items)) }
{
    names
        .into_iter()
        .zip(in_zones)
        .map(|(name, zone)| Point::new(name, zone))
        .collect(alloc)
}
