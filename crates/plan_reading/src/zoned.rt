// Whether points are in the zones that a text puts them into.
ghost use Rattle.std.specs.Prelude.{◌≡◌, ◌<◌, decimal, option_map};
ghost use Rattle.toml.specs.View.{items_view, view};
ghost use Rattle.plan_reading.specs.Zoned as spec;

use crate::matching::{has_name, list_at};
use toml::Value;

// The numbers of the zones, as they are written.
const NUMBERS: [&str; 16] = [
    "0", "1", "2", "3", "4", "5", "6", "7", "8", "9", "10", "11", "12", "13", "14", "15",
];

// The number of a zone, as it is written.
fn number_of(zone: u32) -> &'static str
    requires { zone < 16 }
    ensures { result.now ≡ decimal zone }
{
    NUMBERS[zone as usize]
}

// The list of a zone.
fn list_of(zones: Option<&Value>, zone: u32) -> Option<&[Value]>
    requires { zone < 16 }
    ensures { option_map (λ values. items_view values.now) result ≡ spec.list_of (option_map (λ v. view v.now) zones.entry) zone }
{
    list_at(zones, number_of(zone))
}

// Whether the list of a zone has a point.
fn lists(zones: Option<&Value>, zone: u32, point: &String) -> bool
    requires { zone < 16 }
    ensures { result ≡ spec.lists (spec.list_of (option_map (λ v. view v.now) zones.entry) zone) point.now }
{
    match list_of(zones, zone) {
        Some(values) => has_name(values, point),
        None => false,
    }
}

// The zone of a point: 0, if no list has it.
#[tactic(auto, using(crate::proofs::Numbered::first_turn, crate::proofs::Numbered::first_end))]
fn zone_of(zones: Option<&Value>, point: &String) -> u32
    ensures { result ≡ spec.zone_of (option_map (λ v. view v.now) zones.entry) point.now }
{
    for zone in 1..16u32 {
        if lists(zones, zone, point) {
            return zone;
        }
    }
    0
}

/// Whether each of these points has the zone that it is put into.
pub(crate) fn are_zoned(zones: Option<&Value>, points: &[(String, u32)]) -> bool
    ensures { result ≡ spec.are_zoned (option_map (λ v. view v.now) zones.entry) points.now }
{
    points
        .iter()
        .all(|(point, zone)| *zone == zone_of(zones, point))
}
