// The words on layouts and trains.
ghost use Rattle.std.specs.Prelude.{◌≡◌, ◌++◌, OnOk, string_bytes};
ghost use Rattle.refusal_lines.specs.Layouts.{layout_words, trains_words};

use crate::fields::tell;
use mission_table::TrainRefused;
use std::alloc::AllocError;
use track_layout::LayoutRefused;

/// Adds what is wrong with a layout.
pub fn write_layout(out: &mut String, refused: &LayoutRefused) -> Result<(), AllocError>
    ensures { OnOk result (string_bytes out.new ≡ string_bytes out.old ++ layout_words refused.now) }
{
    match *refused {
        LayoutRefused::TooMany { what, count } => {
            let what = what.name();
            write!(out, "1 TooMany what={what} count={count}")
        }
        LayoutRefused::DoubleName { first, second } =>
            tell!(out; "2 DoubleName first=" first, " second=" second),
        LayoutRefused::UnknownPoint { link } => tell!(out; "3 UnknownPoint link=" link),
        LayoutRefused::SelfLink { link } => tell!(out; "4 SelfLink link=" link),
        LayoutRefused::ZoneRange { point } => tell!(out; "5 ZoneRange point=" point),
        LayoutRefused::ZoneEmpty { zone } => tell!(out; "6 ZoneEmpty zone=" zone),
        LayoutRefused::Name { point } => tell!(out; "7 Name point=" point),
        LayoutRefused::NoZone => out.push_str("8 NoZone"),
        LayoutRefused::Memory => out.push_str("202 Memory"),
    }
}

/// Adds what is wrong with trains.
pub fn write_trains(out: &mut String, refused: &TrainRefused) -> Result<(), AllocError>
    ensures { OnOk result (string_bytes out.new ≡ string_bytes out.old ++ trains_words refused.now) }
{
    match *refused {
        TrainRefused::TooMany { count } => tell!(out; "11 TooMany count=" count),
        TrainRefused::DoubleName { first, second } =>
            tell!(out; "15 DoubleName first=" first, " second=" second),
        TrainRefused::Name { train } => tell!(out; "17 Name train=" train),
        TrainRefused::Memory => out.push_str("202 Memory"),
    }
}
