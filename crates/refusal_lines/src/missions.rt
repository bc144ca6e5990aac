// The words on a table's missions.
ghost use Rattle.std.specs.Prelude.{◌≡◌, ◌++◌, OnOk, string_bytes};
ghost use Rattle.refusal_lines.specs.Missions.{missions_words};

use crate::fields::tell;
use mission_table::MissionRefused;
use std::alloc::AllocError;

/// Adds what is wrong with the missions of a table.
pub fn write_missions(
    out: &mut String,
    table: usize,
    refused: &MissionRefused,
) -> Result<(), AllocError>
    ensures { OnOk result (string_bytes out.new ≡ string_bytes out.old ++ missions_words table refused.now) }
{
    match *refused {
        MissionRefused::Length { train, count } =>
            tell!(out; "12 Length table=" table, " train=" train, " count=" count),
        MissionRefused::UnknownPoint { train, place } =>
            tell!(out; "13 UnknownPoint table=" table, " train=" train, " place=" place),
        MissionRefused::NotLinked { train, place } =>
            tell!(out; "14 NotLinked table=" table, " train=" train, " place=" place),
        MissionRefused::Lists { count } => tell!(out; "16 Lists table=" table, " count=" count),
        MissionRefused::Exits { count } => tell!(out; "18 Exits table=" table, " count=" count),
        MissionRefused::Memory => out.push_str("202 Memory"),
    }
}
