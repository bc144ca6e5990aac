// The words on a table's certificate.
ghost use Rattle.std.specs.Prelude.{◌≡◌, ◌++◌, OnOk, string_bytes};
ghost use Rattle.refusal_lines.specs.Certificates.{tree_words, bad_words};

use crate::fields::tell;
use cert_tree::CertRefused;
use rail_model::Bad;
use std::alloc::AllocError;

/// Adds why a list of nodes spells no certificate of a table.
pub fn write_tree(out: &mut String, table: u32, refused: &CertRefused) -> Result<(), AllocError>
    ensures { OnOk result (string_bytes out.new ≡ string_bytes out.old ++ tree_words table refused.now) }
{
    match *refused {
        CertRefused::Short { missing } => tell!(out; "41 Short table=" table, " missing=" missing),
        CertRefused::Over { used } => tell!(out; "42 Over table=" table, " used=" used),
        CertRefused::TooMany { count } => tell!(out; "43 TooMany table=" table, " count=" count),
    }
}

/// Adds the first bad node of a table's certificate, and what it lacks.
pub fn write_bad(out: &mut String, table: u32, bad: &Bad) -> Result<(), AllocError>
    ensures { OnOk result (string_bytes out.new ≡ string_bytes out.old ++ bad_words table bad.now) }
{
    match *bad {
        Bad::Split { index } => tell!(out; "51 Split table=" table, " index=" index),
        Bad::Clash { index } => tell!(out; "52 Clash table=" table, " index=" index),
        Bad::Overfull {
            index,
            section,
            least,
        } =>
            tell!(out; "53 Overfull table=" table, " index=" index, " section=" section, " least=" least),
        Bad::Arrived { index, train } =>
            tell!(out; "54 Arrived table=" table, " index=" index, " train=" train),
        Bad::MoveEnd { index, train } =>
            tell!(out; "55 MoveEnd table=" table, " index=" index, " train=" train),
        Bad::MovePoint {
            index,
            train,
            other,
        } =>
            tell!(out; "56 MovePoint table=" table, " index=" index, " train=" train, " other=" other),
        Bad::MoveRoom {
            index,
            train,
            section,
        } =>
            tell!(out; "57 MoveRoom table=" table, " index=" index, " train=" train, " section=" section),
        Bad::Name { index } => tell!(out; "58 Name table=" table, " index=" index),
        Bad::MoveWait {
            index,
            train,
            connection,
        } =>
            tell!(out; "59 MoveWait table=" table, " index=" index, " train=" train, " connection=" connection),
    }
}
