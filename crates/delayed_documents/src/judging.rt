// Whether a train can come to a point later.
ghost use Rattle.std.specs.Prelude.{◌≡◌, ◌<◌, ◌↔◌, IsTrue, MatchOption, length};
ghost use Rattle.delayed_documents.specs.Delayed.{Fits, FitsAll, IsTooLong, IsTooLongUnder, LeadsTo};

use crate::Delay;
use crate::steps::step_to;
use document_json::{Doc, tables_of, times_of};

// The most ticks that a step takes.
const LONGEST: u32 = 1000;

/// Whether a train's way leads to the point of that name, under any table.
pub(crate) fn leads_to(doc: &Doc, train: u32, name: &str) -> bool
    requires { train < length doc.now.trains }
    ensures { IsTrue result ↔ LeadsTo doc.now train name.now }
{
    for table in 0..tables_of(doc) {
        if step_to(doc, table, train, name).is_some() {
            return true;
        }
    }
    false
}

// How long a train's step takes, if with the delay it would take too long under a table.
fn too_long_under(doc: &Doc, table: u32, train: u32, delay: &Delay<'_>) -> Option<u32>
    requires table { table < length doc.now.tables }
    requires train { train < length doc.now.trains }
    ensures { MatchOption result (Fits doc.now train delay.now table) (IsTooLongUnder doc.now train delay.now table) }
{
    match step_to(doc, table, train, delay.point) {
        Some(step) => {
            let takes = times_of(doc).time(table, train, step);
            if delay.ticks <= LONGEST - takes {
                None
            } else {
                Some(takes)
            }
        }
        None => None,
    }
}

/// How long a train's step takes, if with the delay it would take too long, under the first such table.
pub(crate) fn too_long(doc: &Doc, train: u32, delay: &Delay<'_>) -> Option<u32>
    requires { train < length doc.now.trains }
    ensures { MatchOption result (FitsAll doc.now train delay.now) (IsTooLong doc.now train delay.now) }
{
    for table in 0..tables_of(doc) {
        if let Some(takes) = too_long_under(doc, table, train, delay) {
            return Some(takes);
        }
    }
    None
}
