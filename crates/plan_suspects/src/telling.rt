// Remarks on points that are probably mistyped.
ghost use Rattle.std.specs.Prelude.{◌<◌, IfOk, IsTrue, vec_len};
ghost use Rattle.plan_suspects.specs.Suspects.{has_suspects};

use crate::{Suspect, suspects};
use plan_document::Plan;
use plan_entries::{Entry, Fault, Faults, Kind, Part};
use plan_patterns::expand;
use std::alloc::{AllocError, Global};
use toml::Table;

const FORM: &str =
    "only this train comes to {}, and once; did you mean {}? Lines would say which tracks there are";

// The first of some changes of a further table that says a route for a train; one after the last, if none does.
fn change_of<'x>(top: &Entry<'x>, table: usize, name: &str) -> Option<Entry<'x>> {
    let changes = top.list(Kind::Table).entry(table).list(Kind::Train);
    for index in 0..changes.values.len() {
        let change = changes.entry(index);
        if change.text("name") == Some(name) && change.value("route").is_some() {
            return Some(change);
        }
    }
    None
}

// The entry that says the route of a train under a table: that of a further table, or else that of the plan.
fn entry_of<'x>(top: &Entry<'x>, plan: &Plan, table: usize, train: usize) -> Entry<'x> {
    if 0 < table
        && let Some(name) = plan.trains.get(train)
        && let Some(change) = change_of(top, table - 1, name.as_str())
    {
        return change;
    }
    top.list(Kind::Train).entry(train)
}

// Tells that a point is probably mistyped.
fn tell(remarks: &mut Faults, top: &Entry, plan: &Plan, suspect: &Suspect) {
    let Suspect {
        table,
        train,
        place,
        meant,
    } = *suspect;
    if let Some(routes) = plan.tables.get(table)
        && let Some(here) = routes.route(train).get(place)
        && let Some((meant, _)) = plan.points.get(meant)
    {
        let here = here.as_str();
        let parts = [Part::Name(here), Part::Name(meant.as_str())];
        let entry = entry_of(top, plan, table, train);
        remarks.tell(&entry.at("route").of(here), FORM, &parts);
    }
}

// The remarks on these points of a plan, of whose text these are the keys.
fn told_of(
    alloc: Global,
    text: &str,
    keys: Table,
    plan: &Plan,
    found: &[Suspect],
) -> Result<Vec<Fault>, AllocError> {
    let mut remarks = Faults::new(alloc, text)?;
    if let Some(keys) = expand(&mut remarks, keys)? {
        let top = Entry::part(Kind::Top, Some(&keys));
        for suspect in found {
            tell(&mut remarks, &top, plan, suspect);
        }
    }
    remarks.into_list()
}

// The remarks on these points of a plan, which a text says.
fn told(
    alloc: Global,
    text: &[u8],
    plan: &Plan,
    found: &[Suspect],
) -> Result<Vec<Fault>, AllocError> {
    let Ok(words) = std::str::from_utf8(text) else {
        return Ok(Vec::new(alloc));
    };
    match toml::table_from_str(alloc, words) {
        Ok(keys) => told_of(alloc, words, keys, plan, found),
        Err(_) => Err(AllocError),
    }
}

/// A remark on each point that is probably mistyped in the plan that a text says, by lines of the text; none, if there is no such point.
pub fn remarks(alloc: Global, text: &[u8], plan: &Plan) -> Result<Vec<Fault>, AllocError>
    ensures { IfOk result (λ told. 0 < vec_len told → IsTrue (has_suspects plan.now)) }
{
    let found = suspects(alloc, plan)?;
    if found.is_empty() {
        return Ok(Vec::new(alloc));
    }
    told(alloc, text, plan, &found)
}
