// Names of patterns and ways.
use plan_entries::{Entries, Entry, Faults, tell_no};

/// The names of entries; empty for those that have none.
pub(crate) fn names_of<'t>(faults: &mut Faults, entries: &Entries<'t>) -> Vec<&'t str> {
    let mut names = Vec::new(faults.alloc());
    for index in 0..entries.values.len() {
        let name = entries.entry(index).text("name").unwrap_or("");
        if names.push(name).is_err() {
            faults.lose();
        }
    }
    names
}

/// Tells a name that isn't known: one that is like it, or all that there are.
pub(crate) fn check_name<'x>(
    faults: &mut Faults,
    at: &Entry,
    kind: &'static str,
    name: &'x str,
    known: &'x [&'x str],
) {
    if known.contains(&name) {
        return;
    }
    tell_no(faults, at, kind, name, known);
}

/// Tells each name that another entry has already.
pub(crate) fn check_once(faults: &mut Faults, entries: &Entries, names: &[&str]) {
    for (index, name) in names.iter().enumerate() {
        if !name.is_empty() && names.get(..index).unwrap_or(&[]).contains(name) {
            let at = entries.entry(index);
            faults.tell(&at.at("name"), "another one has this name", &[]);
        }
    }
}
