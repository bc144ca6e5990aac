// Names of a plan.
use plan_entries::{Entries, Entry, Faults, Part, tell_no};
use toml::Value;

/// The text of a value that is one; else it is empty.
pub(crate) fn text_of(value: &Value) -> &str {
    match value.as_str() {
        Some(text) => text,
        None => "",
    }
}

/// Whether a text has the form of a name: 1 to 16 letters, digits and `_`.
pub(crate) fn is_name(text: &str) -> bool {
    for byte in text.bytes() {
        if !byte.is_ascii_alphanumeric() && byte != b'_' {
            return false;
        }
    }
    !text.is_empty() && text.len() <= 16
}

/// The number of a name among these.
pub(crate) fn number_of(known: &[&str], name: &str) -> Option<usize> {
    for (index, one) in known.iter().enumerate() {
        if *one == name {
            return Some(index);
        }
    }
    None
}

/// Whether a name is one of these.
pub(crate) fn is_known(known: &[&str], name: &str) -> bool {
    known.contains(&name)
}

/// The number of a name, which stands at a key, among those of a kind; one that isn't among them is reported.
pub(crate) fn find<'x>(
    faults: &mut Faults,
    entry: &Entry<'x>,
    key: &'static str,
    name: &'x str,
    kind: &'static str,
    known: &[&str],
) -> Option<usize> {
    let found = number_of(known, name);
    if found.is_none() {
        tell_no(faults, &entry.at(key).of(name), kind, name, known);
    }
    found
}

/// Tells each name of the list at a key that isn't known.
pub(crate) fn check_names<'x>(
    faults: &mut Faults,
    entry: &Entry<'x>,
    key: &'static str,
    kind: &'static str,
    known: &[&str],
) {
    if let Some(names) = entry.names(key) {
        for name in names {
            find(faults, entry, key, text_of(name), kind, known);
        }
    }
}

/// Tells something of a key.
pub(crate) fn tell_key(faults: &mut Faults, entry: &Entry, key: &'static str, form: &'static str) {
    faults.tell(&entry.at(key), form, &[]);
}

/// Tells something of a name, which stands at a key.
pub(crate) fn tell_of<'x>(
    faults: &mut Faults,
    entry: &Entry<'x>,
    key: &'static str,
    name: &'x str,
    form: &'static str,
) {
    faults.tell(&entry.at(key).of(name), form, &[Part::Name(name)]);
}

/// Tells the first entry that is one too many.
pub(crate) fn check_count(faults: &mut Faults, entries: &Entries, most: usize, form: &'static str) {
    if most < entries.values.len() {
        faults.tell(&entries.entry(most), form, &[]);
    }
}
