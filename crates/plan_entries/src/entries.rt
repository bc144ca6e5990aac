// The entries of a plan: what its text says, before its names are known.
ghost use Rattle.std.specs.Prelude.{◌≡◌, is_none, option_and_then, option_copied, option_map};
ghost use Rattle.toml.specs.Data.{as_bool, as_integer, as_str, as_table, get_item};
ghost use Rattle.toml.specs.View.{items_view, table_view, view};
ghost use Rattle.plan_entries.specs.Found as spec;
ghost use Rattle.plan_entries.specs.Found.{value_at};

use toml::{Table, Value};

/// A part of a plan: the keys at its top, the table of its zones or of its ways, or a list of entries.
#[derive(Clone, Copy)]
pub enum Kind {
    Top,
    Zones,
    Ways,
    Pattern,
    Train,
    Section,
    Connection,
    Crossing,
    Scissors,
    Ladder,
    Table,
}

/// The entries of a list.
#[derive(Clone, Copy)]
pub struct Entries<'t> {
    pub kind: Kind,
    /// The further table that they belong to, counted from 0, if they belong to one.
    pub table: Option<usize>,
    pub values: &'t [Value],
}

/// An entry, or a part that is no list; with a key, or a key and a name below it, if a message is about these.
#[derive(Clone, Copy)]
pub struct Entry<'t> {
    pub kind: Kind,
    /// The further table that the entry belongs to, counted from 0, if it belongs to one.
    pub table: Option<usize>,
    /// Which of the entries of its list it is, counted from 0.
    pub index: usize,
    /// Its keys; none, if it is no table of keys.
    pub keys: Option<&'t Table>,
    pub key: &'t str,
    pub name: &'t str,
}

impl Kind {
    /// The key of the list, which is what messages call an entry; empty for the keys at the top.
    pub fn word(self) -> &'static str {
        match self {
            Kind::Top => "",
            Kind::Zones => "zones",
            Kind::Ways => "ways",
            Kind::Pattern => "pattern",
            Kind::Train => "train",
            Kind::Section => "section",
            Kind::Connection => "connection",
            Kind::Crossing => "crossing",
            Kind::Scissors => "scissors",
            Kind::Ladder => "ladder",
            Kind::Table => "table",
        }
    }
}

/// The first value that isn't a text.
pub fn first_other(values: &[Value]) -> Option<&Value>
    ensures { is_none result ≡ spec.are_names (items_view values.now) }
{
    for value in values {
        if !value.is_str() {
            return Some(value);
        }
    }
    None
}

/// The names of a list; none, if it isn't a list of names.
pub fn names_of(value: &Value) -> Option<&[Value]>
    ensures { option_map (λ names. items_view names.now) result ≡ spec.names_in (view value.now) }
{
    match value.as_array() {
        Some(values) if first_other(values).is_none() => Some(values.as_slice()),
        _ => None,
    }
}

// The keys of a value, if it is there and is a table of keys.
fn keys_of(values: &[Value], index: usize) -> Option<&Table>
    ensures { option_map (λ keys. table_view keys.now) result ≡ option_and_then as_table (get_item index (items_view values.now)) }
{
    if index < values.len() {
        values[index].as_table()
    } else {
        None
    }
}

// The place that a value says for a train: its own, or that for all.
fn place_in<'t>(value: &'t Value, train: &str) -> Option<&'t str>
    ensures { option_copied result ≡ spec.place_in train.now (view value.now) }
{
    match value.as_str() {
        Some(place) => Some(place),
        None => value.get(train)?.as_str(),
    }
}

impl<'t> Entries<'t> {
    /// An entry; one without keys for one that isn't there.
    pub fn entry(&self, index: usize) -> Entry<'t>
        ensures { option_map (λ keys. table_view keys.now) result.keys ≡ option_and_then as_table (get_item index (items_view self.now.values.now)) }
    {
        Entry {
            kind: self.kind,
            table: self.table,
            index,
            keys: keys_of(self.values, index),
            key: "",
            name: "",
        }
    }
}

impl<'t> Entry<'t> {
    /// A part of a plan that is no list.
    pub fn part(kind: Kind, keys: Option<&'t Table>) -> Entry<'t> {
        Entry {
            kind,
            table: None,
            index: 0,
            keys,
            key: "",
            name: "",
        }
    }

    /// The same entry, for a message about a key.
    pub fn at(&self, key: &'t str) -> Entry<'t> {
        Entry {
            key,
            name: "",
            ..*self
        }
    }

    /// The same entry and key, for a message about a name.
    pub fn of(&self, name: &'t str) -> Entry<'t> {
        Entry { name, ..*self }
    }

    /// The name in the brackets above the entry; empty for the keys at the top.
    pub(crate) fn header(&self) -> &'static str {
        match self.kind {
            Kind::Train if self.table.is_some() => "table.train",
            Kind::Section if self.table.is_some() => "table.section",
            Kind::Connection if self.table.is_some() => "table.connection",
            kind => kind.word(),
        }
    }

    /// The entries of a kind: none, where they aren't in a list.
    pub fn list(&self, kind: Kind) -> Entries<'t> {
        Entries {
            kind,
            table: match self.kind {
                Kind::Table => Some(self.index),
                _ => None,
            },
            values: self.values(kind.word()),
        }
    }

    /// The value at a key.
    pub fn value(&self, key: &str) -> Option<&'t Value>
        ensures { option_map (λ v. view v.now) result ≡ value_at key.now self.now }
    {
        match self.keys {
            Some(keys) => keys.get(key),
            None => None,
        }
    }

    /// The values of the list at a key: none, where there is no list.
    pub fn values(&self, key: &str) -> &'t [Value] {
        match self.value(key) {
            Some(Value::Array(values)) => values.as_slice(),
            _ => &[],
        }
    }

    /// The text at a key.
    pub fn text(&self, key: &str) -> Option<&'t str>
        ensures { option_copied result ≡ option_and_then as_str (value_at key.now self.now) }
    {
        self.value(key)?.as_str()
    }

    /// The number at a key.
    pub fn number(&self, key: &str) -> Option<i64>
        ensures { result ≡ option_and_then as_integer (value_at key.now self.now) }
    {
        self.value(key)?.as_integer()
    }

    /// Whether a key is true.
    pub fn flag(&self, key: &str) -> Option<bool>
        ensures { result ≡ option_and_then as_bool (value_at key.now self.now) }
    {
        self.value(key)?.as_bool()
    }

    /// The names of the list at a key.
    pub fn names(&self, key: &str) -> Option<&'t [Value]>
        ensures { option_map (λ names. items_view names.now) result ≡ option_and_then spec.names_in (value_at key.now self.now) }
    {
        names_of(self.value(key)?)
    }

    /// The number at a key that is said for a name; none, where only one for all is said.
    pub fn number_for(&self, key: &str, name: &str) -> Option<i64>
        ensures { result ≡ option_and_then (spec.number_in name.now) (value_at key.now self.now) }
    {
        self.value(key)?.get(name)?.as_integer()
    }

    /// The place at a key for a train: its own, or that for all.
    pub fn place_for(&self, key: &str, train: &str) -> Option<&'t str>
        ensures { option_copied result ≡ option_and_then (spec.place_in train.now) (value_at key.now self.now) }
    {
        place_in(self.value(key)?, train)
    }

    /// Whether a key has a place for all, or a table of places.
    pub fn has_places(&self, key: &str) -> bool
        ensures { result ≡ spec.has_places (value_at key.now self.now) }
    {
        match self.value(key) {
            Some(value) => value.is_str() || value.is_table(),
            None => false,
        }
    }
}
