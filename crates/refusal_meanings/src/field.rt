// The fields of a refusal.

use decimal_number::number_of;

/// A field of a refusal: what it counts and its number, or words.
#[derive(Clone, Copy)]
pub(crate) enum Field<'a> {
    Table(usize),
    /// The train that the refusal speaks of.
    Train(usize),
    /// One of two trains, or the one in the way.
    Another(usize),
    Point(usize),
    Place(usize),
    Section(usize),
    Connection(usize),
    Link(usize),
    Node(usize),
    /// A line of the journal.
    Line(usize),
    Zone(usize),
    Count(usize),
    Limit(usize),
    Value(i64),
    /// A member of a document, by its name.
    Member(&'a str),
    /// What there are too many of.
    What(&'a str),
    /// Any other field of a line.
    Other { key: &'a str, value: &'a str },
}

/// The field of a line with this key and this value. `first` and `second` are points or trains.
pub(crate) fn field_of<'a>(key: &'a str, value: &'a str, are_points: bool) -> Field<'a> {
    match (key, number_of(value.as_bytes())) {
        ("what", _) => Field::What(value),
        ("member", _) => Field::Member(value),
        (_, Some(number)) => numbered(key, number as usize, are_points).unwrap_or(Field::Other {
            key,
            value,
        }),
        (_, None) => Field::Other { key, value },
    }
}

// The field with a number that something of a document has.
fn numbered(key: &str, number: usize, are_points: bool) -> Option<Field<'static>> {
    Some(match key {
        "table" => Field::Table(number),
        "train" => Field::Train(number),
        "by" | "other" => Field::Another(number),
        "first" | "second" => if are_points {
            Field::Point(number)
        } else {
            Field::Another(number)
        },
        "point" => Field::Point(number),
        "place" => Field::Place(number),
        "section" => Field::Section(number),
        "connection" => Field::Connection(number),
        "link" => Field::Link(number),
        "index" => Field::Node(number),
        "line" => Field::Line(number),
        _ => return None,
    })
}
