// The shapes of a document's members.

// Each member, and the shape that it has to have.
const SHAPES: [[&str; 2]; 15] = [
    ["document", "an object"],
    ["version", "1, 2 or 3"],
    ["points", "a list of [name, zone]"],
    ["links", "a list of [name, name]"],
    ["zones", "a whole number"],
    ["trains", "a list of names"],
    ["start", "a list of places, one for each train"],
    ["tables", "a list of objects"],
    ["missions", "a list of names of points for each train"],
    ["exits", "true or false for each train"],
    ["sections", "a list of objects with limit and changes"],
    ["connections", "a list of [train, place, other, reached]"],
    ["certificate", "a list of nodes; ats make writes it"],
    ["times", "a list of whole numbers for each train"],
    ["after", "a whole number"],
];

/// The shape that a member has to have.
pub(crate) fn shape_of(member: &str) -> Option<&'static str> {
    for [known, shape] in &SHAPES {
        if member == *known {
            return Some(shape);
        }
    }
    None
}
