// Where something stands in a document.
use crate::text::Text;
use document_facts::Object;

// Adds what stands before the members of an object.
fn say_object(place: &mut Text, object: Object) {
    match object {
        Object::Document => {}
        Object::Table { table } => place.say_number("tables[", table as u64, "]."),
        Object::Section { table, section } => {
            place.say_number("tables[", table as u64, "].sections[");
            place.say_number("", section as u64, "].");
        }
    }
}

/// Adds the place of a member of an object, as `tables[0].after`.
pub(crate) fn say_member(place: &mut Text, object: Object, member: &str) {
    say_object(place, object);
    place.say(member);
}

/// Adds the place of an item of a list that is a member of an object, as `tables[0].sections[2]`.
pub(crate) fn say_item(place: &mut Text, object: Object, list: &str, number: usize) {
    say_member(place, object, list);
    place.say_number("[", number as u64, "]");
}
