// What to write in place of a name that isn't known.
use crate::{Entry, Faults, Part};
use std::alloc::AllocError;

// A distance between names that aren't alike.
const FAR: usize = 1000;

// By how many letters two names differ; far if hardly any are the same.
fn distance(faults: &mut Faults, name: &str, known: &str) -> usize {
    if name.eq_ignore_ascii_case(known) {
        return 0;
    }
    if 24 < name.len() {
        return FAR;
    }
    match strsim::osa_distance(faults.alloc(), name, known) {
        Ok(edits) if edits < name.len().max(known.len()) => edits,
        Ok(_) => FAR,
        Err(AllocError) => {
            faults.lose();
            FAR
        }
    }
}

// The name that is most like this one; none, if none differs in at most two letters.
fn nearest<'x>(faults: &mut Faults, name: &str, known: &'x [&'x str]) -> Option<&'x str> {
    let mut least = 3usize;
    let mut found = None;
    for one in known {
        let edits = distance(faults, name, one);
        if edits < least {
            least = edits;
            found = Some(*one);
        }
    }
    found
}

/// Tells that there is nothing of this kind with the name: one that is like it, or all that there are.
pub fn tell_no<'x>(
    faults: &mut Faults,
    at: &Entry,
    kind: &'static str,
    name: &'x str,
    known: &'x [&'x str],
) {
    match nearest(faults, name, known) {
        Some(near) => {
            let parts = [Part::Words(kind), Part::Name(name), Part::Name(near)];
            faults.tell(at, "no {} {}; did you mean {}?", &parts);
        }
        None => {
            let parts = [
                Part::Words(kind),
                Part::Name(name),
                Part::Words(kind),
                Part::List(known),
            ];
            faults.tell(at, "no {} {}; the {}s are {}", &parts);
        }
    }
}
