// Lists and names that a plan is made of. If there is no memory for one, the faults say so.
use crate::names::text_of;
use plan_entries::Faults;
use std::alloc::AllocError;
use toml::Value;

/// Adds to a list.
pub(crate) fn push<T: Drop>(faults: &mut Faults, list: &mut Vec<T>, item: T) {
    if list.push(item).is_err() {
        faults.lose();
    }
}

/// A name again.
pub(crate) fn owned(faults: &mut Faults, name: &str) -> String {
    match String::from_str(faults.alloc(), name) {
        Ok(owned) => owned,
        Err(AllocError) => {
            faults.lose();
            String::new(faults.alloc())
        }
    }
}

/// Adds a name.
pub(crate) fn push_name(faults: &mut Faults, names: &mut Vec<String>, name: &str) {
    let name = owned(faults, name);
    push(faults, names, name);
}

/// Adds names.
pub(crate) fn push_all(faults: &mut Faults, names: &mut Vec<String>, all: &[&str]) {
    for name in all {
        push_name(faults, names, name);
    }
}

/// Adds the names that are these values.
pub(crate) fn push_names(faults: &mut Faults, names: &mut Vec<String>, values: &[Value]) {
    for value in values {
        push_name(faults, names, text_of(value));
    }
}

/// Names again.
pub(crate) fn copied(faults: &mut Faults, values: &[Value]) -> Vec<String> {
    let mut names = Vec::new(faults.alloc());
    push_names(faults, &mut names, values);
    names
}
