// The title of a picture, or why there is none.

use crate::frame::{point_name, train_name};
use legal_state::Illegal;
use rail_model::{Layout, Names, State, Table, last_of, trains_of};
use std::alloc::{AllocError, Global};

// The last place of a train.
fn last_place(table: &Table, train: u32) -> u32 {
    if train < trains_of(table) {
        last_of(table, train)
    } else {
        0
    }
}

// Adds why a state isn't legal.
fn write_cause(
    words: &mut String,
    layout: &Layout,
    names: &Names,
    table: &Table,
    state: &State,
    illegal: Illegal,
) -> Result<(), AllocError> {
    match illegal {
        Illegal::Length { count } => {
            let trains = names.trains();
            write!(words, "there are {trains} trains, and places for {count}")
        }
        Illegal::Range { train } => {
            let name = train_name(names, train);
            let place = state.as_slice().get(train as usize).copied().unwrap_or(0);
            let last = last_place(table, train);
            write!(words, "{name} has no place {place}: its last one is {last}")
        }
        Illegal::Clash {
            first,
            second,
            point,
        } => {
            let first = train_name(names, first);
            let second = train_name(names, second);
            let point = point_name(layout, point);
            write!(words, "{first} and {second} are both at {point}")
        }
        Illegal::Over {
            section,
            count,
            limit,
        } => write!(
            words,
            "section {section} has {count}, above its limit {limit}"
        ),
    }
}

// Adds the places of a state, or that they are the start.
fn write_places(title: &mut String, state: &State, start: &State) -> Result<(), AllocError> {
    if state.as_slice() == start.as_slice() {
        return title.push_str("their start");
    }
    let mut before = "places ";
    for place in state.as_slice() {
        write!(title, "{before}{place}")?;
        before = ",";
    }
    Ok(())
}

/// Why a state of a table isn't legal.
pub fn cause_of(
    alloc: Global,
    layout: &Layout,
    names: &Names,
    table: &Table,
    state: &State,
    illegal: Illegal,
) -> Result<String, AllocError> {
    let mut words = String::new(alloc);
    write_cause(&mut words, layout, names, table, state, illegal)?;
    Ok(words)
}

/// The title of a picture of a table with trains in a state.
pub fn title_of(
    alloc: Global,
    table: u32,
    state: &State,
    start: &State,
) -> Result<String, AllocError> {
    let mut title = format!(in alloc; "Layout, table {table}: trains at ")?;
    write_places(&mut title, state, start)?;
    Ok(title)
}
