// The legend: what the lines of a picture mean.
use crate::labels::text_width;
use crate::shapes::{push_label, push_train_line};
use rail_model::Names;
use run_timetable::{Run, train_name};
use std::alloc::{AllocError, Global};
use svg_text::{Shape, Spot};

/// How wide a picture is.
pub(crate) const WIDTH: u16 = 800;

// Where the legend begins, how high a line of it is, and how long the sample of a line is.
const LEFT: u64 = 16;

const TOP: u64 = 18;

const LINE: u64 = 16;

const SAMPLE: u64 = 24;

// Where the first entry stands.
const FIRST: Spot = Spot { x: LEFT, y: TOP };

// Where an entry with a name stands that comes next: at a spot, or in a new line if it has no room there.
fn entry_spot(at: Spot, name: &str) -> Spot {
    let end = at
        .x
        .saturating_add(SAMPLE + 6)
        .saturating_add(text_width(name));
    if end > u64::from(WIDTH) {
        under(at)
    } else {
        at
    }
}

// Where the next line begins.
fn under(at: Spot) -> Spot {
    Spot {
        x: LEFT,
        y: at.y.saturating_add(LINE),
    }
}

// After an entry with a name.
fn behind(at: Spot, name: &str) -> Spot {
    Spot {
        x: at
            .x
            .saturating_add(SAMPLE + 22)
            .saturating_add(text_width(name)),
        y: at.y,
    }
}

// Where the legend's last line begins, which says what the lines mean.
fn last_line(names: &Names, run: &Run) -> Spot {
    let mut at = FIRST;
    for train in 0..run.trains() {
        let name = train_name(names, train);
        at = behind(entry_spot(at, name), name);
    }
    under(at)
}

/// How far down the legend goes.
pub(crate) fn legend_end(names: &Names, run: &Run) -> u64 {
    last_line(names, run).y
}

/// Adds the lines and names of all trains, and what the lines mean.
pub(crate) fn push_legend(
    alloc: Global,
    shapes: &mut Vec<Shape>,
    names: &Names,
    run: &Run,
    blocks: bool,
) -> Result<(), AllocError> {
    let mut at = FIRST;
    for train in 0..run.trains() {
        let name = train_name(names, train);
        let spot = entry_spot(at, name);
        push_entry(alloc, shapes, spot, train, name)?;
        at = behind(spot, name);
    }
    push_label(alloc, shapes, under(at), meaning(run, blocks))
}

// What the lines of a picture mean, which has bars or not.
fn meaning(run: &Run, blocks: bool) -> &'static str {
    match (run.takeovers.is_empty(), blocks) {
        (true, false) => "sloped: it travels; level: it waits; thin: it has arrived",
        (true, true) => {
            "sloped: it travels; level: it waits; thin: it has arrived; broad: the point is taken"
        }
        (false, false) => {
            "sloped: it travels; level: it waits; thin: it has arrived; dotted: a table takes over"
        }
        (false, true) => {
            "sloped: it travels; level: it waits; thin: it has arrived; broad: the point is taken; dotted: a table takes over"
        }
    }
}

// Adds the sample of a train's line, and its name.
fn push_entry(
    alloc: Global,
    shapes: &mut Vec<Shape>,
    at: Spot,
    train: u32,
    name: &str,
) -> Result<(), AllocError> {
    let y = at.y.saturating_sub(4);
    let end = at.x.saturating_add(SAMPLE);
    push_train_line(
        alloc,
        shapes,
        train,
        Spot { x: at.x, y },
        Spot { x: end, y },
    )?;
    let words = Spot {
        x: end.saturating_add(6),
        y: at.y,
    };
    push_label(alloc, shapes, words, name)
}
