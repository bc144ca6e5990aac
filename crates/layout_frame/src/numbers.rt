// The numbers of the sections of points, where there is room for them.
ghost use Rattle.std.specs.Prelude.{◌<◌};
ghost use Rattle.rail_model.specs.Table.{trains};

use crate::bows::{bow_between, middle_of};
use crate::captions::spot_at;
use crate::frame::{View, shifted};
use crate::room::{Area, Room};
use crate::shapes::push_label;
use rail_model::{Link, points_of};
use std::alloc::{AllocError, Global};
use svg_text::{Shape, Spot};

// Whether there is a bit for a section.
fn has_bit(bits: u64, section: u32) -> bool {
    section < 64 && bits >> section & 1 == 1
}

// Adds the number of a section. Of three and more that follow one another the first and the last stand for all.
fn write_number(words: &mut String, bits: u64, section: u32) -> Result<(), AllocError> {
    let follows = has_bit(bits, section.wrapping_sub(1));
    if follows && has_bit(bits, section.saturating_add(1)) {
        return Ok(());
    }
    let many = follows && has_bit(bits, section.wrapping_sub(2));
    let mark = if many {
        "-"
    } else if words.is_empty() {
        ""
    } else {
        " "
    };
    write!(words, "{mark}{section}")
}

// The numbers of the sections for which there is a bit.
fn numbers_of(alloc: Global, bits: u64) -> Result<String, AllocError> {
    let mut words = String::new(alloc);
    for section in 0..64 {
        if has_bit(bits, section) {
            write_number(&mut words, bits, section)?;
        }
    }
    Ok(words)
}

// The spots at which numbers of this width can begin beside a point: below it on the right or on the left, farther away,
// beside it, or deeper.
fn offers(at: Spot, width: i64) -> [Spot; 8] {
    let near = (-6i64).saturating_sub(width);
    let beside = (-18i64).saturating_sub(width);
    let far = (-22i64).saturating_sub(width);
    [
        shifted(at, 6, 17),
        shifted(at, near, 17),
        shifted(at, 22, 17),
        shifted(at, 18, -4),
        shifted(at, beside, -4),
        shifted(at, far, 17),
        shifted(at, 6, 29),
        shifted(at, near, 29),
    ]
}

// What numbers of this width take that begin at a spot, with some room on the left and on the right.
fn area_at(at: Spot, width: i64) -> Area {
    Area {
        first: shifted(at, -4, -9),
        last: shifted(at, width.saturating_add(4), 1),
    }
}

// The first of some spots where numbers of this width have room, or else the first of all.
fn place(room: &Room, spots: &[Spot], width: i64) -> Spot {
    for spot in spots {
        if room.is_free(&area_at(*spot, width)) {
            return *spot;
        }
    }
    spots.first().copied().unwrap_or(Spot { x: 0, y: 0 })
}

// Takes the line of a link: of one with a bow a line to the middle of the bow, and one from there.
fn take_link(room: &mut Room, view: &View, link: &Link) -> Result<(), AllocError> {
    let from = view.frame.spot(link.first());
    let to = view.frame.spot(link.second());
    let Some(toward) = bow_between(view.frame, view.layout.links(), from, to) else {
        return room.push_line(from, to);
    };
    let middle = middle_of(middle_of(from, to), toward);
    room.push_line(from, middle)?;
    room.push_line(middle, to)
}

// Takes the lines of the links.
fn take_links(room: &mut Room, view: &View) -> Result<(), AllocError> {
    for link in view.layout.links() {
        take_link(room, view, link)?;
    }
    Ok(())
}

// Takes the dots of the points.
fn take_dots(room: &mut Room, view: &View) -> Result<(), AllocError> {
    for spot in &view.frame.spots {
        room.push_area(Area {
            first: shifted(*spot, -6, -6),
            last: shifted(*spot, 6, 6),
        })?;
    }
    Ok(())
}

// Takes the arrow of a train at a spot, and its name of so many letters.
fn take_arrow(room: &mut Room, view: &View, at: Spot, letters: i64) -> Result<(), AllocError> {
    room.push_area(Area {
        first: shifted(at, -14, -14),
        last: shifted(at, 14, 14),
    })?;
    if view.frame.grid.fall {
        let down = letters.saturating_mul(5).saturating_add(24);
        return room.push_line(
            shifted(at, 0, 24),
            shifted(at, down.saturating_sub(24), down),
        );
    }
    let side = letters.saturating_mul(4);
    room.push_area(Area {
        first: shifted(at, 0i64.saturating_sub(side), 18),
        last: shifted(at, side, 32),
    })
}

// Takes what a train needs, if it is in the layout.
fn take_train(room: &mut Room, view: &View, train: u32) -> Result<(), AllocError>
    requires { train < trains view.now.scene.now.table.now }
{
    match spot_at(view, train, view.scene.place(train)) {
        Some(at) => {
            let letters = view.scene.train(train).len().min(100) as i64;
            take_arrow(room, view, at, letters)
        }
        None => Ok(()),
    }
}

// Takes what the trains need.
fn take_trains(room: &mut Room, view: &View) -> Result<(), AllocError> {
    for train in 0..view.scene.trains() {
        take_train(room, view, train)?;
    }
    Ok(())
}

// Adds numbers at a spot where they have room, and takes it.
fn push_words(
    shapes: &mut Vec<Shape>,
    view: &View,
    room: &mut Room,
    at: Spot,
    words: &str,
) -> Result<(), AllocError> {
    let width = words.len().min(1000) as i64 * 6;
    let spot = place(room, &offers(at, width), width);
    room.push_area(area_at(spot, width))?;
    push_label(shapes, view.alloc, spot, words)
}

// Adds the numbers of the sections of a point.
fn push_number(
    shapes: &mut Vec<Shape>,
    view: &View,
    room: &mut Room,
    point: u32,
) -> Result<(), AllocError> {
    let bits = view.inside.get(point as usize).copied().unwrap_or(0);
    if bits == 0 {
        return Ok(());
    }
    let words = numbers_of(view.alloc, bits)?;
    push_words(shapes, view, room, view.frame.spot(point), words.as_str())
}

// Adds the numbers of the sections of each point, in the room that is left.
fn push_all(shapes: &mut Vec<Shape>, view: &View, room: &mut Room) -> Result<(), AllocError> {
    for point in 0..points_of(view.layout) {
        push_number(shapes, view, room, point)?;
    }
    Ok(())
}

/// Adds the numbers of the sections of each point, clear of points, links, trains and one another where there is
/// room.
pub fn push_numbers(shapes: &mut Vec<Shape>, view: &View) -> Result<(), AllocError> {
    let mut room = Room::new(view.alloc);
    take_links(&mut room, view)?;
    take_dots(&mut room, view)?;
    take_trains(&mut room, view)?;
    push_all(shapes, view, &mut room)
}
