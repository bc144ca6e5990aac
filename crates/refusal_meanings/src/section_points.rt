// The points at which trains have shares of a section.

use crate::names::Rows;
use crate::text::Text;
use rail_model::Section;
use std::alloc::AllocError;

/// Adds up to six of the points at which a train has a share of a section.
pub(crate) fn write_section_points(out: &mut Text, section: &Section, rows: &Rows) {
    let mut points = Vec::new(out.alloc());
    match push_section_points(&mut points, section, rows) {
        Ok(()) => write_points(out, &points),
        Err(_) => out.note_no_memory(),
    }
}

// Adds the points at which a train's share of a section is above 0, in the order of the missions.
fn push_section_points<'a>(
    points: &mut Vec<&'a str>,
    section: &Section,
    rows: &Rows<'a>,
) -> Result<(), AllocError> {
    for (train, changes) in section.all_changes().iter().enumerate() {
        push_points(points, train, changes.as_slice(), rows)?;
    }
    Ok(())
}

// Adds the points of a mission at which the share is above 0, each once.
fn push_points<'a>(
    points: &mut Vec<&'a str>,
    train: usize,
    changes: &[i32],
    rows: &Rows<'a>,
) -> Result<(), AllocError> {
    let mut share: i32 = 0;
    for (place, change) in changes.iter().enumerate() {
        share = share.saturating_add(*change);
        if 0 < share {
            push_point(points, rows.point(train, place))?;
        }
    }
    Ok(())
}

// Adds a point, if it isn't there yet.
fn push_point<'a>(points: &mut Vec<&'a str>, point: Option<&'a str>) -> Result<(), AllocError> {
    if let Some(point) = point {
        if !is_known(points, point) {
            points.push(point)?;
        }
    }
    Ok(())
}

fn is_known(points: &[&str], point: &str) -> bool {
    for known in points {
        if *known == point {
            return true;
        }
    }
    false
}

// Adds up to six points in brackets.
fn write_points(out: &mut Text, points: &[&str]) {
    for (index, point) in points.iter().enumerate().take(6) {
        out.say(if index == 0 { " (" } else { ", " });
        out.say(point);
    }
    match points.len() {
        0 => {}
        1..=6 => out.say(")"),
        _ => out.say(" and others)"),
    }
}
