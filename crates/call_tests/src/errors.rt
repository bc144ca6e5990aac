// What the libraries refuse, as errors that go up like those of any crate.
use mission_table::{Trains, trains};
use rail_model::Layout;
use std::alloc::{AllocError, Global};
use std::fmt::InlineText;
use track_layout::layout;

// The layout of points in one zone, without links, and the trains of these names.
fn layout_and_trains(
    alloc: Global,
    points: Vec<(String, u32)>,
    names: Vec<String>,
) -> anyhow::Result<(Layout, Trains)> {
    let layout = layout(alloc, points, &[], 1)?;
    let trains = trains(alloc, names)?;
    Ok((layout, trains))
}

// So many trains of one name.
fn names(alloc: Global, count: usize) -> Result<Vec<String>, AllocError> {
    let mut names = Vec::new(alloc);
    for _ in 0..count {
        names.push(String::from_str(alloc, "A")?)?;
    }
    Ok(names)
}

// So many points of one name.
fn points(alloc: Global, count: usize) -> Result<Vec<(String, u32)>, AllocError> {
    let mut points = Vec::new(alloc);
    for _ in 0..count {
        points.push((String::from_str(alloc, "A")?, 0))?;
    }
    Ok(points)
}

// Whether so many points and trains are refused with this message.
fn is_refused(alloc: Global, count: usize, trains: usize, message: &str) -> bool {
    let Ok(points) = points(alloc, count) else {
        return false;
    };
    let Ok(names) = names(alloc, trains) else {
        return false;
    };
    match layout_and_trains(alloc, points, names) {
        Ok(_) => false,
        Err(error) => InlineText::<64>::of(error).as_str() == message,
    }
}

#[test]
fn errors_of_the_libraries_have_messages(rt: HostRuntime) {
    for (count, trains, message) in [
        (513, 0, "there are 513 points; at most 512 are allowed"),
        (2, 0, "the points 0 and 1 have the same name"),
        (1, 33, "there are 33 trains; at most 32 are allowed"),
    ] {
        assert!(rt; is_refused(rt.alloc(), count, trains, message), "{message}");
    }
}
