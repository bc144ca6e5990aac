// How the trains of a picture look.
use std::alloc::{AllocError, Global};

// The colours that trains have in pictures of layouts, too. Their lightness differs, so that those that follow one another
// can be told apart in grey.
fn colour(train: u32) -> &'static str {
    match train % 8 {
        0 => "#0b5fa5",
        1 => "#b35900",
        2 => "#20242a",
        3 => "#00997a",
        4 => "#7b4fc0",
        5 => "#8a7400",
        6 => "#3b9ad0",
        _ => "#6b1020",
    }
}

// The dashes of the first eight trains, the next eight, and so on.
fn dashes(train: u32) -> &'static str {
    match train / 8 {
        0 => "none",
        1 => "7 3",
        2 => "2 3",
        _ => "9 3 2 3",
    }
}

/// How the classes of a picture of this many trains look.
pub(crate) fn style_of(alloc: Global, trains: u32) -> Result<String, AllocError> {
    let mut style = String::from_str(alloc, COMMON)?;
    write_trains(&mut style, trains)?;
    Ok(style)
}

// Adds how the classes of this many trains look.
fn write_trains(style: &mut String, trains: u32) -> Result<(), AllocError> {
    for train in 0..trains {
        write_train(style, train)?;
    }
    Ok(())
}

// Adds how the class of a train looks.
fn write_train(style: &mut String, train: u32) -> Result<(), AllocError> {
    let colour = colour(train);
    let dashes = dashes(train);
    write!(
        style,
        "line.t{train}{{stroke:{colour};stroke-dasharray:{dashes}}}text.t{train}{{fill:{colour}}}"
    )
}

const COMMON: &str =
    "svg{background:#fff}text{font:11px sans-serif;fill:#222}line{stroke-width:1;stroke-linecap:round}.paper polygon{fill:#fff}.ticks line{stroke:#ddd}.ticks text{text-anchor:middle}.points line{stroke:#bbb}.points text{text-anchor:end}.table line{stroke:#222;stroke-width:1.5;stroke-dasharray:1 4}.moves line{stroke-width:2}g.block line{stroke-width:9;stroke-linecap:butt;stroke-dasharray:none;opacity:.25}.wait line{stroke-width:2}.stay line{stroke-width:1;opacity:.6}.legend line{stroke-width:2}.end text,.table text{stroke:#fff;stroke-width:3px;stroke-linejoin:round;paint-order:stroke}.start text,.end text{font-weight:bold}.start text{text-anchor:end}";
