// The answers to a train's own requests.
ghost use Rattle.std.specs.Prelude.{◌≡◌, ◌++◌, OnOk, string_bytes};
ghost use Rattle.live_lines.specs.Answers as spec;
ghost use Rattle.live_lines.specs.Told.{AreNamed, IsNamedSpot};

use crate::causes::{write_prospect, write_spot, write_trains};
use crate::{Prospect, Spot};
use rail_model::Names;
use std::alloc::AllocError;

/// The answer to a request of a train. A line is a number of the journal.
#[derive(Clone, Copy)]
pub enum TrainAnswer<'a> {
    /// It is granted a place by this line.
    Granted {
        spot: Spot,
        line: u32,
    },
    /// It was granted the place before, by this line.
    Again {
        spot: Spot,
        line: u32,
    },
    /// It may go on, has to wait, or has arrived.
    Told {
        prospect: Prospect<'a>,
    },
    /// How many wants were dropped.
    Dropped {
        train: u32,
        wants: u32,
    },
    /// The place that it has reported.
    There {
        train: u32,
        place: u32,
    },
    /// How many trains it waits for, itself too; which of them may go on, and which haven't reported.
    Why {
        train: u32,
        trains: u32,
        may: &'a [u32],
        away: &'a [u32],
    },
}

/// Adds a grant, after a word.
pub(crate) fn write_grant(
    out: &mut String,
    names: &Names,
    word: &str,
    spot: Spot,
    line: u32,
) -> Result<(), AllocError>
    requires { IsNamedSpot names.now spot }
    ensures { OnOk result (string_bytes out.new ≡ string_bytes out.old ++ (word.now
        ++ spec.grant_words names.now spot line)) }
{
    write!(out, "{word} ")?;
    write_spot(out, names, spot)?;
    write!(out, " line={line}")
}

// Adds what a train waits for.
fn write_why(
    out: &mut String,
    names: &Names,
    trains: u32,
    may: &[u32],
    away: &[u32],
) -> Result<(), AllocError>
    requires may { AreNamed names.now may.now }
    requires away { AreNamed names.now away.now }
    ensures { OnOk result (string_bytes out.new ≡ string_bytes out.old
        ++ spec.why_words names.now trains may.now away.now) }
{
    write!(out, " trains={trains} may=")?;
    write_trains(out, names, may)?;
    out.push_str(" away=")?;
    write_trains(out, names, away)
}

/// Adds the answer to a request of a train.
pub(crate) fn write_train(
    out: &mut String,
    names: &Names,
    answer: TrainAnswer<'_>,
) -> Result<(), AllocError>
    requires { spec.IsNamedAnswer names.now answer }
    ensures { OnOk result (string_bytes out.new ≡ string_bytes out.old ++ spec.train_words names.now answer.entry) }
{
    match answer {
        TrainAnswer::Granted { spot, line } => write_grant(out, names, "granted", spot, line),
        TrainAnswer::Again { spot, line } => write_grant(out, names, "again", spot, line),
        TrainAnswer::Told { prospect } => write_prospect(out, names, prospect),
        TrainAnswer::Dropped { train, wants } => {
            let train = names.train(train);
            write!(out, "dropped {train} {wants}")
        }
        TrainAnswer::There { train, place } => {
            let train = names.train(train);
            write!(out, "there {train} {place}")
        }
        TrainAnswer::Why {
            train,
            trains,
            may,
            away,
        } => {
            let train = names.train(train);
            write!(out, "why {train}")?;
            write_why(out, names, trains, may, away)
        }
    }
}
