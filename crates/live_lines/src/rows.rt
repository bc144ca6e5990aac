// The rows before an answer.
ghost use Rattle.std.specs.Prelude.{◌≡◌, ◌++◌, OnOk, string_bytes};
ghost use Rattle.live_lines.specs.Rows as spec;
ghost use Rattle.live_lines.specs.Lines.{line_of};
ghost use Rattle.live_lines.specs.Told.{IsNamedSpot};

use crate::causes::{word_of, write_prospect, write_spot};
use crate::lines::push_words;
use crate::{Page, Prospect, Spot};
use live_yard::Told;
use rail_model::Names;
use std::alloc::AllocError;

/// A row before the answer that it belongs to.
#[derive(Clone, Copy)]
pub enum Row<'a> {
    /// What a train is told, before the answer to `can *` or `why`.
    Told {
        prospect: Prospect<'a>,
    },
    /// Where a train is and what it is told, before the answer to `state`; with reports the place that it has reported.
    At {
        spot: Spot,
        told: Told,
        there: Option<u32>,
    },
}

// Adds where a train is and what it is told.
fn write_at(
    out: &mut String,
    names: &Names,
    spot: Spot,
    told: Told,
    there: Option<u32>,
) -> Result<(), AllocError>
    requires { IsNamedSpot names.now spot }
    ensures { OnOk result (string_bytes out.new ≡ string_bytes out.old ++ spec.at_words names.now spot told there) }
{
    out.push_str("at ")?;
    write_spot(out, names, spot)?;
    let word = word_of(told);
    match there {
        Some(place) => write!(out, " {word} there={place}"),
        None => write!(out, " {word}"),
    }
}

// Adds the words of a row.
fn write_row(out: &mut String, names: &Names, row: Row<'_>) -> Result<(), AllocError>
    requires { spec.IsNamedRow names.now row }
    ensures { OnOk result (string_bytes out.new ≡ string_bytes out.old ++ spec.row_words names.now row.entry) }
{
    out.push_str("| ")?;
    match row {
        Row::Told { prospect } => write_prospect(out, names, prospect),
        Row::At { spot, told, there } => write_at(out, names, spot, told, there),
    }
}

impl<'a> Page<'a> {
    /// Adds a row, behind the tag of its request.
    pub fn push_row(&self, out: &mut Vec<u8>, row: Row<'_>) -> Result<(), AllocError>
        requires { spec.IsNamedRow self.now.names.now row }
        ensures { OnOk result (out.new.items ≡ out.old.items ++ line_of self.now.tag.now
            (spec.row_words self.now.names.now row.entry)) }
    {
        let mut words = String::new(self.alloc);
        write_row(&mut words, self.names, row)?;
        push_words(out, self.tag, &words)
    }
}
