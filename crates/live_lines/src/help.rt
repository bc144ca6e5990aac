// The verbs.
ghost use Rattle.std.specs.Prelude.{◌≡◌, ◌++◌, flat_map, OnOk};
ghost use Rattle.live_lines.specs.Lines.{line_of};
ghost use Rattle.live_lines.specs.Rows as spec;

use crate::lines::push_words;
use std::alloc::AllocError;

// What each verb takes, as rows.
const VERBS: [&str; 14] = [
    "| ask TRAIN [PLACE]",
    "| want TRAIN [PLACE]",
    "| drop TRAIN",
    "| can TRAIN | *",
    "| why TRAIN",
    "| table [TABLE]",
    "| fits ",
    "| state ",
    "| since LINE",
    "| ping ",
    "| hello ",
    "| at TRAIN PLACE",
    "| help ",
    "| quit ",
];

// Adds lines, all behind one tag.
fn push_rows(out: &mut Vec<u8>, tag: &[u8], rows: &[&str]) -> Result<(), AllocError>
    ensures { OnOk result (out.new.items ≡ out.old.items ++ flat_map (λ row. line_of tag.now row.now) rows.now) }
{
    for row in rows {
        push_words(out, tag, row)?;
    }
    Ok(())
}

/// Adds what each verb takes, a row each, and how many they are.
pub fn push_help(out: &mut Vec<u8>, tag: &[u8]) -> Result<(), AllocError>
    ensures { OnOk result (out.new.items ≡ out.old.items ++ spec.help_text tag.now) }
{
    push_rows(out, tag, &VERBS)?;
    push_words(out, tag, "help requests=14")
}
