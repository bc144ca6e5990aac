// The answers on tables.
ghost use Rattle.std.specs.Prelude.{◌≡◌, ◌<◌, ◌++◌, OnOk, length, string_bytes};
ghost use Rattle.live_lines.specs.Tables as spec;

use rail_model::Names;
use std::alloc::AllocError;

/// The line that answered a table: it took over, or the one before was kept.
#[derive(Clone, Copy)]
pub enum TableLine {
    Table { table: u32, line: u32 },
    Kept { table: u32, line: u32 },
}

/// The answer to `table` or `fits`.
#[derive(Clone, Copy)]
pub enum TableAnswer {
    /// The next table was tried.
    Tried {
        answer: TableLine,
    },
    /// The table had its answer before.
    Again {
        answer: TableLine,
    },
    /// The next table isn't due: so many moves were made, of so many.
    Early {
        table: u32,
        moves: u32,
        after: u32,
    },
    /// All tables were tried.
    NoMore,
    /// The next table would take over, when it is due.
    Fits {
        table: u32,
        due: bool,
    },
    /// A train's place in the next table differs before where it is.
    Differs {
        table: u32,
        due: bool,
        train: u32,
        place: u32,
    },
    /// A section of the next table would be over its limit.
    Over {
        table: u32,
        due: bool,
        section: u32,
        count: u32,
    },
}

// Adds the line that answered a table.
fn write_tried(out: &mut String, answer: TableLine) -> Result<(), AllocError>
    ensures { OnOk result (string_bytes out.new ≡ string_bytes out.old ++ spec.tried_words answer) }
{
    match answer {
        TableLine::Table { table, line } => write!(out, "table {table} line={line}"),
        TableLine::Kept { table, line } => write!(out, "kept {table} line={line}"),
    }
}

// Whether a table is due, in a word.
fn due_word(due: bool) -> &'static str
    ensures { result.now ≡ spec.due_word due }
{
    if due { "due" } else { "early" }
}

/// Adds the answer to `table` or `fits`.
pub(crate) fn write_table(
    out: &mut String,
    names: &Names,
    answer: TableAnswer,
) -> Result<(), AllocError>
    requires { spec.IsNamedTable names.now answer }
    ensures { OnOk result (string_bytes out.new ≡ string_bytes out.old ++ spec.table_words names.now answer) }
{
    match answer {
        TableAnswer::Tried { answer } => write_tried(out, answer),
        TableAnswer::Again { answer } => {
            out.push_str("again ")?;
            write_tried(out, answer)
        }
        TableAnswer::Early {
            table,
            moves,
            after,
        } => write!(out, "early {table} moves={moves} after={after}"),
        TableAnswer::NoMore => out.push_str("nomore"),
        TableAnswer::Fits { table, due } => {
            let due = due_word(due);
            write!(out, "fits {table} {due}")
        }
        TableAnswer::Differs {
            table,
            due,
            train,
            place,
        } => {
            let due = due_word(due);
            let train = names.train(train);
            write!(out, "differs {table} {due} train={train} place={place}")
        }
        TableAnswer::Over {
            table,
            due,
            section,
            count,
        } => {
            let due = due_word(due);
            write!(out, "over {table} {due} section={section} count={count}")
        }
    }
}
