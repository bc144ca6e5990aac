// The answers on the session and the whole yard.
ghost use Rattle.std.specs.Prelude.{◌≡◌, ◌++◌, OnOk, string_bytes};
ghost use Rattle.live_lines.specs.Session as spec;

use std::alloc::AllocError;

/// What a yard counts: the lines and the moves of the journal, the table in force, the tables that were tried, of how
/// many, the trains that have arrived, and all trains.
#[derive(Clone, Copy)]
pub struct Counts {
    pub line: u32,
    pub moves: u32,
    pub table: u32,
    pub tried: u32,
    pub of: u32,
    pub arrived: u32,
    pub trains: u32,
}

/// The answer to a request of no single train.
#[derive(Clone, Copy)]
pub enum SessionAnswer<'a> {
    /// The first line: a hash of the document, and the counts.
    Ready { document: &'a str, counts: Counts },
    /// The counts.
    State { counts: Counts },
    /// How many trains may go on, wait and have arrived.
    Could { may: u32, wait: u32, arrived: u32 },
    /// The journal's lines after the first were told, up to the last.
    Since { line: u32, last: u32 },
    /// The last line.
    Pong { line: u32 },
    /// The last line, at the end of the session.
    Bye { line: u32 },
}

// Adds the counts.
fn write_counts(out: &mut String, counts: Counts) -> Result<(), AllocError>
    ensures { OnOk result (string_bytes out.new ≡ string_bytes out.old ++ spec.counts_words counts) }
{
    let Counts {
        line,
        moves,
        table,
        tried,
        of,
        arrived,
        trains,
    } = counts;
    write!(
        out,
        " line={line} moves={moves} table={table} tried={tried} of={of} arrived={arrived} trains={trains}"
    )
}

/// Adds the answer to a request of no single train.
pub(crate) fn write_session(out: &mut String, answer: SessionAnswer<'_>) -> Result<(), AllocError>
    ensures { OnOk result (string_bytes out.new ≡ string_bytes out.old ++ spec.session_words answer.entry) }
{
    match answer {
        SessionAnswer::Ready { document, counts } => {
            write!(out, "ready dispatch=1 document={document}")?;
            write_counts(out, counts)
        }
        SessionAnswer::State { counts } => {
            out.push_str("state")?;
            write_counts(out, counts)
        }
        SessionAnswer::Could { may, wait, arrived } => write!(
            out,
            "could may={may} wait={wait} arrived={arrived}"
        ),
        SessionAnswer::Since { line, last } => write!(out, "since {line} line={last}"),
        SessionAnswer::Pong { line } => write!(out, "pong line={line}"),
        SessionAnswer::Bye { line } => write!(out, "bye line={line}"),
    }
}
