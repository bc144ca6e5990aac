// The line that is written of a failure.
ghost use Rattle.std.specs.Prelude.{◌≡◌, ◌++◌, IfOk, OnOk, IfSome, IfNone, string_bytes};
ghost use Rattle.ats_answers.specs.Report.{words_of, line_of, IsLineMade};

use crate::Failure;
use refusal_lines::{
    push_bad, push_connected, push_document, push_line, push_many, push_rounds, push_spent,
    push_stuck, push_text, push_tree,
};
use std::alloc::{AllocError, Global};

/// The line that says that there is no memory.
pub const NO_MEMORY: &str = "ats: 202 Memory\n";

/// The line of a failure whose line is fixed: it takes no memory.
pub fn fixed_line(failure: &Failure) -> Option<&'static str>
    ensures line { IfSome result (λ line. line.now ≡ line_of failure.now) }
    ensures made { IfNone result (IsLineMade failure.now) }
{
    match failure {
        Failure::Words => Some("ats: 201 Words\n"),
        Failure::Memory => Some(NO_MEMORY),
        Failure::ReadFault => Some("ats: 207 ReadFault\n"),
        Failure::WriteFault => Some("ats: 208 WriteFault\n"),
        Failure::TooLong => Some("ats: 104 TooLong limit=16777216\n"),
        Failure::NoJournal => Some("ats: 70 NoJournal\n"),
        _ => None,
    }
}

/// The line of a failure whose line is made.
///
/// # Errors
///
/// There was no memory.
pub fn line_of(alloc: Global, failure: &Failure) -> Result<String, AllocError>
    requires { IsLineMade failure.now }
    ensures { IfOk result (λ line. string_bytes line ≡ line_of failure.now) }
{
    let mut line = String::from_str(alloc, "ats: ")?;
    push_words(&mut line, failure)?;
    line.push_str("\n")?;
    Ok(line)
}

// Adds the number, the name and the fields of a failure whose line is made.
fn push_words(line: &mut String, failure: &Failure) -> Result<(), AllocError>
    requires { IsLineMade failure.now }
    ensures { OnOk result (string_bytes line.new ≡ string_bytes line.old ++ words_of failure.now) }
{
    match failure {
        Failure::Document(refused) => push_document(line, refused),
        Failure::Tree { table, refused } => push_tree(line, *table, refused),
        Failure::Certificate { table, bad } => push_bad(line, *table, bad),
        Failure::Spent { table, nodes } => push_spent(line, *table, *nodes),
        Failure::Stuck { table, at } => push_stuck(line, *table, at),
        Failure::Rounds { table, rounds, at } => push_rounds(line, *table, *rounds, at),
        Failure::Many { table, count } => push_many(line, *table, *count),
        Failure::Connected { table } => push_connected(line, *table),
        Failure::Text(fault) => push_text(line, fault),
        Failure::Line(fault) => push_line(line, fault),
        _ => unreachable!(),
    }
}
