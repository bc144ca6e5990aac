// The line that is written of a failure.
ghost use Rattle.std.specs.Prelude.{◌≡◌, ◌++◌, IfOk, OnOk, string_bytes};
ghost use Rattle.dispatch_run.specs.Report as report;

use crate::Failure;
use line_service::ServeFault;
use live_header::{Refused, Unread};
use refusal_lines::{push_bad, push_document, push_line, push_text, push_tree};
use std::alloc::{AllocError, Global};

const MEMORY: &str = "202 Memory";

/// The line of a failure.
pub(crate) fn line_of(alloc: Global, failure: &Failure) -> Result<String, AllocError>
    ensures { IfOk result (λ line. string_bytes line ≡ report.line_of failure.now) }
{
    let mut line = String::from_str(alloc, "dispatch: ")?;
    push_words(&mut line, failure)?;
    line.push_str("\n")?;
    Ok(line)
}

// Adds the number, the name and the fields of a failure.
fn push_words(line: &mut String, failure: &Failure) -> Result<(), AllocError>
    ensures { OnOk result (string_bytes line.new ≡ string_bytes line.old ++ report.words_of failure.now) }
{
    match failure {
        Failure::Unread(unread) => line.push_str(unread_words(*unread)),
        Failure::Header(refused) => push_refused(line, refused),
        Failure::Broken(fault) => line.push_str(broken_words(*fault)),
    }
}

fn unread_words(unread: Unread) -> &'static str
    ensures { result.now ≡ report.unread_words unread }
{
    match unread {
        Unread::Memory => MEMORY,
        Unread::ReadFault => "207 ReadFault",
        Unread::TooLong => "104 TooLong limit=16777216",
        Unread::NoJournal => "70 NoJournal",
        Unread::NoLive => "300 NoLive",
    }
}

fn broken_words(fault: ServeFault) -> &'static str
    ensures { result.now ≡ report.broken_words fault }
{
    match fault {
        ServeFault::Memory => MEMORY,
        ServeFault::Read => "207 ReadFault",
        ServeFault::Write => "208 WriteFault",
    }
}

// Adds what is said of a header that opens nothing.
fn push_refused(line: &mut String, refused: &Refused) -> Result<(), AllocError>
    ensures { OnOk result (string_bytes line.new ≡ string_bytes line.old ++ report.refused_words refused.now) }
{
    match refused {
        Refused::Memory => line.push_str(MEMORY),
        Refused::Other => line.push_str("313 Document"),
        Refused::Document(refused) => push_document(line, refused),
        Refused::Tree { table, refused } => push_tree(line, *table, refused),
        Refused::Certificate { table, bad } => push_bad(line, *table, bad),
        Refused::Text(fault) => push_text(line, fault),
        Refused::Line(fault) => push_line(line, fault),
    }
}
