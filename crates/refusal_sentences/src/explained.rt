// What an explanation may be.

use document_json::DocRefused;
use legal_state::Illegal;

/// An explanation, or why there is none. Each text ends with a newline.
#[derive(Drop)]
pub enum Explained {
    /// What holds each train in a legal state: the text of [`state_sentences::text_of`].
    State(String),
    /// What a line of `ats` means, where, and what to do about it.
    Refusal(String),
    /// The positions are no legal state of the table.
    NotLegal { cause: Illegal, text: String },
    /// The document has only this many tables.
    NoTable { tables: u32, text: String },
    /// `ats` refuses the document.
    NoDocument { refused: DocRefused, text: String },
    /// The words are no line of `ats`.
    NoLine(String),
}
