//! The words that say what is wrong and where, for each refusal of a document, a certificate and a journal,
//! and for each table whose sections or certificate can't be made: number, name and fields.
#![tactic(auto)]

mod certificates;
mod documents;
mod fields;
mod journals;
mod layouts;
mod makers;
mod marks;
mod missions;
mod refusals;
mod starts;

pub use refusals::{
    push_bad, push_connected, push_document, push_line, push_many, push_rounds, push_spent,
    push_stuck, push_text, push_tree,
};
