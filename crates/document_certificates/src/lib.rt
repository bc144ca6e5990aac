//! A document with certificates that are found by search; or the first table of which none is found.
#![tactic(auto)]

mod certifying;
mod uncertified;

pub use certifying::certified_text;
pub use uncertified::Uncertified;
