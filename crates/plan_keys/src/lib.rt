//! The keys that each part of a plan takes: all that are unknown or missing, and values of wrong types.
#![tactic(auto)]

mod types;

pub use types::{check_counts, check_patterns, check_types};
