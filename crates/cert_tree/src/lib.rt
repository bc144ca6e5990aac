//! Certificates as trees: a list of nodes is read as the one tree that it spells, or refused for what it lacks.
#![tactic(auto)]

mod cert;
mod laws;
mod reading;

pub use cert::{Cert, MOST_NODES, count, preorder};
pub use laws::{each_list_has_one_verdict, each_list_spells_one_tree};
pub use reading::{CertRefused, behind, tree};
