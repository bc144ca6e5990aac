//! Documents: JSON bytes are read as a layout, its tables and a start that fit together, or the first thing wrong with them is reported; and documents are written.
#![tactic(auto)]

mod checks;
mod doc;
mod frame;
mod kept;
mod laws;
mod members;
mod reading;
mod refused;
mod remaking;
mod renewing;
mod spelling;
mod tables;
mod writing;

pub use doc::{
    Doc, after_of, layout_of, names_of, nodes_of, start_of, table_of, tables_apart, tables_of,
    times_of, version,
};
pub use frame::Frame;
pub use kept::{Kept, document_kept};
pub use laws::{light_sections_are_taken, read_documents_are_formed};
pub use reading::{document, document_from};
pub use refused::DocRefused;
pub use remaking::{write_certified, write_migrated, write_replaced};
pub use renewing::{migrate, replaced};
pub use spelling::{Certified, TreeRefused, certificates};
pub use writing::write;
