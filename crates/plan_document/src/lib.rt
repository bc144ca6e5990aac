//! Documents of plans: what a plan says of its trains and sections becomes the text of a document.
#![tactic(auto)]

mod laws;
mod members;
mod plan;
mod shares;
mod tracks;
mod writing;

pub use laws::changes_add_up_to_shares;
pub use plan::{Plan, SectionPlan, TablePlan, Wait};
pub use shares::{is_among, share_at};
pub use tracks::{before, behind, goes, has_free_ends, is_linked, is_no_switch, keeps, point_at};
pub use writing::written;
