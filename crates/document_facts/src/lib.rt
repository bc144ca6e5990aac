//! What is so of a document: what has no effect or is likely a mistake, each fact by the numbers of what it is about. `document_lint` puts it
//! into words.
#![tactic(auto)]

mod afters;
mod exact;
mod fact;
mod finding;
mod former;
mod found;
mod laws;
mod member;
mod object;
mod same;
mod sections;
mod shares;
mod trains;
mod unused;

pub use exact::{
    count_at_end, end_share, end_together, is_overfull_at_end, is_unused, most, most_together,
    never_binds, overfills_alone,
};
pub use fact::Fact;
pub use finding::find_in;
pub use former::find_lost;
pub use found::Found;
pub use laws::{
    documents_that_lose_nothing_keep_each_section, never_binding_sections_keep_nothing_out,
    overfilling_trains_never_come_there, trains_that_end_together_never_both_arrive,
    trains_that_overfill_at_the_end_never_all_arrive,
};
pub use member::MemberFact;
pub use object::Object;
pub use same::has_section;
pub use shares::{MAX_PLACES, look_like_shares};
