// Remarks.
use document_facts::Fact;

/// What is to be said of a member of a document: the fact, the member's place there, as `tables[0].sections[2]`, and the fact in words.
#[derive(Drop)]
pub struct Remark {
    pub fact: Fact,
    pub place: String,
    pub words: String,
}
