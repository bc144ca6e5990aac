// What is to be said of the members of a text.
use crate::object::Object;

/// What is to be said of members that the text of a document has, by their numbers in their object, counted from 0.
#[derive(Clone, Copy)]
pub enum MemberFact {
    /// This member of an object has a name that nothing reads.
    Unknown {
        object: Object,
        number: usize,
    },
    /// So have this many more members of the object.
    MoreUnknown {
        object: Object,
        more: usize,
    },
    /// An object has a member more than once: this one of those that are read.
    Repeated {
        object: Object,
        known: usize,
    },
    /// A table has exits, which only later versions read.
    ExitsIgnored {
        table: usize,
    },
    /// A table has connections, which only later versions read.
    ConnectionsIgnored {
        table: usize,
    },
    /// Numbers of a train in a section of a document that is refused look like shares.
    MayBeShares {
        table: usize,
        section: usize,
        train: usize,
    },
}
