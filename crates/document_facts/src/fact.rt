// What a remark says.
use crate::member::MemberFact;

/// What a remark says of a document, by the numbers of the tables, sections and trains that it is about, each counted from 0.
#[derive(Clone, Copy)]
pub enum Fact {
    /// `ats` refuses the document.
    Refused,
    /// The text has members that are ignored, or are the likely cause of a refusal.
    Member {
        what: MemberFact,
    },
    /// Neither a mission nor a link leads to the point.
    PointUnused {
        point: u32,
    },
    /// No mission goes along the link.
    LinkUnused {
        link: usize,
    },
    /// So it is with this many more links.
    MoreLinksUnused {
        more: usize,
    },
    /// No mission comes to a point of the zone.
    ZoneUnused {
        zone: u32,
    },
    /// The train ends where an earlier one ends, and neither leaves the layout.
    EndsAsEarlier {
        table: u32,
        train: u32,
        earlier: u32,
    },
    /// The changes of a train in a section look like shares.
    LikeShares {
        table: u32,
        section: u32,
        train: u32,
    },
    /// No train ever has a share of the section.
    SectionUnused {
        table: u32,
        section: u32,
    },
    /// Some train has a share of the section, but it keeps none out.
    SectionIdle {
        table: u32,
        section: u32,
    },
    /// The section is the same as an earlier one.
    SectionRepeated {
        table: u32,
        section: u32,
        earlier: u32,
    },
    /// The train alone has more of the section somewhere than its limit.
    Overfilled {
        table: u32,
        section: u32,
        train: u32,
    },
    /// The train leaves the layout and keeps a share of the section.
    KeptForGood {
        table: u32,
        section: u32,
        train: u32,
    },
    /// At their last places the trains have more of the section than its limit.
    OverfullAtEnd {
        table: u32,
        section: u32,
    },
    /// The connection is met at the start.
    ConnectionMet {
        table: u32,
        connection: u32,
    },
    /// The connection isn't met at the start, but its train starts past the place.
    ConnectionPassed {
        table: u32,
        connection: u32,
    },
    /// All trains have arrived before the table is due.
    NeverDue {
        table: u32,
    },
    /// `ats` refuses the former document.
    FormerRefused,
    /// The section of the former document is in no table of the same number.
    SectionLost {
        table: u32,
        section: u32,
    },
}
