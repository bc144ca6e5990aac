// The members of documents and tables by name.
ghost use Rattle.std.specs.Prelude.{◌≡◌};
ghost use Rattle.document_shapes.specs.Members.{name_of};

/// A member of a document or of a table; `Document` is the whole.
#[derive(Clone, Copy)]
pub enum Member {
    Document,
    Version,
    Points,
    Links,
    Zones,
    Trains,
    Start,
    Tables,
    Missions,
    Exits,
    Sections,
    Connections,
    Certificate,
    Times,
    After,
}

impl Member {
    /// The name as it is in a document.
    pub fn name(self) -> &'static str
        ensures { result.now ≡ name_of self }
    {
        match self {
            Member::Document => "document",
            Member::Version => "version",
            Member::Points => "points",
            Member::Links => "links",
            Member::Zones => "zones",
            Member::Trains => "trains",
            Member::Start => "start",
            Member::Tables => "tables",
            Member::Missions => "missions",
            Member::Exits => "exits",
            Member::Sections => "sections",
            Member::Connections => "connections",
            Member::Certificate => "certificate",
            Member::Times => "times",
            Member::After => "after",
        }
    }
}
