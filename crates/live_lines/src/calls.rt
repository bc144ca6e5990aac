// What a line is, as plain data.
use live_yard::Request;

/// What a line asks for. A train is its number.
#[derive(Clone, Copy)]
pub enum Call {
    /// Something that may change the yard.
    Serve { request: Request },
    /// What a train would be told, or without a train what each would be.
    Can { train: Option<u32> },
    /// What a train waits for.
    Why { train: u32 },
    /// Where all trains are.
    State,
    /// Whether the next table would take over now.
    Fits,
    /// The journal's lines after this one.
    Since { line: u32 },
    /// The number of the last line.
    Ping,
    /// The first line again.
    Hello,
    /// The verbs.
    Help,
    /// The end of the session.
    Quit,
}

/// Why a line is no request.
#[derive(Clone, Copy)]
pub enum Fault {
    /// It has too many bytes.
    Long,
    /// The byte at this place, counted from 0, is no printable ASCII byte.
    Byte { at: usize },
    /// The first word begins with `#` and is no tag.
    Tag,
    /// There is no such verb.
    Verb,
    /// The verb takes other words: too many, too few, or no number.
    Words,
    /// There is no such train.
    Train,
    /// A report, where trains don't report.
    Reports,
}

/// What a line is. Its tag are its first bytes, so many, with the `#`; 0 where it has none.
#[derive(Clone, Copy)]
pub enum Heard {
    /// An empty line, which has no answer.
    Empty,
    /// A request.
    Asked { tag: usize, call: Call },
    /// No request.
    Refused { tag: usize, fault: Fault },
}
