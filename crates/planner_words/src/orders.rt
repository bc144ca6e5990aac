// What the planner's program can be asked for.

/// How much is tried.
#[derive(Clone, Copy)]
pub enum Effort {
    Small,
    Usual,
    Great,
}

/// What is written of the sections that a command adds.
#[derive(Clone, Copy)]
pub enum Output {
    /// The document with them.
    Document,
    /// The plan that stands in place of the document, with an entry for each behind it.
    Plan,
    /// These entries alone.
    Entries,
}

/// What the words ask for, with the values of its options as they were written. A `plan` is the file of the plan that the document was made of:
/// sections are called by its names.
#[derive(Clone, Copy)]
pub enum Order<'a> {
    /// Make the document of a plan.
    Plan,
    /// Explain a state of a document's table, given by the positions of its trains; with `run`, also whether a run from the start leads there.
    ExplainState {
        table: &'a str,
        at: &'a str,
        run: bool,
        plan: Option<&'a str>,
    },
    /// Explain a line that `ats` printed.
    ExplainLine {
        line: &'a str,
        plan: Option<&'a str>,
    },
    /// List what a document says without effect, or what of a former document, in a file, is gone.
    Lint {
        before: Option<&'a str>,
        plan: Option<&'a str>,
    },
    /// Find certificates for the tables of a document by search, each of at most `budget` nodes, 1 to 1,000,000.
    Certify {
        budget: u32,
        effort: Effort,
    },
    /// Add guards to the tables of a document, at most `rounds` each, until each is certified, by searches as for `Certify`.
    Protect {
        budget: u32,
        effort: Effort,
        rounds: u32,
        output: Output,
    },
    /// Add sections to a document that keep trains in the order that its tracks force.
    AddOrders {
        output: Output,
    },
    /// Add sections to a document that keep trains in the order of a run, which is given or drawn from a seed. The lines that
    /// are given may be in a file.
    OrderByRun {
        seed: u32,
        journal: Option<&'a str>,
        output: Output,
    },
    /// Write the timetable of a timed run, whose lines may be in a file, as columns or with commas. Without lines, the run may have a delay.
    Timetable {
        csv: bool,
        journal: Option<&'a str>,
        delay: Option<&'a str>,
    },
    /// Draw the same, along the route of a train, and with a bar for each point that is taken.
    Graph {
        train: Option<&'a str>,
        journal: Option<&'a str>,
        blocks: bool,
        delay: Option<&'a str>,
    },
    /// Write a page of the same, with this title.
    Report {
        title: &'a str,
        journal: Option<&'a str>,
        delay: Option<&'a str>,
    },
    /// Compare a run with that of another input, in a file, as columns or with commas.
    CompareWith {
        csv: bool,
        other: &'a str,
    },
    /// Compare the run of a plan or document with the same with a delay.
    CompareDelayed {
        csv: bool,
        delay: &'a str,
    },
    /// Draw the layout of a document, with its trains at the start of a table or at these positions.
    Layout {
        table: &'a str,
        at: Option<&'a str>,
        plan: Option<&'a str>,
    },
}
