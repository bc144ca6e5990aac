// What the program can be asked for.

/// What the words ask for, with the numbers of its options.
#[derive(Clone, Copy)]
pub enum Order {
    /// Run the trains of a document. `workers` run them at once, in at most `rounds` rounds, in each of which a
    /// train asks for up to `block` steps; then one thread finishes the run. Without workers it makes all of it.
    Run {
        workers: u32,
        rounds: u32,
        block: u32,
    },
    /// Run the trains of a document on from the beginning of a journal, likewise.
    Resume {
        workers: u32,
        rounds: u32,
        block: u32,
    },
    /// Check the certificates of a document.
    Check,
    /// Check a journal of a document.
    Verify,
    /// Bring a document of version 1 to version 2.
    Migrate,
    /// Make the certificates of a document, each of at most `budget` nodes.
    Make {
        budget: u32,
    },
    /// Make the sections of a document from the rings of at most `most` trains, and its certificates.
    Derive {
        most: u32,
        budget: u32,
    },
    /// Make the sections of a document from the states that are stuck, in at most `rounds` rounds, and its
    /// certificates.
    Repair {
        budget: u32,
        rounds: u32,
    },
    /// Run the trains of a document by the times that they take.
    Simulate,
    /// Make a document of a number of trains from a seed.
    Generate {
        seed: u32,
        trains: u32,
    },
    /// Make a document of a number of trains from a seed, and run its trains by `workers`.
    Drill {
        seed: u32,
        trains: u32,
        workers: u32,
    },
    /// Make a number of turns of a document's trains and control, each by the one that is drawn from a seed, and finish
    /// the run on one thread.
    Weave {
        seed: u32,
        steps: u32,
    },
}

/// Why there is no order for the words.
#[derive(Clone, Copy)]
pub enum WordsRefused {
    /// The words ask for nothing that there is, or for two things, or have a number that is out of range.
    Words,
    /// There was no memory to read them.
    Memory,
}
