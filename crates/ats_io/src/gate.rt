// Where a pass of a shared yard calls out while it takes zones, reads and writes numbers and gives the zones back, so that a test can hold
// it there.

/// A moment of a pass at the shared yard.
#[derive(Clone, Copy)]
pub enum Moment {
    /// The number of the table in force was read without a zone.
    Glanced,
    /// All zones that it needs are held.
    Taken,
    /// All numbers that it needs are known.
    Read,
    /// Its entry is in the history.
    Appended,
    /// The last number that it owed is written.
    Paid,
    /// Zones were given back, and none is held.
    Released,
}

/// What is called at each moment of a pass. No promise rests on what it does.
pub trait Gate: Sync {
    /// The pass numbered `who` is at this moment.
    fn at(&self, who: u32, moment: Moment);
}

/// Holds nobody.
#[derive(Clone, Copy)]
pub struct NoGate;

impl Gate for NoGate {
    fn at(&self, _who: u32, _moment: Moment) {}
}
