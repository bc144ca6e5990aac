// Waits.

/// A wait of a train at a point of its way: the tick at which it leaves, and what it waits for, as `for T1 at N`, if something kept it.
#[derive(Drop)]
pub struct Wait {
    pub train: u32,
    pub leaves: u64,
    pub cause: Option<String>,
}
