// The cause of a wait among those of a run.
ghost use Rattle.std.specs.Prelude.{◌≡◌, find, option_copied, option_map};
ghost use Rattle.wait_causes.specs.Found as spec;

use crate::Wait;

// The first wait of a train that ends at a tick.
fn ending_at(waits: &[Wait], train: u32, tick: u64) -> Option<&Wait>
    ensures { option_copied result ≡ find (spec.ends_at train tick) waits.now }
{
    waits
        .iter()
        .find(|wait| wait.train == train && wait.leaves == tick)
}

/// What a train waits for that leaves at this tick, if it is known.
pub fn cause_of(waits: &[Wait], train: u32, tick: u64) -> Option<&str>
    ensures { option_map (λ s. s.now) result ≡ spec.cause_of waits.now train tick }
{
    match ending_at(waits, train, tick) {
        Some(wait) => wait.cause.as_deref(),
        None => None,
    }
}
