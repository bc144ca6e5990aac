// A run by threads under a gate that holds a pass with its zones until another one has given its own back.
use crate::examples::is_right;
use ats_io::{Gate, Moment};
use std::sync::atomic::{AtomicBool, AtomicU8, Ordering};
use std::thread::yield_now;

// Pass 1 is served while pass 0 holds its zones, so its move comes first; pass 2, which needs one of them, is served
// last.
const ROW: &str =
    "run --workers 3: three-tracks => 0 1 move T1 C D/2 move T0 A B/3 move T2 E F/end moves=3 tables=0";

// How many turns a pass is held at most: far more than it takes, so that the test ends where the other pass never
// comes.
const MOST_TURNS: u32 = 1_000_000_000;

// Holds pass 0, once it has its zones, until pass 1 has given its own back; and passes 1 and 2, which have none yet,
// until pass 0 has its zones. It has a bit for each pass that went on.
#[derive(Drop)]
struct Hold {
    taken: AtomicBool,
    released: AtomicBool,
    went_on: AtomicU8,
}

impl Hold {
    fn new() -> Self {
        Hold {
            taken: AtomicBool::new(false),
            released: AtomicBool::new(false),
            went_on: AtomicU8::new(0),
        }
    }

    // Waits for a flag, and then sets the bit of a pass. Where the flag doesn't come within the turns, the bit isn't
    // set.
    fn follow(&self, flag: &AtomicBool, pass: u8) {
        for _turn in 0..MOST_TURNS {
            if flag.load(Ordering::SeqCst) {
                self.went_on.fetch_or(pass, Ordering::SeqCst);
                return;
            }
            yield_now();
        }
    }
}

impl Gate for Hold {
    fn at(&self, who: u32, moment: Moment) {
        match (who, moment) {
            (0, Moment::Taken) => {
                self.taken.store(true, Ordering::SeqCst);
                self.follow(&self.released, 1);
            }
            (1, Moment::Glanced) => self.follow(&self.taken, 2),
            (2, Moment::Glanced) => self.follow(&self.taken, 4),
            (1, Moment::Released) => self.released.store(true, Ordering::SeqCst),
            _ => {}
        }
    }
}

#[test]
fn zones_are_not_one_lock(rt: HostRuntime) {
    let gate = Hold::new();
    let is_served = matches!(is_right(&rt, rt.alloc(), &gate, ROW), Ok(true));
    assert!(rt; is_served && gate.went_on.load(Ordering::SeqCst) == 7);
}
