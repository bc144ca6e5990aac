// How far a search is, on a terminal.
use planner_run::Watcher;
use std::cell::Cell;
use std::path::Path;
use std::time::Instant;

// After how many seconds the first line is written, and how many later each further one.
const FIRST: u64 = 2;

const LATER: u64 = 5;

/// Writes to standard error how far a search is, and the time. It writes nothing if standard error is no terminal, or if
/// there is no clock. A line that can't be written is left out.
#[derive(Drop)]
pub(crate) struct Progress<'a> {
    rt: &'a HostRuntime,
    begun: Option<Instant>,
    next: Cell<u64>,
}

// Whether standard error is a terminal, by the name of what is open there.
fn is_terminal(rt: &HostRuntime) -> bool {
    match Path::new("/proc/self/fd/2").read_link(rt) {
        Ok(open) => {
            open.as_os_str().starts_with("/dev/pts/") || open.as_os_str().starts_with("/dev/tty")
        }
        Err(_) => false,
    }
}

impl<'a> Progress<'a> {
    pub fn new(rt: &'a HostRuntime) -> Self {
        let begun = if is_terminal(rt) {
            Instant::now(rt).ok()
        } else {
            None
        };
        Progress {
            rt,
            begun,
            next: Cell::new(FIRST),
        }
    }

    // The seconds that are gone, if a line is due.
    fn due(&self) -> Option<u64> {
        let seconds = self.begun?.elapsed(self.rt).ok()?.as_secs();
        if seconds < self.next.get() {
            return None;
        }
        self.next.set(seconds.saturating_add(LATER));
        Some(seconds)
    }
}

impl Watcher for Progress<'_> {
    fn see(&self, nodes: usize, splits: usize) {
        if let Some(seconds) = self.due() {
            match eprintln!(self.rt;
                "planner: {seconds} s: {nodes} nodes, within {splits} splits"
            ) {
                Ok(()) | Err(_) => {}
            }
        }
    }
}
