// Orders without workers are served by a call that waits for nobody: its runtime needs no way to wait.
ghost use Rattle.ats_words.specs.Subcommands.{HasItsNumbers};
ghost use Rattle.ats_run.specs.Orders.{IsAlone};

use crate::devices::first_path_journal;
use crate::examples::documents::document_called;
use ats_io::{SureSink, SureSource};
use ats_run::serve_alone;
use ats_words::Order;
use std::alloc::Global;
use std::thread::Threads;

// Whether an order without workers writes this for the first path, and reads it to its end.
fn is_served(rt: &(impl Threads + Sync), alloc: Global, order: Order, wanted: &[u8]) -> bool
    requires numbers { HasItsNumbers order }
    requires alone { IsAlone order }
{
    let text = document_called("first-path").unwrap_or("");
    let Ok(given) = Vec::from_slice(alloc, text.as_bytes()) else {
        return false;
    };
    let mut source = SureSource::new(given);
    let Ok(mut out) = SureSink::new(alloc) else {
        return false;
    };
    serve_alone(rt, alloc, order, &mut source, &mut out).is_ok()
        && source.left().is_empty()
        && out.bytes() == Some(wanted)
}

const RUN_ALONE: Order = Order::Run {
    workers: 0,
    rounds: 1000,
    block: 1,
};

#[test]
fn orders_without_workers_wait_for_nobody(rt: HostRuntime) {
    let alloc = rt.alloc();
    assert!(rt; is_served(&rt, alloc, RUN_ALONE, first_path_journal()));
    let checked = b"accepted tables=1 nodes=3\n";
    assert!(rt; is_served(&rt, alloc, Order::Check, checked));
}
