// What is written of the sections that an order adds: the document, the plan with entries for them, or these entries.
ghost use Rattle.std.specs.Prelude.{◌≡◌, IfOk, IsTrue};
ghost use Rattle.planner_run.specs.Entering.{IsPutFor, has_entries as has_entries_of, output_of as output_for};

use plan_sections::{Adder, Written, enter};
use planner_words::{Order, Output};
use std::alloc::{AllocError, Global};

/// What is written of what was made of an input.
#[derive(Drop)]
pub(crate) enum Given {
    Text(Vec<u8>),
    /// Why there are no entries: lines.
    Not(String),
}

// What an order asks for.
fn output_of(order: &Order<'_>) -> Output
    ensures { result ≡ output_for order.now }
{
    match *order {
        Order::Protect { output, .. }
        | Order::AddOrders { output }
        | Order::OrderByRun { output, .. } => output,
        _ => Output::Document,
    }
}

/// Whether an order asks for entries.
pub(crate) fn asks_for_entries(order: &Order<'_>) -> bool
    ensures { result ≡ has_entries_of (output_for order.now) }
{
    match output_of(order) {
        Output::Document => false,
        Output::Plan | Output::Entries => true,
    }
}

// The command that adds an order's sections.
fn adder_of(order: &Order<'_>) -> Adder {
    match order {
        Order::Protect { .. } => Adder::Protect,
        _ => Adder::Order,
    }
}

/// What is written of what an order made of its input.
pub(crate) fn put(
    alloc: Global,
    order: &Order<'_>,
    input: &[u8],
    made: Vec<u8>,
) -> Result<Given, AllocError>
    ensures { IfOk result (IsPutFor order.now input.now made.items) }
{
    match output_of(order) {
        Output::Document => Ok(Given::Text(made)),
        Output::Plan => match enter(alloc, input, &made, adder_of(order))? {
            Written::Plan { text, .. } => Ok(Given::Text(text)),
            Written::Not(lines) => Ok(Given::Not(lines)),
        },
        Output::Entries => match enter(alloc, input, &made, adder_of(order))? {
            Written::Plan { entries, .. } => Ok(Given::Text(entries)),
            Written::Not(lines) => Ok(Given::Not(lines)),
        },
    }
}
