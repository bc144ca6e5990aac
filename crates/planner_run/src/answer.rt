// What an order comes to.
ghost use Rattle.std.specs.Prelude.{IfOk};
ghost use Rattle.planner_run.specs.Answered.{IsAnswerFor, IsAnswerTo, IsMadeFor, IsWorkedOn};

use crate::certifying::certify;
use crate::comparing::{compare, compare_with};
use crate::drawing::layout;
use crate::entering::{Given, asks_for_entries, put};
use crate::explaining::{line as explain_line, state as explain_state, wrong};
use crate::linting::remarks;
use crate::ordering::{add_orders, order_by_run};
use crate::planning::plan;
use crate::protecting::protect;
use crate::reporting::{Asked, report};
use crate::timing::{GraphAsked, graph, timetable};
use cert_search::Watcher;
use plan_input::{PlanFile, Standing, document_for, is_document};
use planner_words::Order;
use std::alloc::{AllocError, Global};

/// The answer to an order.
#[derive(Drop)]
pub enum Answer {
    /// The text that was asked for.
    Text(Vec<u8>),
    /// Remarks on the input, in lines.
    Remarks(String),
    /// The text that was asked for, and notes on it, in lines.
    Noted(Vec<u8>, String),
    /// What is wrong with the input, in lines, each of which ends with a newline.
    Wrong(String),
}

// What an order works on: `plan` on the input itself, and the others on the document that stands for it.
fn standing_for(
    alloc: Global,
    order: &Order<'_>,
    plan: Option<&PlanFile<'_>>,
    input: &[u8],
) -> Result<Standing, AllocError>
    ensures { IfOk result (IsWorkedOn order.now plan.entry input.now) }
{
    match order {
        Order::Plan => Ok(Standing::Itself),
        _ => document_for(alloc, input, plan),
    }
}

const NO_OTHER: &str = "the file of --with isn't there\n";

const NO_PLAN: &str =
    "--into and --entries go with a plan, and the input is a document, which begins with a brace\n";

/// What an order comes to on this input, which is a document, or a plan in place of it; where it asks for entries, the plan with entries
/// for the sections that it adds, or these entries alone. `former` is the former document, and `plan` the file of the plan that the
/// document was made of, where the order names them. The watcher sees how far searches for certificates are.
pub fn answer_to<W: Watcher>(
    alloc: Global,
    order: &Order<'_>,
    input: &[u8],
    former: Option<&[u8]>,
    plan: Option<&PlanFile<'_>>,
    watcher: &W,
) -> Result<Answer, AllocError>
    ensures { IfOk result (IsAnswerTo order.now former.entry plan.entry input.now) }
{
    if asks_for_entries(order) && is_document(input) {
        return Ok(Answer::Wrong(String::from_str(alloc, NO_PLAN)?));
    }
    match made_for(alloc, order, input, former, plan, watcher)? {
        Answer::Text(text) => match put(alloc, order, input, text)? {
            Given::Text(text) => Ok(Answer::Text(text)),
            Given::Not(lines) => Ok(Answer::Wrong(lines)),
        },
        Answer::Noted(text, lines) => match put(alloc, order, input, text)? {
            Given::Text(text) => Ok(Answer::Noted(text, lines)),
            Given::Not(lines) => Ok(Answer::Wrong(lines)),
        },
        Answer::Remarks(lines) => Ok(Answer::Remarks(lines)),
        Answer::Wrong(lines) => Ok(Answer::Wrong(lines)),
    }
}

// What an order comes to on its input, whatever it asks for of it.
fn made_for<W: Watcher>(
    alloc: Global,
    order: &Order<'_>,
    input: &[u8],
    former: Option<&[u8]>,
    plan: Option<&PlanFile<'_>>,
    watcher: &W,
) -> Result<Answer, AllocError>
    ensures { IfOk result (IsMadeFor order.now former.entry plan.entry input.now) }
{
    match standing_for(alloc, order, plan, input)? {
        Standing::Itself => answer_for(alloc, order, input, &[], former, watcher),
        Standing::Named { names } => answer_for(alloc, order, input, &names, former, watcher),
        Standing::Plan { text, names } => answer_for(alloc, order, &text, &names, former, watcher),
        Standing::Wrong(lines) => Ok(Answer::Wrong(lines)),
    }
}

// What an order comes to on a document, with what stands behind it, and the names of the sections of each table; for `plan`, on a plan.
#[tactic(auto, using(crate::proofs::Suits::if_text_answers, crate::proofs::Suits::planning_answers, crate::proofs::Suits::lint_answers, crate::proofs::Suits::certifying_answers, crate::proofs::Suits::ordering_answers, crate::proofs::Suits::run_ordering_answers, crate::proofs::Suits::protecting_answers))]
fn answer_for<W: Watcher>(
    alloc: Global,
    order: &Order<'_>,
    document: &[u8],
    names: &[Vec<String>],
    former: Option<&[u8]>,
    watcher: &W,
) -> Result<Answer, AllocError>
    ensures { IfOk result (IsAnswerFor order.now former.entry document.now names.now) }
{
    match order {
        Order::Plan => plan(alloc, document),
        Order::ExplainState { table, at, run, .. } => explain_state(
            alloc, document, names, table, at, *run,
        ),
        Order::ExplainLine { line, .. } => explain_line(alloc, document, names, line),
        Order::Lint { .. } => remarks(alloc, document, names, former),
        Order::Certify { budget, effort } => certify(alloc, document, *budget, *effort, watcher),
        Order::Protect {
            budget,
            effort,
            rounds,
            ..
        } => protect(alloc, document, *budget, *effort, *rounds, watcher),
        Order::AddOrders { .. } => add_orders(alloc, document),
        Order::OrderByRun { seed, .. } => order_by_run(alloc, document, *seed),
        Order::Timetable { csv, delay, .. } => timetable(alloc, document, *delay, *csv, watcher),
        Order::Graph {
            train,
            blocks,
            delay,
            ..
        } => graph(
            alloc,
            document,
            *delay,
            GraphAsked {
                names,
                train: *train,
                blocks: *blocks,
            },
            watcher,
        ),
        Order::Report { title, delay, .. } => report(
            alloc,
            Asked {
                input: document,
                delay: *delay,
                names,
                title,
            },
            watcher,
        ),
        Order::CompareWith { csv, .. } => match former {
            Some(other) => compare_with(alloc, document, other, *csv, watcher),
            None => wrong(alloc, NO_OTHER),
        },
        Order::CompareDelayed { csv, delay } => {
            compare(alloc, document, document, Some(*delay), *csv, watcher)
        }
        Order::Layout { table, at, .. } => layout(alloc, document, names, table, *at),
    }
}
