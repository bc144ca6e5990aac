// A plan from its text.
ghost use Rattle.std.specs.Prelude.{◌<◌, IfOk, IsTrue, vec_len};
ghost use Rattle.toml.specs.Data.{Members};
ghost use Rattle.toml.specs.View.{table_view};
ghost use Rattle.plan_patterns.specs.Expanded.{expanded};
ghost use Rattle.plan_reading.specs.Said.{IsPlanOf, IsPlanRead, IsReading};

use crate::agreement::agrees;
use plan_document::Plan;
use plan_entries::{Entry, Fault, Faults, Kind};
use plan_keys::check_types;
use plan_making::plan_of;
use plan_patterns::expand;
use std::alloc::{AllocError, Global};
use toml::Table;
use toml::de::Error;

/// What a text is as a plan.
#[derive(Drop)]
pub enum PlanRead {
    Plan(Plan),
    /// All that is wrong with it, in the order of lines.
    Faults(Vec<Fault>),
}

// The number of the line in which a text goes on after some bytes, counted from 1.
fn line_after(bytes: &[u8]) -> u32 {
    let mut line = 1u32;
    for byte in bytes {
        if *byte == b'\n' {
            line = line.saturating_add(1);
        }
    }
    line
}

// Two texts as one.
fn joined(alloc: Global, what: &str, why: &str) -> Result<String, AllocError> {
    let mut words = String::from_str(alloc, what)?;
    words.push_str(why)?;
    Ok(words)
}

// A list of one fault.
fn alone(alloc: Global, fault: Fault) -> Result<Vec<Fault>, AllocError>
    ensures { IfOk result (λ list. 0 < vec_len list) }
{
    let mut list = Vec::new(alloc);
    list.push(fault)?;
    Ok(list)
}

// One fault in a line.
fn told(alloc: Global, line: u32, what: &str, why: &str) -> Result<Vec<Fault>, AllocError>
    ensures { IfOk result (λ list. 0 < vec_len list) }
{
    let words = joined(alloc, what, why)?;
    alone(alloc, Fault { line, words })
}

// One fault, after the first bytes of a text.
fn one_fault(
    alloc: Global,
    text: &[u8],
    at: usize,
    what: &str,
    why: &str,
) -> Result<PlanRead, AllocError>
    ensures { IfOk result (λ read. IsPlanRead text.now read) }
{
    let line = line_after(text.get(..at).unwrap_or(&[]));
    Ok(PlanRead::Faults(told(alloc, line, what, why)?))
}

// What a text that isn't TOML is as a plan.
fn not_toml(alloc: Global, text: &[u8], error: &Error) -> Result<PlanRead, AllocError>
    ensures { IfOk result (λ read. IsPlanRead text.now read) }
{
    match error.span() {
        Some(span) => one_fault(alloc, text, span.start, "no TOML: ", error.message()),
        None => Err(AllocError),
    }
}

// The faults that were found; one at least, where a plan isn't what its text says.
fn all_faults(alloc: Global, faults: Faults) -> Result<Vec<Fault>, AllocError>
    ensures { IfOk result (λ list. 0 < vec_len list) }
{
    let list = faults.into_list()?;
    if list.is_empty() {
        return told(alloc, 1, "the plan isn't what its text says", "");
    }
    Ok(list)
}

// What a text with these faults is as a plan.
fn read_faults(alloc: Global, faults: Faults) -> Result<PlanRead, AllocError>
    ensures { IfOk result (λ read. (text : Members) → IsReading text read) }
{
    Ok(PlanRead::Faults(all_faults(alloc, faults)?))
}

// Whether no fault was found, and a plan is what its text says.
fn is_right(alloc: Global, faults: &Faults, table: &Table, plan: &Plan) -> Result<bool, AllocError>
    ensures { IfOk result (λ right. IsTrue right → IsPlanOf (table_view table.now) plan.now) }
{
    if faults.is_empty() {
        return agrees(alloc, table, plan);
    }
    Ok(false)
}

// What a table of keys is as a plan, if this is what was made of it, with these faults.
fn read_made(
    alloc: Global,
    faults: Faults,
    table: &Table,
    plan: Plan,
) -> Result<PlanRead, AllocError>
    ensures { IfOk result (IsReading (table_view table.now)) }
{
    if is_right(alloc, &faults, table, &plan)? {
        return Ok(PlanRead::Plan(plan));
    }
    read_faults(alloc, faults)
}

// What a table of keys without patterns, counts and ways is as a plan.
fn read_plain(alloc: Global, faults: Faults, table: &Table) -> Result<PlanRead, AllocError>
    ensures { IfOk result (IsReading (table_view table.now)) }
{
    let mut faults = faults;
    let top = Entry::part(Kind::Top, Some(table));
    check_types(&mut faults, &top);
    let plan = plan_of(&mut faults, &top);
    read_made(alloc, faults, table, plan)
}

// What a table of keys is as a plan.
fn read_table(alloc: Global, text: &str, table: Table) -> Result<PlanRead, AllocError>
    ensures { IfOk result (IsReading (expanded (table_view table))) }
{
    let mut faults = Faults::new(alloc, text)?;
    match expand(&mut faults, table)? {
        Some(plain) => read_plain(alloc, faults, &plain),
        None => read_faults(alloc, faults),
    }
}

/// Reads a plan in TOML. All that is wrong with it is reported, with lines and names.
///
/// The keys at the top are `lines` (lists of points, each linked to the next), `switches` (points), `open`, `zones` (a
/// table: the number of a zone, and its points; those in none are in zone 0), `ways`, and the lists of tables `pattern`, `train`,
/// `section`, `connection` and `table`. Points and links are those of `lines`, and routes keep to them: they pass a switch as a
/// line does, or from the end of a line to the end of another, and neither begin nor end at one. If there are no lines, or
/// `open` is true, those of the routes follow, in the order in which they are first named. The second time that a point comes
/// on a route is called `"M#2"` where a place is meant.
///
/// - A train has a `name`, a `route`, and may have a `start` (else its first place), `exit` (else false) and `times`: a number
///   for each step, or a table of them by steps, as `"A B" = 3`, with a `default` for the others (else 1). `dwell` is a number
///   for each point that it comes to, or a table of them by points, with a `default` for the others (else 0): the step to the
///   point takes as much longer. The step out of the layout has none.
/// - A section has a `limit` and `points`; a train takes its weight of it while it is at one of them. `weight` is a number for
///   all trains, or a table of them by trains, with a `default` for the others (else 1); `only` names the trains that the section
///   concerns (else all). `name` serves messages. A train with `from` takes its weight from its place at that point, and with
///   `to` until before its place at that point: one that doesn't come to `from` takes nothing, and one that doesn't come to
///   `to`, or comes to it before, takes it to the end of its route, or nothing. Each is a point for all trains, or a table of
///   points by trains. With either of them, `points` may be left out, and means all. From leaving P to reaching Q: `from` is
///   the point after P, and `to` is Q.
/// - A connection has `train`, `leaves`, `after` and `reached`: the train may not leave the first point before the train
///   `after` has reached the other.
/// - A table is a further one, in force after `after` moves at the earliest. Its `train` lists trains with what differs from
///   the first table: `route`, `exit`, `times`, `dwell`. Its `section` and `connection`, if there are any, replace those of the first
///   table, which else hold by the names of their points.
/// - A pattern has a `name` and any other keys of a train; a train, or another pattern, with `pattern` takes those that it lacks
///   itself. A train with a `count` stands for as many, with the numbers from 1 on in place of each `{}` in its texts. `ways` is
///   a table of lists of points: in a route, `"@out"` stands for those of the way `out`, and `"@-out"` for them from its end on.
///
/// A plan that is given has been compared with the text once more, and is what it says in all of this but the links, and
/// which points there are and in which order.
pub fn read_plan(alloc: Global, text: &[u8]) -> Result<PlanRead, AllocError>
    ensures { IfOk result (IsPlanRead text.now) }
{
    let words = match std::str::from_utf8(text) {
        Ok(words) => words,
        Err(fault) => {
            return one_fault(alloc, text, fault.valid_up_to(), "the text isn't UTF-8", "");
        }
    };
    match toml::table_from_str(alloc, words) {
        Ok(table) => read_table(alloc, words, table),
        Err(error) => not_toml(alloc, text, &error),
    }
}
