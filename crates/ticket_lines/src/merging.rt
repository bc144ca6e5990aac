// The lines of all passes, merged in the order of their tickets.
ghost use Rattle.std.specs.Prelude.{◌≡◌, ◌<◌, ◌+◌, ◌++◌, ℕ, List, [], length, slice_index, slice_index_or, slice_set, replicate, IfOk, IfSome, IfNone};
ghost use Rattle.rail_model.specs.Lines.{journal_of};
ghost use Rattle.ticket_lines.specs.declared.tickets.TicketLine.{TicketLine as TicketLineValue};
ghost use Rattle.ticket_lines.specs.Tickets.{Mark, all_lines, Course};
ghost use Rattle.ticket_lines.specs.Merging.{Row, AreRows, IsLeast, IsMerged, Merges, bare};

use crate::TicketLine;
use rail_model::Line;
use std::alloc::{AllocError, Global};

// The pass whose next line has the least ticket.
fn least(own: &[Vec<TicketLine>], heads: &[usize]) -> Option<usize>
    requires { length heads.now ≡ length own.now }
    ensures some { IfSome result (λ p. IsLeast own.now heads.now p) }
    ensures none { IfNone result (IsMerged own.now heads.now) }
{
    let mut best: Option<(usize, u64)> = None;
    for pass in 0..own.len() {
        if heads[pass] < own[pass].len() {
            let ticket = own[pass][heads[pass]].ticket;
            let better = match best {
                Some((_, other)) => ticket < other,
                None => true,
            };
            if better {
                best = Some((pass, ticket));
            }
        }
    }
    match best {
        Some((pass, _)) => Some(pass),
        None => None,
    }
}

// The next line of a pass.
fn take_next(own: &[Vec<TicketLine>], heads: &mut [usize], pass: usize) -> Line
    requires long { length heads.old ≡ length own.now }
    requires least { IsLeast own.now heads.old pass }
    ensures heads { heads.new ≡ slice_set heads.old pass (slice_index heads.old pass + 1) }
    ensures next { (d : Row) (t : TicketLineValue) → result ≡ (slice_index_or (slice_index_or own.now pass d).items (slice_index heads.old pass) t).line }
{
    let at = heads[pass];
    let row = &own[pass];
    let next = row[at];
    heads[pass] = at + 1;
    next.line
}

// Adds what is left, up to the last line.
fn merge(
    own: &[Vec<TicketLine>],
    heads: &mut [usize],
    lines: &mut Vec<Line>,
) -> Result<(), AllocError>
    requires { length heads.old ≡ length own.now }
    ensures { IfOk result (λ _. (marks : List Mark) → Merges own.now heads.old lines.old.items lines.old.items marks → lines.new.items ≡ lines.old.items ++ bare (all_lines 0 marks)) }
{
    while let Some(pass) = least(own, heads) {
        lines.push(take_next(own, heads, pass))?;
    }
    Ok(())
}

fn zeros(alloc: Global, count: usize) -> Result<Vec<usize>, AllocError>
    ensures { IfOk result (λ v. v.items ≡ replicate count 0) }
{
    vec![in alloc; 0usize; count]
}

fn copied(alloc: Global, lines: &[Line]) -> Result<Vec<Line>, AllocError>
    ensures { IfOk result (λ v. v.items ≡ lines.now) }
{
    lines.to_vec(alloc)
}

/// These lines, and then the journal of the history of which row p has the lines of pass p, where each entry is of a pass that has a row.
///
/// # Errors
///
/// Out of memory alone.
pub fn merged(
    alloc: Global,
    first: &[Line],
    own: &[Vec<TicketLine>],
) -> Result<Vec<Line>, AllocError>
    ensures { IfOk result (λ v. (course : Course) → AreRows own.now course → v.items ≡ first.now ++ journal_of course.tables course.opening course.history) }
{
    let mut heads = zeros(alloc, own.len())?;
    let mut lines = copied(alloc, first)?;
    merge(own, heads.as_mut_slice(), &mut lines)?;
    Ok(lines)
}
