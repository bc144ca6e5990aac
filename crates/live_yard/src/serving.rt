// Requests, one by one, before standing wants are tried.
ghost use Rattle.std.specs.Prelude.{◌≡◌, ◌<◌, ℕ, List, length, MatchOption};
ghost use Rattle.live_yard.specs.Answers.{told_reply, Asks, AsksAt, IsOfRun, Reports, Serves, StandsIfHeld, StandsLast};
ghost use Rattle.live_yard.specs.Answers.{TriesTable, Wants as IsWanted, WantsAt};
ghost use Rattle.live_yard.specs.Reported.{NamesElsewhere, NamesNext};

use crate::{Elsewhere, Reply, ReportedYard, Request, Told, WantQueue};
use plain_yard::CheckedTable;

// What the place that is named is, where it isn't the train's next one.
fn elsewhere<A: CheckedTable>(
    yard: &ReportedYard<'_, A>,
    train: u32,
    place: Option<u32>,
) -> Option<Elsewhere>
    requires { train < length yard.now.there }
    ensures { MatchOption result (NamesNext yard.now train place) (λ found. NamesElsewhere yard.now train place found) }
{
    match place {
        Some(place) => yard.elsewhere(train, place),
        None => None,
    }
}

// The answer to a train that was told this, with the number of the line that comes next.
fn reply_of(told: Told, line: u32) -> Reply
    ensures { result ≡ told_reply told line }
{
    match told {
        Told::May => Reply::Granted { line },
        _ => Reply::Held { told },
    }
}

// A train asks for its next place.
fn ask<A: CheckedTable>(yard: &mut ReportedYard<'_, A>, train: u32) -> Reply
    requires { train < length yard.old.there }
    ensures asks { (wants : List ℕ)
        → Asks (record { yard = yard.old; wants = wants }) train result (record { yard = yard.new; wants = wants }) }
    ensures size { length yard.new.there ≡ length yard.old.there }
{
    let line = yard.run().lines().len() as u32 + 1;
    let told = yard.go(train);
    reply_of(told, line)
}

// The want of a train stands last, also where it stood before.
fn stand_last(queue: &mut WantQueue, train: u32)
    requires { train < queue.old.trains }
    ensures wants { StandsLast queue.old.wants train queue.new.wants }
    ensures trains { queue.new.trains ≡ queue.old.trains }
{
    queue.drop_of(train);
    queue.stand(train);
}

// The want of a train that was told this stands last, where it has to wait.
fn stand_if_held(queue: &mut WantQueue, told: Told, train: u32)
    requires { train < queue.old.trains }
    ensures wants { StandsIfHeld told queue.old.wants train queue.new.wants }
    ensures trains { queue.new.trains ≡ queue.old.trains }
{
    match told {
        Told::May => {}
        Told::Arrived => {}
        _ => stand_last(queue, train),
    }
}

// A train wants its next place.
fn want<A: CheckedTable>(yard: &mut ReportedYard<'_, A>, queue: &mut WantQueue, train: u32) -> Reply
    requires train { train < length yard.old.there }
    requires trains { queue.old.trains ≡ length yard.old.there }
    ensures wants { IsWanted (record { yard = yard.old; wants = queue.old.wants }) train result
        (record { yard = yard.new; wants = queue.new.wants }) }
    ensures trains { queue.new.trains ≡ length yard.new.there }
{
    let line = yard.run().lines().len() as u32 + 1;
    let told = yard.go(train);
    stand_if_held(queue, told, train);
    reply_of(told, line)
}

// A train reports that it is wholly at a place, and that all behind it is clear.
fn report<A: CheckedTable>(yard: &mut ReportedYard<'_, A>, train: u32, place: u32) -> Reply
    requires { train < length yard.old.there }
    ensures reports { (wants : List ℕ)
        → Reports (record { yard = yard.old; wants = wants }) train place result
        (record { yard = yard.new; wants = wants }) }
    ensures size { length yard.new.there ≡ length yard.old.there }
{
    if !yard.reports() {
        return Reply::NoReports;
    }
    let at = yard.run().yard().positions().place(train);
    if at < place {
        return Reply::NotThere { at };
    }
    yard.report(train, place);
    Reply::There {
        place: yard.there().place(train),
    }
}

// Tries the next table, or says of the one that is named why it isn't the next.
fn try_table<A: CheckedTable>(yard: &mut ReportedYard<'_, A>, table: Option<u32>) -> Reply
    ensures tries { (wants : List ℕ)
        → TriesTable (record { yard = yard.old; wants = wants }) table result
        (record { yard = yard.new; wants = wants }) }
    ensures size { length yard.new.there ≡ length yard.old.there }
{
    let Some(table) = table else {
        return Reply::Tried {
            tried: yard.try_table(),
        };
    };
    let tables = yard.run().tables().len() as u32;
    if table == 0 || tables <= table {
        return Reply::NoTable { tables };
    }
    let tried = yard.run().yard().tried();
    if table <= tried {
        return Reply::TriedBefore {
            line: yard.line_of(table),
        };
    }
    if tried + 1 < table {
        return Reply::TooSoon { tried };
    }
    Reply::Tried {
        tried: yard.try_table(),
    }
}

// A train asks for its next place, or for the one that is named.
fn ask_at<A: CheckedTable>(yard: &mut ReportedYard<'_, A>, train: u32, place: Option<u32>) -> Reply
    requires { train < length yard.old.there }
    ensures asks { (wants : List ℕ)
        → AsksAt (record { yard = yard.old; wants = wants }) train place result
        (record { yard = yard.new; wants = wants }) }
    ensures size { length yard.new.there ≡ length yard.old.there }
{
    match elsewhere(yard, train, place) {
        Some(found) => Reply::Elsewhere { place: found },
        None => ask(yard, train),
    }
}

// A train wants its next place, or the one that is named.
fn want_at<A: CheckedTable>(
    yard: &mut ReportedYard<'_, A>,
    queue: &mut WantQueue,
    train: u32,
    place: Option<u32>,
) -> Reply
    requires train { train < length yard.old.there }
    requires trains { queue.old.trains ≡ length yard.old.there }
    ensures wants { WantsAt (record { yard = yard.old; wants = queue.old.wants }) train place result
        (record { yard = yard.new; wants = queue.new.wants }) }
    ensures trains { queue.new.trains ≡ length yard.new.there }
{
    match elsewhere(yard, train, place) {
        Some(found) => Reply::Elsewhere { place: found },
        None => want(yard, queue, train),
    }
}

/// Answers a request, and changes what it changes before standing wants are tried.
pub(crate) fn answer<A: CheckedTable>(
    yard: &mut ReportedYard<'_, A>,
    queue: &mut WantQueue,
    request: Request,
) -> Reply
    requires request { IsOfRun (length yard.old.there) request }
    requires trains { queue.old.trains ≡ length yard.old.there }
    ensures serves { Serves (record { yard = yard.old; wants = queue.old.wants }) request result
        (record { yard = yard.new; wants = queue.new.wants }) }
    ensures trains { queue.new.trains ≡ length yard.new.there }
{
    match request {
        Request::Ask { train, place } => ask_at(yard, train, place),
        Request::Want { train, place } => want_at(yard, queue, train, place),
        Request::Drop { train } => Reply::Dropped {
            wants: queue.drop_of(train),
        },
        Request::At { train, place } => report(yard, train, place),
        Request::Table { table } => try_table(yard, table),
    }
}
