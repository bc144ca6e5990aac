// What was so before a request.
ghost use Rattle.std.specs.Prelude.{◌≡◌, ◌<◌, ◌≤◌, slice_index};
ghost use Rattle.live_yard.specs.Firing.{IsSettled};
ghost use Rattle.live_session.specs.Replies.{start_of as start_of_request, train_of as train_of_request};

use live_yard::{LiveYard, Request};
use plain_yard::CheckedTable;
use rail_model::{HasTable, State};

/// The place of the request's train, the lines, the tables that were tried, and after how many moves the next one is
/// due.
#[derive(Clone, Copy)]
pub struct Start {
    pub place: u32,
    pub line: u32,
    pub tried: u32,
    pub after: u32,
}

/// The train of a request.
pub(crate) fn train_of(request: Request) -> u32
    ensures { result ≡ train_of_request request }
{
    match request {
        Request::Ask { train, .. }
        | Request::Want { train, .. }
        | Request::Drop { train }
        | Request::At { train, .. } => train,
        Request::Table { .. } => 0,
    }
}

/// The place of a train; 0 where there is no such train.
pub(crate) fn place_in(state: &State, train: u32) -> u32
    ensures { result ≡ slice_index state.now train }
{
    if (train as usize) < state.len() {
        state.place(train)
    } else {
        0
    }
}

/// What is so before a request.
pub(crate) fn start_of<A: CheckedTable>(yard: &LiveYard<'_, A>, request: Request) -> Start
    ensures start { result ≡ start_of_request yard.now request }
    ensures lines { result.line ≤ 4079 }
    ensures tables { result.tried < 16 }
    ensures place { result.place ≤ 127 }
    ensures settled { IsSettled yard.now }
{
    let run = yard.yard().run();
    // Read for the proof: the state is legal, and the lines are few.
    let _table = run.live_in_force();
    let standing = run.yard();
    let tried = standing.tried();
    let after = match run.tables().get(tried as usize + 1) {
        Some(next) => next.after(),
        None => 0,
    };
    Start {
        place: place_in(standing.positions(), train_of(request)),
        line: run.lines().len() as u32,
        tried,
        after,
    }
}
