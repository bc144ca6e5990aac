// Lines, each by what it asks for.
ghost use Rattle.std.specs.Prelude.{◌≡◌, ◌↔◌, IfOk, IsTrue, MatchOption, OnOk, take};
ghost use Rattle.live_lines.specs.declared.calls.Call.TheVariants.{Serve};
ghost use Rattle.live_yard.specs.declared.requests.Request.{Request as RequestValue};
ghost use Rattle.live_answers.specs.Rows.{Says};
ghost use Rattle.live_session.specs.Answering.{course_of as course_of_call, IsCalled, IsHeard};
ghost use Rattle.live_yard.specs.Answers.{IsOfRun};

use crate::Session;
use line_service::Course;
use live_lines::{Call, Heard};
use live_yard::Request;
use plain_yard::CheckedTable;
use std::alloc::AllocError;

// Whether the train of a request is one of the run's.
fn is_of_run(trains: u32, request: Request) -> bool
    ensures { IsTrue result ↔ IsOfRun trains request }
{
    match request {
        Request::Ask { train, .. }
        | Request::Want { train, .. }
        | Request::Drop { train }
        | Request::At { train, .. } => train < trains,
        Request::Table { .. } => true,
    }
}

// The request of a call, where it is one of the run.
fn request_of(trains: u32, call: Call) -> Option<Request>
    ensures { MatchOption result ((r : RequestValue) → call ≡ Serve r → IsOfRun trains r → ⊥)
        (λ r. (call ≡ Serve r) × IsOfRun trains r) }
{
    let Call::Serve { request } = call else {
        return None;
    };
    if is_of_run(trains, request) {
        Some(request)
    } else {
        None
    }
}

// Whether the session goes on after a call.
fn course_of(call: Call) -> Course
    ensures { result ≡ course_of_call call }
{
    match call {
        Call::Quit => Course::Ends,
        _ => Course::GoesOn,
    }
}

// The tag of a line: its first bytes, so many.
fn tag_of(line: &[u8], length: usize) -> &[u8]
    ensures { result.now ≡ take length line.entry.now }
{
    &line[..length.min(line.len())]
}

impl<'a, A: CheckedTable> Session<'a, A> {
    // Answers a call.
    fn push_call(&mut self, tag: &[u8], call: Call, text: &mut Vec<u8>) -> Result<(), AllocError>
        ensures { OnOk result (Says (IsCalled self.old tag.now call self.new) text.old.items text.new.items) }
    {
        match request_of(self.trains(), call) {
            Some(request) => self.serve(tag, request, text),
            None => self.push_query(tag, call, text),
        }
    }

    // Answers a line that is this.
    pub(crate) fn push_heard(
        &mut self,
        line: &[u8],
        heard: Heard,
        text: &mut Vec<u8>,
    ) -> Result<Course, AllocError>
        ensures { IfOk result (λ course. Says (λ added. IsHeard self.old line.now heard self.new added course)
            text.old.items text.new.items) }
    {
        match heard {
            Heard::Empty => Ok(Course::GoesOn),
            Heard::Refused { tag, fault } => {
                self.refuse(tag_of(line, tag), fault, text)?;
                Ok(Course::GoesOn)
            }
            Heard::Asked { tag, call } => {
                self.push_call(tag_of(line, tag), call, text)?;
                Ok(course_of(call))
            }
        }
    }
}
