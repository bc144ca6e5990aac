// Calls that change nothing.
ghost use Rattle.std.specs.Prelude.{◌≡◌, ◌++◌, OnOk, Some};
ghost use Rattle.live_lines.specs.declared.calls.Call.TheVariants.{Can, Fits, Serve, Why};
ghost use Rattle.live_yard.specs.declared.requests.Request.{Request as RequestValue};
ghost use Rattle.live_lines.specs.Lines.{line_of};
ghost use Rattle.live_lines.specs.Session.{session_words};
ghost use Rattle.live_answers.specs.Rows.{Says};
ghost use Rattle.live_session.specs.Answering.{IsQueryText, ready_text as ready_text_of, refused_text};

use crate::Session;
use live_answers::{fit_of, push_since, push_state, push_told, push_told_all, push_why};
use live_lines::{Answer, Call, Fault, Page, Refusal, SessionAnswer, TableAnswer, push_help};
use plain_yard::CheckedTable;
use std::alloc::AllocError;

impl<'a, A: CheckedTable> Session<'a, A> {
    ghost use Rattle.std.specs.Prelude.{◌<◌, ◌≤◌, length};
    ghost use Rattle.live_answers.specs.Fits.{IsFit};
    ghost use Rattle.live_lines.specs.Tables.{IsNamedTable};
    ghost use Rattle.live_session.specs.States.{trains};
    ghost use Rattle.live_yard.specs.Answers.{IsOfRun};

    // The number of trains.
    pub(crate) fn trains(&self) -> u32
        ensures { result ≡ trains self.now }
    {
        self.yard.yard().there().len() as u32
    }

    // What the lines that answer a request of this tag are written with.
    pub(crate) fn page<'b>(&'b self, tag: &'b [u8]) -> Page<'b>
        ensures tag { result.tag.now ≡ tag.now }
        ensures names { result.names.now ≡ self.now.names }
    {
        Page {
            alloc: self.alloc,
            tag,
            names: self.names,
        }
    }

    // Refuses a line.
    pub(crate) fn refuse(
        &self,
        tag: &[u8],
        fault: Fault,
        text: &mut Vec<u8>,
    ) -> Result<(), AllocError>
        ensures { OnOk result (text.new.items ≡ text.old.items ++ refused_text tag.now fault) }
    {
        let refusal = Refusal::Line { fault };
        self.page(tag).push_answer(text, Answer::Refused(refusal))
    }

    // What a train is told.
    fn push_can(&self, tag: &[u8], train: u32, text: &mut Vec<u8>) -> Result<(), AllocError>
        ensures { OnOk result (Says (IsQueryText self.now tag.now (Can (Some train))) text.old.items text.new.items) }
    {
        if self.trains() <= train {
            return self.refuse(tag, Fault::Train, text);
        }
        let scene = self.scene();
        let told = scene.told(train);
        push_told(&self.page(tag), text, &scene, train, told)
    }

    // What a train waits for.
    fn push_why_of(&self, tag: &[u8], train: u32, text: &mut Vec<u8>) -> Result<(), AllocError>
        ensures { OnOk result (Says (IsQueryText self.now tag.now (Why train)) text.old.items text.new.items) }
    {
        if self.trains() <= train {
            return self.refuse(tag, Fault::Train, text);
        }
        push_why(&self.page(tag), text, &self.scene(), train)
    }

    // Whether the next table would take over.
    fn fit(&self) -> TableAnswer
        ensures fit { IsFit self.now.dispatch.yard.run.tables self.now.dispatch.yard.run.yard result }
        ensures named { IsNamedTable self.now.names result }
    {
        let run = self.yard.yard().run();
        fit_of(self.table(), run.tables(), run.yard())
    }

    // Whether the next table would take over.
    fn push_fit(&self, tag: &[u8], text: &mut Vec<u8>) -> Result<(), AllocError>
        ensures { OnOk result (Says (IsQueryText self.now tag.now Fits) text.old.items text.new.items) }
    {
        let fit = self.fit();
        self.page(tag).push_answer(text, Answer::Table(fit))
    }

    // The first line.
    pub(crate) fn push_ready(&self, tag: &[u8], text: &mut Vec<u8>) -> Result<(), AllocError>
        ensures { OnOk result (text.new.items ≡ text.old.items ++ ready_text_of self.now tag.now) }
    {
        let ready = SessionAnswer::Ready {
            document: self.document,
            counts: self.counts(),
        };
        self.page(tag).push_answer(text, Answer::Session(ready))
    }

    // The number of the last line.
    fn last_line(&self) -> u32
        ensures { result ≡ length self.now.dispatch.yard.run.lines }
    {
        self.lines().len() as u32
    }

    // Answers a call that changes nothing.
    pub(crate) fn push_query(
        &self,
        tag: &[u8],
        call: Call,
        text: &mut Vec<u8>,
    ) -> Result<(), AllocError>
        requires { (r : RequestValue) → call ≡ Serve r → IsOfRun (trains self.now) r → ⊥ }
        ensures { OnOk result (Says (IsQueryText self.now tag.now call) text.old.items text.new.items) }
    {
        match call {
            Call::Serve { .. } => self.refuse(tag, Fault::Train, text),
            Call::Can { train: Some(train) } => self.push_can(tag, train, text),
            Call::Can { train: None } => push_told_all(&self.page(tag), text, &self.scene()),
            Call::Why { train } => self.push_why_of(tag, train, text),
            Call::State => {
                let reports = self.yard.yard().reports();
                push_state(&self.page(tag), text, &self.scene(), reports, self.counts())
            }
            Call::Fits => self.push_fit(tag, text),
            Call::Since { line } => push_since(&self.page(tag), text, self.lines(), line),
            Call::Ping => self.push_session(
                tag,
                SessionAnswer::Pong {
                    line: self.last_line(),
                },
                text,
            ),
            Call::Hello => self.push_ready(tag, text),
            Call::Help => push_help(text, tag),
            Call::Quit => self.push_session(
                tag,
                SessionAnswer::Bye {
                    line: self.last_line(),
                },
                text,
            ),
        }
    }

    // Adds an answer on the session.
    fn push_session(
        &self,
        tag: &[u8],
        answer: SessionAnswer<'_>,
        text: &mut Vec<u8>,
    ) -> Result<(), AllocError>
        ensures { OnOk result (text.new.items ≡ text.old.items ++ line_of tag.now (session_words answer.entry)) }
    {
        self.page(tag).push_answer(text, Answer::Session(answer))
    }
}
