// The one answer of each request.
ghost use Rattle.std.specs.Prelude.{◌≡◌, ◌++◌, OnOk, string_bytes};
ghost use Rattle.live_lines.specs.Answers as spec;
ghost use Rattle.live_lines.specs.Lines.{line_of};

use crate::lines::push_words;
use crate::refusals::write_refusal;
use crate::session::write_session;
use crate::tables::write_table;
use crate::trains::write_train;
use crate::{Page, Refusal, SessionAnswer, TableAnswer, TrainAnswer};
use rail_model::Names;
use std::alloc::AllocError;

/// The answer of a request.
#[derive(Clone, Copy)]
pub enum Answer<'a> {
    Train(TrainAnswer<'a>),
    Table(TableAnswer),
    Session(SessionAnswer<'a>),
    Refused(Refusal),
}

// Adds the words of an answer.
fn write_answer(out: &mut String, names: &Names, answer: Answer<'_>) -> Result<(), AllocError>
    requires { spec.IsNamed names.now answer }
    ensures { OnOk result (string_bytes out.new ≡ string_bytes out.old ++ spec.answer_words names.now answer.entry) }
{
    match answer {
        Answer::Train(answer) => write_train(out, names, answer),
        Answer::Table(answer) => write_table(out, names, answer),
        Answer::Session(answer) => write_session(out, answer),
        Answer::Refused(refusal) => write_refusal(out, refusal),
    }
}

impl<'a> Page<'a> {
    /// Adds the answer of a request, behind its tag.
    pub fn push_answer(&self, out: &mut Vec<u8>, answer: Answer<'_>) -> Result<(), AllocError>
        requires { spec.IsNamed self.now.names.now answer }
        ensures { OnOk result (out.new.items ≡ out.old.items ++ line_of self.now.tag.now
            (spec.answer_words self.now.names.now answer.entry)) }
    {
        let mut words = String::new(self.alloc);
        write_answer(&mut words, self.names, answer)?;
        push_words(out, self.tag, &words)
    }
}
