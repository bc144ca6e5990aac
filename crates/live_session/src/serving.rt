// Requests that are served, and their texts.
ghost use Rattle.std.specs.Prelude.{◌≡◌, OnOk};
ghost use Rattle.live_yard.specs.declared.told.Told.{Told as ToldValue};
ghost use Rattle.live_yard.specs.declared.requests.Reply.TheVariants.{Held};
ghost use Rattle.live_answers.specs.Rows.{Says};
ghost use Rattle.live_session.specs.Answering.{IsNews, IsReply, IsRequestServed, IsServedText};

use crate::Session;
use crate::answers::answer_of;
use crate::lines::{Journal, push_lines};
use crate::news::push_news;
use crate::start::{Start, start_of, train_of};
use crate::status::Status;
use crate::tags::keep_tag;
use live_answers::push_told;
use live_yard::{Reply, Request, Served};
use plain_yard::CheckedTable;
use std::alloc::AllocError;

impl<'a, A: CheckedTable> Session<'a, A> {
    ghost use Rattle.std.specs.Prelude.{◌⊎◌, ◌+◌, ◌<◌, ◌≤◌, length};
    ghost use Rattle.live_answers.specs.Seen.{IsTold};
    ghost use Rattle.live_session.specs.Replies.{IsOnTable, train_of as train_of_request};
    ghost use Rattle.live_session.specs.States.{lines, seen, trains};
    ghost use Rattle.live_yard.specs.Answers.{IsOfRun};

    // Adds the answer of a request that was replied so.
    fn push_reply(
        &self,
        tag: &[u8],
        request: Request,
        start: Start,
        reply: Reply,
        text: &mut Vec<u8>,
    ) -> Result<(), AllocError>
        requires lines { start.line ≤ 4079 }
        requires tables { start.tried < 16 }
        requires place { start.place ≤ 127 }
        requires named { (train_of_request request < trains self.now) ⊎ IsOnTable reply }
        requires held { (told : ToldValue) → reply ≡ Held told
            → (train_of_request request < trains self.now) × IsTold (seen self.now) (train_of_request request) told }
        ensures { OnOk result (Says (IsReply self.now.names (seen self.now) tag.now (lines self.now) start request
            reply)
            text.old.items text.new.items) }
    {
        let scene = self.scene();
        if let Reply::Held { told } = reply {
            return push_told(&self.page(tag), text, &scene, train_of(request), told);
        }
        let Some(answer) = answer_of(self.lines(), start, request, reply) else {
            unreachable!();
        };
        self.page(tag).push_answer(text, answer)
    }

    // Adds what is told after a request.
    fn push_news_after(&self, before: Status, text: &mut Vec<u8>) -> Result<(), AllocError>
        ensures { OnOk result (Says (IsNews self.now before) text.old.items text.new.items) }
    {
        let moves = self.yard.yard().run().yard().moves();
        let now = self.status();
        push_news(
            self.alloc,
            text,
            self.names,
            before,
            now,
            moves,
            self.lines(),
        )
    }

    // Adds the text of a request that was served.
    fn push_served(
        &self,
        tag: &[u8],
        request: Request,
        start: Start,
        before: Status,
        served: Served,
        text: &mut Vec<u8>,
    ) -> Result<(), AllocError>
        requires lines { start.line ≤ 4079 }
        requires tables { start.tried < 16 }
        requires place { start.place ≤ 127 }
        requires named { (train_of_request request < trains self.now) ⊎ IsOnTable served.reply }
        requires held { (told : ToldValue) → served.reply ≡ Held told
            → (train_of_request request < trains self.now) × IsTold (seen self.now) (train_of_request request) told }
        requires counted { start.line + served.granted ≤ length (lines self.now) }
        ensures { OnOk result (Says (IsServedText self.now tag.now request start before served) text.old.items
            text.new.items) }
    {
        let lines = self.lines();
        let state = self.yard.yard().run().yard().positions();
        let journal = Journal {
            names: self.names,
            lines,
            state,
            tags: &self.tags,
        };
        let fired = lines.len() - served.granted;
        let first = start.line as usize;
        push_lines(self.alloc, text, &journal, false, first, fired - first)?;
        self.push_reply(tag, request, start, served.reply, text)?;
        push_lines(self.alloc, text, &journal, true, fired, served.granted)?;
        self.push_news_after(before, text)
    }

    // Serves a request of the run.
    pub(crate) fn serve(
        &mut self,
        tag: &[u8],
        request: Request,
        text: &mut Vec<u8>,
    ) -> Result<(), AllocError>
        requires { IsOfRun (trains self.old) request }
        ensures { OnOk result (Says (IsRequestServed self.old tag.now request self.new) text.old.items text.new.items) }
    {
        let start = start_of(&self.yard, request);
        let before = self.status();
        let served = self.yard.serve(request);
        keep_tag(self.alloc, &mut self.tags, tag, request, served.reply)?;
        self.push_served(tag, request, start, before, served, text)
    }
}
