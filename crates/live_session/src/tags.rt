// For each train the tag of its last want.
ghost use Rattle.std.specs.Prelude.{◌≡◌, [], ◌<◌, length, replicate, slice_set, slice_index_or, IfOk, OnOk};
ghost use Rattle.live_yard.specs.Answers.{IsOfRun};
ghost use Rattle.live_session.specs.Answering.{tags_with};
ghost use Rattle.live_session.specs.Replies.{keeps_tag};

use live_yard::{Reply, Request};
use std::alloc::{AllocError, Global};
use std::marker::Model;

/// For each train the tag of its last want, at first none.
#[derive(Drop)]
pub struct WantTags {
    tags: Vec<Vec<u8>>,
}

impl Model for WantTags {
    ghost use Rattle.std.specs.Prelude.{List, map, ℕ};

    ghost Value = { List (List ℕ) };

    ghost view = { λ t. map (λ tag. tag.items) t.tags.items };
}

impl WantTags {
    /// No tags of so many trains.
    ///
    /// # Errors
    ///
    /// Out of memory.
    pub(crate) fn new(alloc: Global, trains: usize) -> Result<Self, AllocError>
        ensures { IfOk result (λ tags. tags ≡ replicate trains []) }
    {
        let mut tags = Vec::new(alloc);
        for _train in 0..trains {
            tags.push(Vec::new(alloc))?;
        }
        Ok(WantTags { tags })
    }

    /// The tag of a train; none where there is no such train.
    pub(crate) fn of(&self, train: u32) -> &[u8]
        ensures { result.now ≡ slice_index_or self.now train [] }
    {
        match self.tags.get(train as usize) {
            Some(tag) => tag,
            None => &[],
        }
    }

    /// Keeps a train's tag.
    ///
    /// # Errors
    ///
    /// Out of memory.
    pub(crate) fn keep(&mut self, alloc: Global, train: u32, tag: &[u8]) -> Result<(), AllocError>
        requires { train < length self.old }
        ensures kept { OnOk result (self.new ≡ slice_set self.old train tag.now) }
        ensures size { length self.new ≡ length self.old }
    {
        self.tags[train as usize] = Vec::from_slice(alloc, tag)?;
        Ok(())
    }
}

/// Keeps the tag of a want that has to wait.
pub(crate) fn keep_tag(
    alloc: Global,
    tags: &mut WantTags,
    tag: &[u8],
    request: Request,
    reply: Reply,
) -> Result<(), AllocError>
    requires { IsOfRun (length tags.old) request }
    ensures kept { OnOk result (tags.new ≡ tags_with tags.old tag.now (keeps_tag request reply)) }
    ensures size { length tags.new ≡ length tags.old }
{
    match (request, reply) {
        (Request::Want { train, .. }, Reply::Held { .. }) => tags.keep(alloc, train, tag),
        _ => Ok(()),
    }
}
