// The dispatcher: a run with reports, and standing wants.
ghost use Rattle.std.specs.Prelude.{◌≡◌, length, IfOk};

use crate::serving::answer;
use crate::settling::settle;
use crate::{ReportedYard, Request, Served, WantQueue};
use plain_yard::CheckedTable;
use std::alloc::{AllocError, Global};
use std::marker::Model;

/// A run with reports, and the trains that have a standing want. No standing want can be granted.
#[derive(Drop)]
pub struct LiveYard<'a, A: CheckedTable> {
    yard: ReportedYard<'a, A>,
    queue: WantQueue,
}

impl<'a, A: CheckedTable> Model for LiveYard<'a, A> {
    ghost use Rattle.std.specs.Prelude.{◌≡◌, length};
    ghost use Rattle.live_yard.specs.Firing.{IsSettled, DispatchState};

    ghost Value = { DispatchState };

    ghost view = { λ s. record { yard = s.yard; wants = s.queue.wants } };

    ghost invariant = { λ s. (s.queue.trains ≡ length s.yard.there)
        × IsSettled (record { yard = s.yard; wants = s.queue.wants }) };
}

impl<'a, A: CheckedTable> LiveYard<'a, A> {
    ghost use Rattle.std.specs.Prelude.{[]};
    ghost use Rattle.live_yard.specs.Answers.{IsOfRun, IsServed};
    ghost use Rattle.live_yard.specs.Firing.{IsSettled};

    /// A dispatcher without standing wants.
    ///
    /// # Errors
    ///
    /// Out of memory.
    pub fn new(alloc: Global, yard: ReportedYard<'a, A>) -> Result<Self, AllocError>
        ensures { IfOk result (λ live. live ≡ record { yard = yard.entry; wants = [] }) }
    {
        let queue = WantQueue::new(alloc, yard.there().len() as u32)?;
        Ok(LiveYard { yard, queue })
    }

    /// The run with its reports.
    pub fn yard(&self) -> &ReportedYard<'a, A>
        ensures yard { result.now ≡ self.now.yard }
        ensures settled { IsSettled self.now }
    {
        &self.yard
    }

    /// The trains that have a standing want, in the order of coming.
    pub fn wants(&self) -> &[u32]
        ensures { result.now ≡ self.now.wants }
    {
        self.queue.as_slice()
    }

    /// Answers a request, and then grants standing wants in the order of coming, going on behind the one that was
    /// granted and then again from the first, until none can be granted. Takes no memory.
    pub fn serve(&mut self, request: Request) -> Served
        requires { IsOfRun (length self.old.yard.there) request }
        ensures served { IsServed self.old request result self.new }
        ensures settled { IsSettled self.new }
    {
        let reply = answer(&mut self.yard, &mut self.queue, request);
        let granted = settle(&mut self.yard, &mut self.queue);
        Served { reply, granted }
    }
}
