// The session.
ghost use Rattle.std.specs.Prelude.{◌≡◌, OnOk, length};
ghost use Rattle.live_answers.specs.Rows.{Says};
ghost use Rattle.live_session.specs.Answering.{IsOpening};

use crate::status::{Status, status_of};
use crate::tags::WantTags;
use live_answers::{Scene, counts_of};
use live_lines::Counts;
use live_yard::LiveYard;
use plain_yard::{CheckedTable, PlainYard};
use rail_model::{Line, Names, Table};
use std::alloc::{AllocError, Global};
use std::marker::Model;

/// What trains and points are called, the hash of the document, the dispatcher, and for each train the tag of its last
/// want.
#[derive(Drop)]
pub struct Session<'a, A: CheckedTable> {
    pub(crate) alloc: Global,
    pub(crate) names: &'a Names,
    pub(crate) document: &'a str,
    pub(crate) yard: LiveYard<'a, A>,
    pub(crate) tags: WantTags,
}

impl<'a, A: CheckedTable> Model for Session<'a, A> {
    ghost use Rattle.live_session.specs.States.{IsReady, SessionState};

    ghost Value = { SessionState };

    ghost view = { λ s. record { names = s.names.now; document = s.document.now; dispatch = s.yard; tags = s.tags } };

    ghost invariant = { λ s. IsReady (record {
      names = s.names.now;
      document = s.document.now;
      dispatch = s.yard;
      tags = s.tags;
    }) };
}

impl<'a, A: CheckedTable> Session<'a, A> {
    ghost use Rattle.std.specs.Prelude.{[], ◌≤◌, All, IfOk, replicate};
    ghost use Rattle.move_journal.specs.Printable.{AreEnough, IsNamed};
    ghost use Rattle.live_answers.specs.Prospects.{HasNames};
    ghost use Rattle.live_session.specs.News.{IsStatus};
    ghost use Rattle.live_session.specs.States.{counts, lines, seen};
    ghost use Rattle.live_yard.specs.Reported.{IsReported, table_of};
    ghost use Rattle.table_exchange.specs.Tables.{AreTables, Stands};

    /// A session that begins with a dispatcher.
    ///
    /// # Errors
    ///
    /// Out of memory.
    pub fn new(
        alloc: Global,
        names: &'a Names,
        document: &'a str,
        yard: LiveYard<'a, A>,
    ) -> Result<Self, AllocError>
        requires { AreEnough names.now yard.yard.run.tables }
        ensures { IfOk result (λ session. session ≡ record {
          names = names.entry.now;
          document = document.entry.now;
          dispatch = yard.entry;
          tags = replicate (length yard.entry.yard.there) [];
        }) }
    {
        let tags = WantTags::new(alloc, yard.yard().there().len())?;
        Ok(Session {
            alloc,
            names,
            document,
            yard,
            tags,
        })
    }

    /// The dispatcher.
    pub fn yard(&self) -> &LiveYard<'a, A>
        ensures { result.now ≡ self.now.dispatch }
    {
        &self.yard
    }

    // The run: its tables, its yard and its journal's lines.
    fn run(&self) -> &PlainYard<'a, A>
        ensures run { result.now ≡ self.now.dispatch.yard.run }
        ensures reported { IsReported self.now.dispatch.yard }
        ensures enough { AreEnough self.now.names self.now.dispatch.yard.run.tables }
    {
        self.yard.yard().run()
    }

    // The table in force.
    pub(crate) fn table(&self) -> &Table
        ensures table { result.now ≡ table_of self.now.dispatch.yard }
        ensures named { HasNames self.now.names result.now }
        ensures tables { AreTables self.now.dispatch.yard.run.tables }
        ensures stands { Stands self.now.dispatch.yard.run.tables self.now.dispatch.yard.run.yard }
    {
        self.yard.yard().run().live_in_force()
    }

    // The trains, as they are looked at.
    pub(crate) fn scene(&self) -> Scene<'_>
        ensures scene { result ≡ seen self.now }
        ensures named { HasNames self.now.names result.table }
        ensures tables { AreTables self.now.dispatch.yard.run.tables }
    {
        let yard = self.yard.yard();
        Scene::new(self.table(), yard.run().yard().positions(), yard.there())
    }

    // The journal's lines.
    pub(crate) fn lines(&self) -> &[Line]
        ensures lines { result.now ≡ lines self.now }
        ensures named { All (IsNamed self.now.names) (lines self.now) }
        ensures few { length (lines self.now) ≤ 4079 }
    {
        self.run().lines()
    }

    // The counts of the yard.
    pub(crate) fn counts(&self) -> Counts
        ensures { result ≡ counts self.now }
    {
        let run = self.run();
        counts_of(
            &self.scene(),
            run.tables(),
            run.yard(),
            run.lines().len() as u32,
        )
    }

    // Whether the next table is due, and whether all is done.
    pub(crate) fn status(&self) -> Status
        ensures { IsStatus self.now.dispatch.yard.run.tables self.now.dispatch.yard.run.yard result }
    {
        let run = self.run();
        status_of(self.table(), run.tables(), run.yard())
    }
}
