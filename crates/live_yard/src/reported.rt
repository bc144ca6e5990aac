// A run with the places that its trains have reported.
ghost use Rattle.std.specs.Prelude.{◌≡◌, ◌+◌, ◌*◌, ◌^◌, ◌<◌, ◌≤◌, length, slice_index, slice_set, true};
ghost use Rattle.std.specs.Prelude.{if◌then◌else◌, MatchOption};
ghost use Rattle.rail_model.specs.Move.{Live, Move, advance};
ghost use Rattle.rail_model.specs.Table.{IsTable, place};
ghost use Rattle.rail_model.specs.Yard.{in_force, Tries};
ghost use Rattle.plain_yard.specs.Keeps.{Keeps};
ghost use Rattle.plain_yard.specs.Lines.{most_lines};
ghost use Rattle.live_yard.specs.declared.granted_lines.Passed.TheVariants.{Granted};
ghost use Rattle.live_yard.specs.Reported.{stepped};

use crate::beginning::first_places;
use crate::passed_places::PassedPlaces;
use crate::table_lines::TableLines;
use crate::{Elsewhere, Told, tell};
use plain_yard::{CheckedTable, PlainYard};
use rail_model::{Ask, State, Tried, last_of, trains_of};
use std::alloc::{AllocError, Global};
use std::marker::Model;

/// A run of tables on one thread, and the place that each train has reported. Where trains don't report, each counts as
/// wholly at the place that it was granted.
#[derive(Drop)]
pub struct ReportedYard<'a, A: CheckedTable> {
    run: PlainYard<'a, A>,
    there: State,
    reports: bool,
    passed: PassedPlaces,
    answered: TableLines,
}

impl<'a, A: CheckedTable> Model for ReportedYard<'a, A> {
    ghost use Rattle.live_yard.specs.PassedPlaces.{ArePassed};
    ghost use Rattle.live_yard.specs.Reported.{Reported, IsReported};
    ghost use Rattle.live_yard.specs.TableLines.{AreAnswered};

    ghost Value = { Reported };

    ghost view = { λ s. record { run = s.run; there = s.there; reports = s.reports } };

    ghost invariant = { λ s. IsReported (record { run = s.run; there = s.there; reports = s.reports })
        × ArePassed s.run.lines s.run.yard.positions s.passed.ways.items
        × AreAnswered s.run.lines s.run.yard.tried s.answered.numbers };
}

impl<'a, A: CheckedTable> ReportedYard<'a, A> {
    ghost use Rattle.std.specs.Prelude.{IfOk};
    ghost use Rattle.live_yard.specs.GrantedLines.{WasTried};
    ghost use Rattle.live_yard.specs.Reported.{after_table, after_told, granted, positions_of, BeginsAt, reported};
    ghost use Rattle.live_yard.specs.Reported.{table_of, place_of, IsElsewhere, IsNext, IsReported, MayGoOn};
    ghost use Rattle.live_yard.specs.Reported.{TellsTrain};

    /// A session at the end of a run. Without reports each train is where it was granted. With them a train that was
    /// granted the place where it is, by a line of the journal, counts as still on its last step until it reports.
    ///
    /// # Errors
    ///
    /// Out of memory.
    pub fn begin(alloc: Global, run: PlainYard<'a, A>, reports: bool) -> Result<Self, AllocError>
        ensures run { IfOk result (λ begun. begun.run ≡ run.entry) }
        ensures reports { IfOk result (λ begun. begun.reports ≡ reports) }
        ensures there { IfOk result (λ begun. BeginsAt begun.run.lines (positions_of begun) reports begun.there) }
    {
        let trains = trains_of(run.live_in_force());
        let there = first_places(alloc, trains, run.lines(), run.yard().positions(), reports)?;
        let passed = PassedPlaces::of_lines(alloc, trains, run.lines(), run.yard().positions())?;
        let answered = TableLines::of_run(&run);
        Ok(ReportedYard {
            run,
            there,
            reports,
            passed,
            answered,
        })
    }

    /// The run: its tables, its yard and its journal's lines.
    pub fn run(&self) -> &PlainYard<'a, A>
        ensures run { result.now ≡ self.now.run }
        ensures reported { IsReported self.now }
    {
        &self.run
    }

    /// The place that each train has reported.
    pub fn there(&self) -> &State
        ensures there { result.now ≡ self.now.there }
        ensures reported { IsReported self.now }
    {
        &self.there
    }

    /// Whether trains report.
    pub fn reports(&self) -> bool
        ensures { result ≡ self.now.reports }
    {
        self.reports
    }

    /// What a train is told that asks for its next place.
    pub fn told(&self, train: u32) -> Told
        requires { train < length self.now.there }
        ensures told { TellsTrain self.now train result }
        ensures formed { IsTable (table_of self.now) }
        ensures live { Live (table_of self.now) }
    {
        let table = self.run.live_in_force();
        let state = self.run.yard().positions();
        tell(table, state, &self.there, train)
    }

    /// Grants a train that may go on its next place.
    pub(crate) fn grant(&mut self, train: u32)
        requires train { train < length self.old.there }
        requires may { MayGoOn self.old train }
        ensures { self.new ≡ granted self.old train }
    {
        move_train(&mut self.run, train);
        arrive(&mut self.there, self.reports, train);
        note_grant(&mut self.passed, &self.run, train);
    }

    /// Asks for a train: where it may go on, it is granted its next place.
    pub fn go(&mut self, train: u32) -> Told
        requires { train < length self.old.there }
        ensures told { TellsTrain self.old train result }
        ensures after { self.new ≡ after_told self.old train result }
    {
        let told = self.told(train);
        self.grant_if_may(train, told);
        told
    }

    // Grants a train its next place, where it was told that it may go on.
    fn grant_if_may(&mut self, train: u32, told: Told)
        requires train { train < length self.old.there }
        requires told { TellsTrain self.old train told }
        ensures { self.new ≡ after_told self.old train told }
    {
        match told {
            Told::May => self.grant(train),
            _ => {}
        }
    }

    /// A train is wholly at a place that it was granted, and all behind it is clear.
    pub fn report(&mut self, train: u32, place: u32)
        requires train { train < length self.old.there }
        requires reports { self.old.reports ≡ true }
        requires granted { place ≤ place_of self.old train }
        ensures { self.new ≡ reported self.old train place }
    {
        let known = self.there.place(train);
        self.there.set(train, known.max(place));
    }

    /// Tries the next table.
    pub fn try_table(&mut self) -> Tried
        ensures answer { Tries self.old.run.tables self.old.run.yard result }
        ensures after { self.new ≡ after_table self.old result }
    {
        self.answered.expect_next(&self.run);
        self.run.try_table()
    }

    /// What a place of a train is, where it isn't its next one.
    pub fn elsewhere(&self, train: u32, place: u32) -> Option<Elsewhere>
        requires { train < length self.now.there }
        ensures { MatchOption result (IsNext self.now train place) (λ found. IsElsewhere self.now train place found) }
    {
        let last = last_of(self.run.live_in_force(), train);
        if last < place {
            return Some(Elsewhere::Beyond { last });
        }
        let at = self.run.yard().positions().place(train);
        if place <= at {
            let how = self.passed.way(train, place);
            return Some(Elsewhere::Before { how });
        }
        if at + 1 < place {
            return Some(Elsewhere::Ahead { at });
        }
        None
    }

    /// The number of the line that answered a table.
    pub fn line_of(&self, table: u32) -> u32
        requires some { 0 < table }
        requires tried { table ≤ self.now.run.yard.tried }
        ensures { WasTried self.now.run.lines table result }
    {
        self.answered.line_of(table)
    }
}

// A train that may move asks, and so it has moved.
fn move_train<A: CheckedTable>(run: &mut PlainYard<'_, A>, train: u32)
    requires { Move (in_force run.old.tables run.old.yard) run.old.yard.positions train
        (advance run.old.yard.positions train) }
    ensures moved { run.new ≡ stepped run.old train }
    ensures keeps { Keeps run.new.tables run.new.yard run.new.lines }
    ensures few { length run.new.lines ≤ most_lines }
    ensures formed { IsTable (in_force run.new.tables run.new.yard) }
{
    match run.ask(train) {
        Ask::Yes => {}
        _ => unreachable!(),
    }
}

// The last line has granted a train the place where it is.
fn note_grant<A: CheckedTable>(passed: &mut PassedPlaces, run: &PlainYard<'_, A>, train: u32)
    requires few { length run.now.lines ≤ most_lines }
    requires train { train < length run.now.yard.positions }
    requires room { train * 128 + place run.now.yard.positions train < length passed.old.ways.items }
    ensures { passed.new.ways.items ≡ slice_set passed.old.ways.items (train * 128 + place run.now.yard.positions train)
        (Granted (length run.now.lines)) }
{
    let place = run.yard().positions().place(train);
    let line = run.lines().len() as u32;
    passed.grant(train, place, line);
}

// Where trains don't report, one that moves is there at once.
fn arrive(there: &mut State, reports: bool, train: u32)
    requires train { train < length there.old }
    requires room { slice_index there.old train < 2 ^ 31 }
    ensures { there.new ≡ (if reports then there.old else advance there.old train) }
{
    if reports {
        return;
    }
    there.advance(train);
}
