// The shares of each train, as rows from which the row of any span is joined.
ghost use Rattle.std.specs.Prelude.{◌≡◌, ℕ, ◌+◌, ◌-◌, ◌*◌, ◌<◌, ◌≤◌, [], pos, ◌<ℤ◌, length, IfOk, OnOk, IsTrue, ◌↔◌, slice_index, slice_index_or};
ghost use Rattle.rail_model.specs.Sums.{greatest};
ghost use Rattle.rail_model.specs.Table.{IsTable, trains, last, share};
ghost use Rattle.state_boxes.specs.Extremes.{IsExtremes, IsRow, IsLevel, IsLevels, IsPick, AreShared, IsTrainShares, IsShares, level_at, no_shares};

use crate::extremes::{Extremes, single_shares};
use crate::ranges::Span;
use crate::share_rows::{Cells, Row, SpanRow};
use rail_model::{Table, last_of, sections_of, trains_of};
use std::alloc::{AllocError, Global};
use std::marker::Model;

/// The rows of all spans of this many places of one train, by the first place: row after row, one cell per section.
#[derive(Drop)]
pub struct Level {
    width: u32,
    rows: u32,
    sections: u32,
    cells: Cells,
}

impl Model for Level {
    ghost use Rattle.std.specs.Prelude.{◌≡◌, ◌*◌, length};
    ghost use Rattle.state_boxes.specs.Cells.{rows_of};
    ghost use Rattle.state_boxes.specs.Extremes.{Level as LevelValue};

    ghost Value = { LevelValue };

    ghost view = { λ l. record { width = l.width; rows = rows_of l.rows l.sections l.cells } };

    ghost invariant = { λ l. length l.cells ≡ l.rows * l.sections };
}

impl Level {
    fn width(&self) -> u32
        ensures { result ≡ self.now.width }
    {
        self.width
    }

    fn row(&self, place: u32) -> Row<'_>
        requires { place < length self.now.rows }
        ensures { result ≡ slice_index_or self.now.rows place [] }
    {
        let sections = self.sections as usize;
        let start = place as usize * sections;
        self.cells.row(start, start + sections)
    }
}

// The rows of single places.
fn first_level(alloc: Global, table: &Table, train: u32) -> Result<Level, AllocError>
    requires { train < trains table.now }
    ensures level { IfOk result (IsLevel table.now train) }
    ensures width { IfOk result (λ level. level.width ≡ 1) }
{
    let shares = single_shares(alloc, table, train)?;
    let cells = Cells::single(alloc, shares)?;
    Ok(Level {
        width: 1,
        rows: last_of(table, train) + 1,
        sections: sections_of(table),
        cells,
    })
}

// The rows of spans of twice as many places.
fn next_level(alloc: Global, table: &Table, train: u32, level: &Level) -> Result<Level, AllocError>
    requires train { train < trains table.now }
    requires level { IsLevel table.now train level.now }
    requires fits { 2 * level.now.width ≤ last table.now train + 1 }
    requires few { last table.now train ≤ 127 }
    ensures level { IfOk result (IsLevel table.now train) }
    ensures width { IfOk result (λ next. next.width ≡ 2 * level.now.width) }
{
    let sections = level.sections as usize;
    let rows = level.rows - level.width;
    let first = level.cells.row(0, rows as usize * sections);
    let second = level.cells.row(
        level.width as usize * sections,
        level.rows as usize * sections,
    );
    let cells = Cells::joined(alloc, &first, &second)?;
    Ok(Level {
        width: 2 * level.width,
        rows,
        sections: level.sections,
        cells,
    })
}

// The last level.
fn widest(levels: &[Level]) -> &Level
    requires { 0 < length levels.now }
    ensures { result.now ≡ level_at levels.now (length levels.now - 1) }
{
    &levels[levels.len() - 1]
}

// All levels of a train, each twice as wide as the one before.
fn train_levels(alloc: Global, table: &Table, train: u32) -> Result<Vec<Level>, AllocError>
    requires { train < trains table.now }
    ensures { IfOk result (λ levels. IsLevels table.now train levels.items) }
{
    let places = last_of(table, train) + 1;
    let mut levels = Vec::new(alloc);
    levels.push(first_level(alloc, table, train)?)?;
    'widen: while 2 * widest(&levels).width() <= places {
        let last = widest(&levels);
        let level = next_level(alloc, table, train, last)?;
        levels.push(level)?;
    }
    Ok(levels)
}

// The level from which the rows of spans of `more` + 1 places are joined.
fn pick(table: &Table, train: u32, levels: &[Level], more: u32) -> u8
    requires levels { IsLevels table.now train levels.now }
    requires more { more ≤ last table.now train }
    requires few { last table.now train ≤ 127 }
    ensures { IsPick levels.now more result }
{
    for level in 0..levels.len() {
        if more < 2 * levels[level].width() {
            return level as u8;
        }
    }
    unreachable!()
}

// The extremes of a section at all places of a train: two spans of the last level cover them.
fn all_extremes(table: &Table, levels: &[Level], train: u32, section: u32) -> Extremes
    requires levels { IsLevels table.now train levels.now }
    requires train { train < trains table.now }
    requires section { section < length table.now.sections }
    ensures { IsExtremes (share table.now train section) 0 (last table.now train) result }
{
    let level = widest(levels);
    let front = level.row(0);
    let back = level.row(last_of(table, train) + 1 - level.width());
    front.at(section).joined(back.at(section))
}

// Whether a train has a share of a section at some place.
fn has_share(table: &Table, levels: &[Level], train: u32, section: u32) -> bool
    requires levels { IsLevels table.now train levels.now }
    requires train { train < trains table.now }
    requires section { section < length table.now.sections }
    ensures { IsTrue result ↔ (pos 0 <ℤ greatest (share table.now train section) 0 (last table.now train)) }
{
    all_extremes(table, levels, train, section).greatest > 0
}

// Adds a section, where the train has a share of it.
fn add_shared(
    table: &Table,
    levels: &[Level],
    train: u32,
    section: u32,
    sections: &mut Vec<u32>,
) -> Result<(), AllocError>
    requires formed { IsTable table.now }
    requires levels { IsLevels table.now train levels.now }
    requires train { train < trains table.now }
    requires section { section < length table.now.sections }
    requires before { AreShared table.now train 0 section sections.old.items }
    ensures { OnOk result (AreShared table.now train 0 (section + 1) sections.new.items) }
{
    if !has_share(table, levels, train, section) {
        return Ok(());
    }
    sections.push(section)?;
    Ok(())
}

// The sections that a train has a share of at some place, in order.
fn shared_sections(
    alloc: Global,
    table: &Table,
    levels: &[Level],
    train: u32,
) -> Result<Vec<u32>, AllocError>
    requires levels { IsLevels table.now train levels.now }
    requires train { train < trains table.now }
    ensures { IfOk result (λ sections. AreShared table.now train 0 (length table.now.sections) sections.items) }
{
    let mut sections = Vec::new(alloc);
    for section in 0..sections_of(table) {
        add_shared(table, levels, train, section, &mut sections)?;
    }
    Ok(sections)
}

/// The rows of one train: all levels, for each number of places more than one the level to take, and the sections that the train may
/// have a share of.
#[derive(Drop)]
pub struct TrainShares {
    levels: Vec<Level>,
    picks: Vec<u8>,
    sections: Vec<u32>,
}

impl Model for TrainShares {
    ghost use Rattle.state_boxes.specs.Extremes.{TrainShares as SharesValue};

    ghost Value = { SharesValue };

    ghost view = { λ s. record { levels = s.levels.items; picks = s.picks.items; sections = s.sections.items } };
}

impl TrainShares {
    /// The rows of a train.
    fn new(alloc: Global, table: &Table, train: u32) -> Result<TrainShares, AllocError>
        requires { train < trains table.now }
        ensures { IfOk result (IsTrainShares table.now train) }
    {
        let last = last_of(table, train);
        let levels = train_levels(alloc, table, train)?;
        let mut picks = Vec::with_capacity(alloc, last as usize + 1)?;
        for more in 0..last + 1 {
            picks.push(pick(table, train, &levels, more))?;
        }
        let sections = shared_sections(alloc, table, &levels, train)?;
        Ok(TrainShares {
            levels,
            picks,
            sections,
        })
    }

    /// The sections that the train may have a share of, in order.
    pub fn sections(&self) -> &[u32]
        ensures { result.now ≡ self.now.sections }
    {
        &self.sections
    }

    /// Whether the train has a share of a section at some place.
    pub(crate) fn has_share(&self, table: &Table, train: u32, section: u32) -> bool
        requires shares { IsTrainShares table.now train self.now }
        requires train { train < trains table.now }
        requires section { section < length table.now.sections }
        ensures { IsTrue result ↔ (pos 0 <ℤ greatest (share table.now train section) 0 (last table.now train)) }
    {
        has_share(table, &self.levels, train, section)
    }

    // The level for a span.
    fn level(&self, span: Span) -> &Level
        requires some { span.lo ≤ span.hi }
        requires within { span.hi - span.lo < length self.now.picks }
        requires there { slice_index self.now.picks (span.hi - span.lo) < length self.now.levels }
        ensures { result.now ≡ level_at self.now.levels (slice_index self.now.picks (span.hi - span.lo)) }
    {
        &self.levels[self.picks[(span.hi() - span.lo()) as usize] as usize]
    }

    /// The extremes of a section in a span.
    pub fn extremes(&self, table: &Table, train: u32, span: Span, section: u32) -> Extremes
        requires shares { IsTrainShares table.now train self.now }
        requires some { span.lo ≤ span.hi }
        requires in_range { span.hi ≤ last table.now train }
        requires section { section < length table.now.sections }
        ensures { IsExtremes (share table.now train section) span.lo (span.hi - span.lo) result }
    {
        self.row(table, train, span).at(section)
    }

    /// The row of one place.
    pub(crate) fn single(&self, table: &Table, train: u32, place: u32) -> Row<'_>
        requires shares { IsTrainShares table.now train self.now }
        requires place { place ≤ last table.now train }
        ensures { IsRow table.now train place 0 result }
    {
        self.levels[0].row(place)
    }

    /// The row of a span.
    pub(crate) fn row(&self, table: &Table, train: u32, span: Span) -> SpanRow<'_>
        requires shares { IsTrainShares table.now train self.now }
        requires some { span.lo ≤ span.hi }
        requires in_range { span.hi ≤ last table.now train }
        ensures { IsRow table.now train span.lo (span.hi - span.lo) result }
    {
        let level = self.level(span);
        let front = level.row(span.lo());
        let back = level.row(span.hi() - (level.width() - 1));
        SpanRow::new(front, back)
    }
}

/// The rows of all trains.
#[derive(Drop)]
pub struct Shares {
    trains: Vec<TrainShares>,
}

impl Model for Shares {
    ghost use Rattle.std.specs.Prelude.{List};
    ghost use Rattle.state_boxes.specs.Extremes.{TrainShares as SharesValue};

    ghost Value = { List SharesValue };

    ghost view = { λ s. s.trains.items };
}

impl Shares {
    /// The rows of all trains of a table.
    pub fn new(alloc: Global, table: &Table) -> Result<Shares, AllocError>
        ensures { IfOk result (IsShares table.now) }
    {
        let mut trains = Vec::new(alloc);
        for train in 0..trains_of(table) {
            trains.push(TrainShares::new(alloc, table, train)?)?;
        }
        Ok(Shares { trains })
    }

    /// The rows of one train.
    pub fn train(&self, train: u32) -> &TrainShares
        requires { train < length self.now }
        ensures { result.now ≡ slice_index_or self.now train no_shares }
    {
        &self.trains[train as usize]
    }
}
