// Travel times, in ticks.
ghost use Rattle.std.specs.Prelude.{◌≡◌, ℕ, List, [], ◌<◌, length, slice_index_or};
ghost use Rattle.rail_model.specs.Times.{train_times, time};

use std::marker::Model;

/// The times of one train under one table, one per step from a place to the next.
#[derive(Drop)]
pub struct TrainTimes {
    steps: Vec<u32>,
}

impl Model for TrainTimes {
    ghost Value = { List ℕ };

    ghost view = { λ t. t.steps.items };
}

impl From<Vec<u32>> for TrainTimes {
    ghost from_gives = { λ steps t. t ≡ steps.items };

    fn from(steps: Vec<u32>) -> Self {
        TrainTimes { steps }
    }
}

impl TrainTimes {
    pub fn as_slice(&self) -> &[u32]
        ensures { result.now ≡ self.now }
    {
        &self.steps
    }

    /// The times in order, by value.
    pub fn into_vec(self) -> Vec<u32>
        ensures { result.items ≡ self }
    {
        self.steps
    }
}

/// The times of all trains under one table.
#[derive(Drop)]
pub struct TableTimes {
    trains: Vec<TrainTimes>,
}

impl Model for TableTimes {
    ghost Value = { List (List ℕ) };

    ghost view = { λ t. t.trains.items };
}

impl From<Vec<TrainTimes>> for TableTimes {
    ghost from_gives = { λ trains t. t ≡ trains.items };

    fn from(trains: Vec<TrainTimes>) -> Self {
        TableTimes { trains }
    }
}

impl TableTimes {
    pub fn as_slice(&self) -> &[TrainTimes]
        ensures { result.now ≡ self.now }
    {
        &self.trains
    }

    /// The trains' times in order, by value.
    pub fn into_vec(self) -> Vec<TrainTimes>
        ensures { result.items ≡ self }
    {
        self.trains
    }
}

/// The times under all tables.
#[derive(Drop)]
pub struct Times {
    tables: Vec<TableTimes>,
}

impl Model for Times {
    ghost Value = { List (List (List ℕ)) };

    ghost view = { λ t. t.tables.items };
}

impl From<Vec<TableTimes>> for Times {
    ghost from_gives = { λ tables t. t ≡ tables.items };

    fn from(tables: Vec<TableTimes>) -> Self {
        Times { tables }
    }
}

impl Times {
    pub fn as_slice(&self) -> &[TableTimes]
        ensures { result.now ≡ self.now }
    {
        &self.tables
    }

    /// How long a train takes from a place to the next under a table, in ticks.
    pub fn time(&self, table: u32, train: u32, place: u32) -> u32
        requires table { table < length self.now }
        requires train { train < length (slice_index_or self.now table []) }
        requires place { place < length (train_times self.now table train) }
        ensures { result ≡ time self.now table train place }
    {
        self.tables[table as usize].as_slice()[train as usize].as_slice()[place as usize]
    }

    /// The tables' times in order, by value.
    pub fn into_vec(self) -> Vec<TableTimes>
        ensures { result.items ≡ self }
    {
        self.tables
    }
}
