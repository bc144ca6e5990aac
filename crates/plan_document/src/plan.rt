// What a plan says, once its names are known.
ghost use Rattle.std.specs.Prelude.{◌≡◌, false, slice_get, slice_index_or};

use rail_model::TrainTimes;

/// A plan: its points with their zones, its links by the names of their points, its trains, and where they start.
#[derive(Drop)]
pub struct Plan {
    /// The lines to which its routes keep; none, if its routes say themselves which tracks there are.
    pub lines: Vec<Vec<String>>,
    /// The points that its trains pass only as lines do.
    pub switches: Vec<String>,
    pub points: Vec<(String, u32)>,
    pub links: Vec<(String, String)>,
    pub zones: u32,
    pub trains: Vec<String>,
    pub start: Vec<u32>,
    pub tables: Vec<TablePlan>,
}

/// A table of a plan: for each train its route, whether it exits after it, and its travel times; sections, and who waits for whom.
#[derive(Drop)]
pub struct TablePlan {
    pub routes: Vec<Vec<String>>,
    pub exits: Vec<bool>,
    pub times: Vec<TrainTimes>,
    pub sections: Vec<SectionPlan>,
    pub waits: Vec<Wait>,
    pub after: u32,
}

/// A section of a plan: its limit, and for each train its share at each place of its route, and after its exit, if it has one.
#[derive(Drop)]
pub struct SectionPlan {
    pub limit: u32,
    pub shares: Vec<Vec<u8>>,
}

impl TablePlan {
    ghost use Rattle.plan_document.specs.Nothing.{points_of};

    /// The points of a train's route; none for a train that isn't there.
    pub fn route(&self, train: usize) -> &[String]
        ensures { result.now ≡ points_of (slice_get self.now.routes.items train) }
    {
        match self.routes.get(train) {
            Some(route) => route.as_slice(),
            None => &[],
        }
    }

    /// Whether a train exits after its route; false for a train that isn't there.
    pub fn exits_at(&self, train: usize) -> bool
        ensures { result ≡ slice_index_or self.now.exits.items train false }
    {
        match self.exits.get(train) {
            Some(exits) => *exits,
            None => false,
        }
    }
}

/// A train may not leave a place of its route before another train has reached a place of its own.
#[derive(Clone, Copy)]
pub struct Wait {
    pub train: u32,
    pub leaves: u32,
    pub after: u32,
    pub reached: u32,
}
