// How much a train may weigh in a section.
ghost use Rattle.std.specs.Prelude.{◌≡◌, pos};
ghost use Rattle.section_marks.specs.Marking.{most_share, most_limit};

/// The greatest share of a train: 1, with limits up to 32, or 4, with limits up to 128.
#[derive(Clone, Copy)]
pub enum Marks {
    One,
    Four,
}

impl Marks {
    // The greatest share of a train at a place.
    pub(crate) fn most_share(self) -> i32
        ensures { result ≡ pos (most_share self) }
    {
        match self {
            Marks::One => 1,
            Marks::Four => 4,
        }
    }

    // The greatest limit of a section.
    pub(crate) fn most_limit(self) -> u32
        ensures { result ≡ most_limit self }
    {
        match self {
            Marks::One => 32,
            Marks::Four => 128,
        }
    }
}
