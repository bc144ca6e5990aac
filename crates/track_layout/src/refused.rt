// What is wrong with a layout.
ghost use Rattle.std.specs.Prelude.{◌≡◌};
ghost use Rattle.track_layout.specs.Counted.{name_of, most_of};

use crate::NotNumbered;
use std::alloc::{AllocError, AllocFailed};
use thiserror::Error;

/// What there may be too many of.
#[derive(Clone, Copy, Debug)]
pub enum What {
    Points,
    Links,
    Zones,
}

impl What {
    /// What there may be too many of, in a word.
    pub fn name(self) -> &'static str
        ensures { result.now ≡ name_of self }
    {
        match self {
            What::Points => "points",
            What::Links => "links",
            What::Zones => "zones",
        }
    }

    // How many of them a layout may have.
    pub(crate) fn most(self) -> usize
        ensures { result ≡ most_of self }
    {
        match self {
            What::Points => 512,
            What::Links => 2048,
            What::Zones => 16,
        }
    }
}

/// Why lists are no layout. Points, links and zones go by number, counted from 0.
#[derive(Clone, Copy, Debug, Error)]
pub enum LayoutRefused {
    /// More than 512 points, 2,048 links or 16 zones.
    #[error("there are {count} {}; at most {} are allowed", .what.name(), .what.most())]
    TooMany { what: What, count: usize },
    /// The number of zones is 0.
    #[error("there is no zone")]
    NoZone,
    /// The first point whose name isn't 1 to 16 letters, digits and `_`.
    #[error("the name of point {point} isn't 1 to 16 letters, digits and `_`")]
    Name { point: u32 },
    /// The first point whose name an earlier one has, with that earlier one.
    #[error("the points {first} and {second} have the same name")]
    DoubleName { first: u32, second: u32 },
    /// The first point in a zone that there isn't.
    #[error("point {point} is in a zone that doesn't exist")]
    ZoneRange { point: u32 },
    /// The first zone without a point.
    #[error("zone {zone} has no point")]
    ZoneEmpty { zone: u32 },
    /// The first link with a name that no point has.
    #[error("link {link} names a point that doesn't exist")]
    UnknownPoint { link: u32 },
    /// The first link between a point and itself.
    #[error("link {link} leads from a point to itself")]
    SelfLink { link: u32 },
    /// Memory ran out.
    #[error("out of memory")]
    Memory,
}

impl From<AllocError> for LayoutRefused {
    ghost use Rattle.track_layout.specs.declared.refused.LayoutRefused.TheVariants.{Memory};

    ghost from_gives = { λ _ e. e ≡ Memory };

    fn from(_error: AllocError) -> LayoutRefused {
        LayoutRefused::Memory
    }
}

impl<T: Drop> From<AllocFailed<T>> for LayoutRefused {
    ghost use Rattle.track_layout.specs.declared.refused.LayoutRefused.TheVariants.{Memory};

    ghost from_gives = { λ _ e. e ≡ Memory };

    fn from(_error: AllocFailed<T>) -> LayoutRefused {
        LayoutRefused::Memory
    }
}

impl From<NotNumbered> for LayoutRefused {
    ghost use Rattle.track_layout.specs.Doubling.{point_refusal};

    ghost from_gives = { λ e refused. refused ≡ point_refusal e };

    fn from(error: NotNumbered) -> LayoutRefused {
        match error {
            NotNumbered::Double { first, second } => LayoutRefused::DoubleName { first, second },
            NotNumbered::Memory => LayoutRefused::Memory,
        }
    }
}
