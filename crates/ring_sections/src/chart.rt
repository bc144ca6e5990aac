// What a search from a first pair looks at.

use crate::standing::Standing;
use rail_model::Missions;

/// The missions, the pairs at each point, and the levels of the points.
#[derive(Clone, Copy)]
pub(crate) struct Chart<'a> {
    pub missions: &'a Missions,
    pub standing: &'a Standing,
    pub levels: &'a [u32],
}
