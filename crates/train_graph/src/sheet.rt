// What pictures are drawn from.
use crate::Axes;
use rail_model::{Layout, Names};
use run_timetable::Run;
use wait_causes::Wait;

/// What is wished of a picture of a run. It goes along the way of the chosen train, or of the one with the most places if none is
/// chosen. A viewer shows how long trains wait, and for what, as far as `waits` says it. With `blocks` the picture has bars, too, which
/// show how long points are taken.
#[derive(Clone, Copy)]
pub struct Wish<'a> {
    pub chosen: Option<u32>,
    pub waits: &'a [Wait],
    pub blocks: bool,
}

/// What a picture is drawn from: a run with its names and its waits, with bars or without, and where ticks and points lie.
#[derive(Clone, Copy)]
pub(crate) struct Sheet<'a> {
    pub layout: &'a Layout,
    pub names: &'a Names,
    pub run: &'a Run,
    pub waits: &'a [Wait],
    pub blocks: bool,
    pub axes: &'a Axes,
}
