// Tracks of a section: each is used by one train at most.
ghost use Rattle.std.specs.Prelude.{◌≡◌, ◌≢◌, ℕ, ◌<◌, ◌≤◌, IsTrue, IfOk, IfSome, All, length, replicate, slice_set, true, false};
ghost use Rattle.clash_sections.specs.declared.meetings.Meeting.TheVariants.{Free};
ghost use Rattle.clash_sections.specs.Stands.{meeting};
ghost use Rattle.clash_sections.specs.Tracks.{is_on, IsTrack, count_on, IsOfTracks, IsFit};

use crate::{Clashes, StandSection};
use std::alloc::{AllocError, Global};
use std::marker::Model;

/// For each stand whether it is on the track.
#[derive(Drop)]
pub(crate) struct Track {
    stands: Vec<bool>,
}

impl Model for Track {
    ghost use Rattle.std.specs.Prelude.{List, Bool};

    ghost Value = { List Bool };

    ghost view = { λ t. t.stands.items };
}

impl Track {
    /// A track with none of so many stands.
    pub(crate) fn new(alloc: Global, size: usize) -> Result<Track, AllocError>
        ensures { IfOk result (λ track. track ≡ replicate size false) }
    {
        Ok(Track {
            stands: vec![in alloc; false; size]?,
        })
    }

    pub(crate) fn has(&self, stand: usize) -> bool
        ensures { result ≡ is_on self.now stand }
    {
        self.stands.get(stand).copied().unwrap_or(false)
    }

    /// Puts a stand onto the track.
    pub(crate) fn put(&mut self, stand: usize)
        requires { stand < length self.old }
        ensures { self.new ≡ slice_set self.old stand true }
    {
        self.stands[stand] = true;
    }

    /// The number of stands that it knows, on it or not.
    pub(crate) fn len(&self) -> usize
        ensures { result ≡ length self.now }
    {
        self.stands.len()
    }

    /// Whether none of its stands is free of this one.
    pub(crate) fn shuts(&self, clashes: &Clashes, stand: usize) -> bool
        ensures { IsTrue result → (b : ℕ) → is_on self.now b ≡ true → meeting clashes.now stand b ≢ Free }
    {
        for other in 0..self.len() {
            if self.has(other) && clashes.meeting(stand, other).is_free() {
                return false;
            }
        }
        true
    }
}

// Whether no two stands of a track are free.
fn is_track(clashes: &Clashes, track: &Track) -> bool
    ensures { IsTrue result → IsTrack clashes.now track.now }
{
    for stand in 0..track.len() {
        if track.has(stand) && !track.shuts(clashes, stand) {
            return false;
        }
    }
    true
}

// Whether this holds of all tracks.
fn are_tracks(clashes: &Clashes, tracks: &[Track]) -> bool
    ensures { IsTrue result → All (IsTrack clashes.now) tracks.now }
{
    tracks.iter().all(|track| is_track(clashes, track))
}

// On how many tracks a stand is.
fn count(tracks: &[Track], stand: usize) -> usize
    ensures { result ≡ count_on tracks.now stand }
{
    tracks.iter().filter(|track| track.has(stand)).count()
}

/// The section of the tracks, for so many stands.
pub(crate) fn section_of(
    alloc: Global,
    tracks: &[Track],
    size: usize,
) -> Result<StandSection, AllocError>
    requires { length tracks.now ≤ 4 }
    ensures { IfOk result (λ section. IsOfTracks size tracks.now section) }
{
    let mut shares = Vec::new(alloc);
    for stand in 0..size {
        shares.push(count(tracks, stand) as u32)?;
    }
    Ok(StandSection::new(tracks.len() as u32, shares))
}

/// The section of 1 to 4 tracks, if no two stands of one are free.
pub(crate) fn sound_section(
    alloc: Global,
    clashes: &Clashes,
    tracks: &[Track],
) -> Result<Option<StandSection>, AllocError>
    ensures { IfOk result (λ section. IfSome section (IsFit clashes.now)) }
{
    if tracks.is_empty() || tracks.len() > 4 || !are_tracks(clashes, tracks) {
        return Ok(None);
    }
    Ok(Some(section_of(alloc, tracks, clashes.len())?))
}
