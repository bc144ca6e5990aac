// Which sections are made: what they are is proved, how few they are isn't.
ghost use Rattle.std.specs.Prelude.{◌<◌, All, IfOk, IfSome, OnOk, length};
ghost use Rattle.clash_sections.specs.Tracks.{IsFit};

use crate::section::are_forbidden;
use crate::tracks::{Track, sound_section};
use crate::{Clashes, StandSection};
use std::alloc::{AllocError, Global};

// A search ends after so many sections.
const MOST_SECTIONS: usize = 96;

/// Two stands that clash.
#[derive(Clone, Copy)]
struct Pair {
    one: usize,
    other: usize,
}

impl Pair {
    fn is_forbidden(self, section: &StandSection) -> bool {
        section.forbids(self.one, self.other)
    }

    // The other stand of a pair, if it has this one.
    fn partner(self, stand: usize) -> Option<usize> {
        if self.one == stand {
            Some(self.other)
        } else if self.other == stand {
            Some(self.one)
        } else {
            None
        }
    }
}

// Adds the pairs of a stand and those up to it.
fn add_pairs(clashes: &Clashes, one: usize, pairs: &mut Vec<Pair>) -> Result<(), AllocError> {
    for other in 0..=one {
        if clashes.meeting(one, other).is_clash() {
            pairs.push(Pair { one, other })?;
        }
    }
    Ok(())
}

fn clashing_pairs(alloc: Global, clashes: &Clashes) -> Result<Vec<Pair>, AllocError> {
    let mut pairs = Vec::new(alloc);
    for one in 0..clashes.len() {
        add_pairs(clashes, one, &mut pairs)?;
    }
    Ok(pairs)
}

// Counts one more for a stand.
fn raise(counts: &mut [usize], stand: usize) {
    if let Some(count) = counts.get_mut(stand) {
        *count = count.saturating_add(1);
    }
}

// The index of the greatest number, the first of several.
fn greatest(counts: &[usize]) -> usize {
    let mut index = 0;
    let mut most = 0;
    for (stand, &count) in counts.iter().enumerate() {
        if count > most {
            index = stand;
            most = count;
        }
    }
    index
}

// The stand in most of the pairs.
fn busiest(alloc: Global, clashes: &Clashes, pairs: &[Pair]) -> Result<usize, AllocError> {
    let mut counts = vec![in alloc; 0; clashes.len()]?;
    for pair in pairs {
        raise(&mut counts, pair.one);
        raise(&mut counts, pair.other);
    }
    Ok(greatest(&counts))
}

// Puts a stand onto a track if no stand there is free of it, nor it of itself. Whether it is there then.
fn admit(clashes: &Clashes, track: &mut Track, stand: usize) -> bool {
    if track.has(stand) {
        return true;
    }
    let fits = stand < track.len()
        && !clashes.meeting(stand, stand).is_free()
        && track.shuts(clashes, stand);
    if fits {
        track.put(stand);
    }
    fits
}

// Puts a stand onto the first track that admits it.
fn admit_once(clashes: &Clashes, tracks: &mut [Track], stand: usize) {
    for track in tracks.iter_mut() {
        if admit(clashes, track, stand) {
            return;
        }
    }
}

// Puts a stand onto each track that admits it.
fn admit_everywhere(clashes: &Clashes, tracks: &mut [Track], stand: usize) {
    for track in tracks.iter_mut() {
        let _ = admit(clashes, track, stand);
    }
}

// So many tracks with one stand.
fn seeded(
    alloc: Global,
    clashes: &Clashes,
    seed: usize,
    many: usize,
) -> Result<Vec<Track>, AllocError> {
    let mut tracks = Vec::new(alloc);
    for _ in 0..many {
        let mut track = Track::new(alloc, clashes.len())?;
        let _ = admit(clashes, &mut track, seed);
        tracks.push(track)?;
    }
    Ok(tracks)
}

// Puts those that clash with a stand onto a track each.
fn admit_partners(clashes: &Clashes, pairs: &[Pair], seed: usize, tracks: &mut [Track]) {
    for pair in pairs {
        if let Some(stand) = pair.partner(seed) {
            admit_once(clashes, tracks, stand);
        }
    }
}

// Puts those that never meet a stand onto a track each: they need one where they clash with others.
fn admit_others(clashes: &Clashes, seed: usize, tracks: &mut [Track]) {
    for stand in 0..clashes.len() {
        if !clashes.meeting(seed, stand).is_free() {
            admit_once(clashes, tracks, stand);
        }
    }
}

// Puts all stands onto all tracks that admit them.
fn admit_all(clashes: &Clashes, tracks: &mut [Track]) {
    for stand in 0..clashes.len() {
        admit_everywhere(clashes, tracks, stand);
    }
}

// The section of so many tracks that all have a stand.
fn section_around(
    alloc: Global,
    clashes: &Clashes,
    pairs: &[Pair],
    seed: usize,
    many: usize,
) -> Result<Option<StandSection>, AllocError>
    ensures { IfOk result (λ section. IfSome section (IsFit clashes.now)) }
{
    let mut tracks = seeded(alloc, clashes, seed, many)?;
    admit_partners(clashes, pairs, seed, &mut tracks);
    admit_others(clashes, seed, &mut tracks);
    admit_all(clashes, &mut tracks);
    sound_section(alloc, clashes, &tracks)
}

// How many of the pairs a section forbids.
fn gain(section: &StandSection, pairs: &[Pair]) -> usize {
    pairs
        .iter()
        .filter(|pair| pair.is_forbidden(section))
        .count()
}

// A section of at most so many tracks that forbids many of the pairs, if one forbids any.
fn best_section(
    alloc: Global,
    clashes: &Clashes,
    pairs: &[Pair],
    most: usize,
) -> Result<Option<StandSection>, AllocError>
    ensures { IfOk result (λ section. IfSome section (IsFit clashes.now)) }
{
    let seed = busiest(alloc, clashes, pairs)?;
    let mut best = None;
    let mut most_gain = 0;
    for many in 1..=most {
        if let Some(section) = section_around(alloc, clashes, pairs, seed, many)? {
            let gain = gain(&section, pairs);
            if gain > most_gain {
                most_gain = gain;
                best = Some(section);
            }
        }
    }
    Ok(best)
}

// Whether the sections forbid each clash of a stand with one up to it.
fn are_enough_for(clashes: &Clashes, sections: &[StandSection], one: usize) -> bool {
    for other in 0..=one {
        if clashes.meeting(one, other).is_clash() && !are_forbidden(sections, one, other) {
            return false;
        }
    }
    true
}

// Whether the sections forbid each clash.
fn are_enough(clashes: &Clashes, sections: &[StandSection]) -> bool {
    for stand in 0..clashes.len() {
        if !are_enough_for(clashes, sections, stand) {
            return false;
        }
    }
    true
}

// Drops the section at an index if the others are enough; else it comes last.
fn reconsider(
    clashes: &Clashes,
    sections: &mut Vec<StandSection>,
    index: usize,
) -> Result<(), AllocError>
    requires within { index < length sections.old.items }
    requires fit { All (IsFit clashes.now) sections.old.items }
    ensures fit { OnOk result (All (IsFit clashes.now) sections.new.items) }
{
    let section = sections.remove(index);
    if !are_enough(clashes, sections) {
        sections.push(section)?;
    }
    Ok(())
}

// Drops sections without which the others are enough.
fn drop_needless(clashes: &Clashes, sections: &mut Vec<StandSection>) -> Result<(), AllocError>
    requires { All (IsFit clashes.now) sections.old.items }
    ensures { OnOk result (All (IsFit clashes.now) sections.new.items) }
{
    for index in (0..sections.len()).rev() {
        if index < sections.len() {
            reconsider(clashes, sections, index)?;
        }
    }
    Ok(())
}

// Sections of at most so many tracks that forbid all of the pairs, if they aren't very many.
fn found(alloc: Global, clashes: &Clashes, most: usize) -> Result<Vec<StandSection>, AllocError>
    ensures { IfOk result (λ sections. All (IsFit clashes.now) sections.items) }
{
    let mut pairs = clashing_pairs(alloc, clashes)?;
    let mut sections = Vec::new(alloc);
    for _ in 0..MOST_SECTIONS {
        let Some(section) = best_section(alloc, clashes, &pairs, most)? else {
            break;
        };
        pairs.retain(|pair| !pair.is_forbidden(&section));
        sections.push(section)?;
    }
    drop_needless(clashes, &mut sections)?;
    Ok(sections)
}

/// Sections that forbid the clashes: those of one track each, or with more tracks, whichever are fewer.
pub(crate) fn choose(alloc: Global, clashes: &Clashes) -> Result<Vec<StandSection>, AllocError>
    ensures { IfOk result (λ sections. All (IsFit clashes.now) sections.items) }
{
    let narrow = found(alloc, clashes, 1)?;
    let wide = found(alloc, clashes, 4)?;
    Ok(if wide.len() < narrow.len() {
        wide
    } else {
        narrow
    })
}
