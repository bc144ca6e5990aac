// Sections that forbid each clash: what is missing is added.
ghost use Rattle.std.specs.Prelude.{◌≡◌, ◌≢◌, ℕ, ◌<◌, ◌≤◌, All, IfOk, IfErr, OnOk, length};
ghost use Rattle.clash_sections.specs.declared.meetings.Meeting.TheVariants.{Free, Clash};
ghost use Rattle.clash_sections.specs.Answer.{IsRefused};
ghost use Rattle.clash_sections.specs.Sections.{Forbids, SomeForbids};
ghost use Rattle.clash_sections.specs.Stands.{meeting, IsOrderly};
ghost use Rattle.clash_sections.specs.Tracks.{IsFit, AreEnough};

use crate::section::are_forbidden;
use crate::tracks::{Track, section_of};
use crate::{Clashes, Refused, StandSection};
use std::alloc::{AllocError, Global};

// Whether a stand that is free of itself clashes with one.
fn check_free(clashes: &Clashes, stand: usize) -> Result<(), Refused>
    requires { meeting clashes.now stand stand ≡ Free }
    ensures ok { OnOk result ((b : ℕ) → meeting clashes.now stand b ≢ Clash) }
    ensures err { IfErr result (IsRefused clashes.now) }
{
    for other in 0..clashes.len() {
        if clashes.meeting(stand, other).is_clash() {
            return Err(Refused::FreeOfItself { stand, other });
        }
    }
    Ok(())
}

fn check_stand(clashes: &Clashes, stand: usize) -> Result<(), Refused>
    ensures ok { OnOk result ((b : ℕ) → meeting clashes.now stand b ≡ Clash → meeting clashes.now stand stand ≢ Free) }
    ensures err { IfErr result (IsRefused clashes.now) }
{
    if clashes.meeting(stand, stand).is_free() {
        check_free(clashes, stand)
    } else {
        Ok(())
    }
}

/// Refuses clashes of stands that are free of themselves.
pub(crate) fn check(clashes: &Clashes) -> Result<(), Refused>
    ensures ok { OnOk result (IsOrderly clashes.now) }
    ensures err { IfErr result (IsRefused clashes.now) }
{
    for stand in 0..clashes.len() {
        check_stand(clashes, stand)?;
    }
    Ok(())
}

// The section of one track, with two stands that clash.
fn section_of_two(
    alloc: Global,
    clashes: &Clashes,
    one: usize,
    other: usize,
) -> Result<StandSection, AllocError>
    requires orderly { IsOrderly clashes.now }
    requires within { (one < length clashes.now) × (other < length clashes.now) }
    requires clash { meeting clashes.now one other ≡ Clash }
    ensures fit { IfOk result (IsFit clashes.now) }
    ensures forbids { IfOk result (Forbids one other) }
{
    let mut track = Track::new(alloc, clashes.len())?;
    track.put(one);
    track.put(other);
    section_of(alloc, &[track], clashes.len())
}

// Adds a section for two stands, if they clash and none forbids it.
fn cover_pair(
    alloc: Global,
    clashes: &Clashes,
    one: usize,
    other: usize,
    sections: &mut Vec<StandSection>,
) -> Result<(), AllocError>
    requires orderly { IsOrderly clashes.now }
    requires within { (one < length clashes.now) × (other < length clashes.now) }
    requires fit { All (IsFit clashes.now) sections.old.items }
    ensures fit { OnOk result (All (IsFit clashes.now) sections.new.items) }
    ensures kept { OnOk result ((a b : ℕ) → SomeForbids sections.old.items a b → SomeForbids sections.new.items a b) }
    ensures covered { OnOk result (meeting clashes.now one other ≡ Clash → SomeForbids sections.new.items one other) }
{
    if clashes.meeting(one, other).is_clash() && !are_forbidden(sections, one, other) {
        sections.push(section_of_two(alloc, clashes, one, other)?)?;
    }
    Ok(())
}

// Adds a section for each clash of a stand with one up to it that none forbids.
fn cover_stand(
    alloc: Global,
    clashes: &Clashes,
    stand: usize,
    sections: &mut Vec<StandSection>,
) -> Result<(), AllocError>
    requires orderly { IsOrderly clashes.now }
    requires within { stand < length clashes.now }
    requires fit { All (IsFit clashes.now) sections.old.items }
    ensures fit { OnOk result (All (IsFit clashes.now) sections.new.items) }
    ensures kept { OnOk result ((a b : ℕ) → SomeForbids sections.old.items a b → SomeForbids sections.new.items a b) }
    ensures covered { OnOk result ((b : ℕ) → b ≤ stand → meeting clashes.now stand b ≡ Clash → SomeForbids sections.new.items stand b) }
{
    for other in 0..=stand {
        cover_pair(alloc, clashes, stand, other, sections)?;
    }
    Ok(())
}

/// Adds a section for each clash that none forbids.
pub(crate) fn cover(
    alloc: Global,
    clashes: &Clashes,
    sections: &mut Vec<StandSection>,
) -> Result<(), AllocError>
    requires orderly { IsOrderly clashes.now }
    requires fit { All (IsFit clashes.now) sections.old.items }
    ensures fit { OnOk result (All (IsFit clashes.now) sections.new.items) }
    ensures enough { OnOk result (AreEnough clashes.now sections.new.items) }
{
    for stand in 0..clashes.len() {
        cover_stand(alloc, clashes, stand, sections)?;
    }
    Ok(())
}
