// The knot of a state: a least group of trains that keep one another where they are.
ghost use Rattle.std.specs.Prelude.{◌≡◌, ◌<◌, ◌++◌, [], IfOk, IfSome, IsTrue, OnOk, codes, length, string_bytes};
ghost use Rattle.rail_model.specs.Table.{trains, last, place as place_of};
ghost use Rattle.state_core.specs.Core.{is_unfinished as is_unfinished_of};
ghost use Rattle.state_core.specs.Keeper.{IsKeeperOf};
ghost use Rattle.state_sentences.specs.Explanation.{joined_below};
ghost use Rattle.state_sentences.specs.Knot.{IsKnotOrNone};
ghost use Rattle.state_sentences.specs.KnotWords.{has_more as has_more_of, differ as differ_of, has_arrived as has_arrived_of, member_share_words, shut_words, keeper_words, kept_words, arrived_words, member_words, whole_knot_words, knot_words};

use crate::Scene;
use crate::naming::push_section;
use crate::sentences::write_holder;
use rail_model::last_of;
use state_core::{Group, Keeper, all_below, keeper_of, least_core};
use std::alloc::{AllocError, Global};

// No trains.
fn nobody(alloc: Global) -> Group
    ensures { result ≡ [] }
{
    Group::from(Vec::new(alloc))
}

// A least core of a state; no train if it has none.
fn any_knot(alloc: Global, scene: &Scene) -> Result<Group, AllocError>
    ensures { IfOk result (IsKnotOrNone scene.now.table.now scene.now.state.now) }
{
    let all = all_below(alloc, scene.trains())?;
    match least_core(alloc, scene.table, scene.state, all)? {
        Some(knot) => Ok(knot),
        None => Ok(nobody(alloc)),
    }
}

/// A least core of a state, among the trains of its circle if there is one; no train if it has none.
pub(crate) fn knot_of(alloc: Global, scene: &Scene, circle: &[u32]) -> Result<Group, AllocError>
    ensures { IfOk result (IsKnotOrNone scene.now.table.now scene.now.state.now) }
{
    let circle = Group::from(Vec::from_slice(alloc, circle)?);
    match least_core(alloc, scene.table, scene.state, circle)? {
        Some(knot) => Ok(knot),
        None => any_knot(alloc, scene),
    }
}

// Whether a train isn't at its last place.
fn is_unfinished(scene: &Scene, train: u32) -> bool
    requires { train < trains scene.now.table.now }
    ensures unfinished { result ≡ is_unfinished_of scene.now.table.now scene.now.state.now train }
    ensures below { IsTrue result → place_of scene.now.state.now train < last scene.now.table.now train }
{
    scene.place(train) < last_of(scene.table, train)
}

/// Whether some train of a knot has arrived.
pub(crate) fn has_arrived(scene: &Scene, knot: &Group) -> bool
    ensures { result ≡ has_arrived_of scene.now.table.now scene.now.state.now knot.now }
{
    for train in 0..scene.trains() {
        if knot.has(train) && !is_unfinished(scene, train) {
            return true;
        }
    }
    false
}

// Whether one group has a train that the other lacks.
fn has_more(scene: &Scene, one: &Group, other: &Group) -> bool
    ensures { result ≡ has_more_of scene.now.table.now one.now other.now }
{
    for train in 0..scene.trains() {
        if one.has(train) && !other.has(train) {
            return true;
        }
    }
    false
}

// Whether a knot has other trains than a circle.
fn differ(scene: &Scene, circle: &Group, knot: &Group) -> bool
    ensures { result ≡ differ_of scene.now.table.now circle.now knot.now }
{
    has_more(scene, knot, circle) || has_more(scene, circle, knot)
}

// Adds what a train has of a section, if it is one of a knot and has anything of it.
fn write_member_share(
    out: &mut String,
    scene: &Scene,
    knot: &Group,
    section: u32,
    train: u32,
) -> Result<(), AllocError>
    requires section { section < length scene.now.table.now.sections }
    requires train { train < trains scene.now.table.now }
    ensures { OnOk result (string_bytes out.new ≡ string_bytes out.old
        ++ member_share_words scene.now.names.now scene.now.table.now scene.now.state.now knot.now section train) }
{
    if knot.has(train) {
        write_holder(out, scene, section, train)
    } else {
        Ok(())
    }
}

// Adds what each train of a knot has of a section.
fn write_member_shares(
    out: &mut String,
    scene: &Scene,
    knot: &Group,
    section: u32,
) -> Result<(), AllocError>
    requires { section < length scene.now.table.now.sections }
    ensures { OnOk result (string_bytes out.new ≡ string_bytes out.old
        ++ joined_below (member_share_words scene.now.names.now scene.now.table.now scene.now.state.now knot.now section)
        (trains scene.now.table.now)) }
{
    for train in 0..scene.trains() {
        write_member_share(out, scene, knot, section, train)?;
    }
    Ok(())
}

// Adds a section, and what each train of a knot has of it.
fn write_shut(
    out: &mut String,
    scene: &Scene,
    sections: &[String],
    knot: &Group,
    section: u32,
) -> Result<(), AllocError>
    requires { section < length scene.now.table.now.sections }
    ensures { OnOk result (string_bytes out.new ≡ string_bytes out.old
        ++ shut_words scene.now.names.now sections.now scene.now.table.now scene.now.state.now knot.now section) }
{
    push_section(out, sections, section)?;
    write_member_shares(out, scene, knot, section)
}

// Adds what a train of a knot waits for.
fn write_keeper(
    out: &mut String,
    scene: &Scene,
    sections: &[String],
    knot: &Group,
    keeper: Option<Keeper>,
) -> Result<(), AllocError>
    requires { IfSome keeper (IsKeeperOf scene.now.table.now) }
    ensures { OnOk result (string_bytes out.new ≡ string_bytes out.old
        ++ keeper_words scene.now.names.now sections.now scene.now.table.now scene.now.state.now knot.now keeper) }
{
    match keeper {
        None => Ok(()),
        Some(Keeper::Train { train }) => out.push_str(scene.train(train)),
        Some(Keeper::Section { section }) => write_shut(out, scene, sections, knot, section),
        Some(Keeper::Connection { other, reached }) => {
            let name = scene.train(other);
            write!(out, "{name} to come to place {reached}, by a connection")
        }
    }
}

// Adds that a train waits within a knot.
fn write_kept(
    out: &mut String,
    scene: &Scene,
    sections: &[String],
    knot: &Group,
    train: u32,
) -> Result<(), AllocError>
    requires train { train < trains scene.now.table.now }
    requires unfinished { place_of scene.now.state.now train < last scene.now.table.now train }
    ensures { OnOk result (string_bytes out.new ≡ string_bytes out.old
        ++ kept_words scene.now.names.now sections.now scene.now.table.now scene.now.state.now knot.now train) }
{
    let name = scene.train(train);
    write!(out, " {name} waits for ")?;
    write_keeper(
        out,
        scene,
        sections,
        knot,
        keeper_of(scene.table, scene.state, knot, train),
    )?;
    out.push_str(".")
}

// Adds that a train has arrived.
fn write_arrived(out: &mut String, scene: &Scene, train: u32) -> Result<(), AllocError>
    requires { train < trains scene.now.table.now }
    ensures { OnOk result (string_bytes out.new ≡ string_bytes out.old ++ arrived_words scene.now.names.now train) }
{
    let name = scene.train(train);
    write!(out, " {name} has arrived and stays.")
}

// Adds the sentence on a train, if it is one of a knot.
fn write_member(
    out: &mut String,
    scene: &Scene,
    sections: &[String],
    knot: &Group,
    train: u32,
) -> Result<(), AllocError>
    requires { train < trains scene.now.table.now }
    ensures { OnOk result (string_bytes out.new ≡ string_bytes out.old
        ++ member_words scene.now.names.now sections.now scene.now.table.now scene.now.state.now knot.now train) }
{
    if !knot.has(train) {
        return Ok(());
    }
    if is_unfinished(scene, train) {
        write_kept(out, scene, sections, knot, train)
    } else {
        write_arrived(out, scene, train)
    }
}

// Adds the sentences on the trains of a knot.
fn write_members(
    out: &mut String,
    scene: &Scene,
    sections: &[String],
    knot: &Group,
) -> Result<(), AllocError>
    ensures { OnOk result (string_bytes out.new ≡ string_bytes out.old
        ++ joined_below (member_words scene.now.names.now sections.now scene.now.table.now scene.now.state.now knot.now) (trains scene.now.table.now)) }
{
    for train in 0..scene.trains() {
        write_member(out, scene, sections, knot, train)?;
    }
    Ok(())
}

// Adds that the trains of a knot stay.
fn write_end(out: &mut String) -> Result<(), AllocError>
    ensures { OnOk result (string_bytes out.new ≡ string_bytes out.old ++ codes " None of them can ever move.\n") }
{
    out.push_str(" None of them can ever move.\n")
}

// Adds a knot: what each of its trains waits for.
fn write_whole_knot(
    out: &mut String,
    scene: &Scene,
    sections: &[String],
    knot: &Group,
) -> Result<(), AllocError>
    ensures { OnOk result (string_bytes out.new ≡ string_bytes out.old
        ++ whole_knot_words scene.now.names.now sections.now scene.now.table.now scene.now.state.now knot.now) }
{
    out.push_str("A knot:")?;
    write_members(out, scene, sections, knot)?;
    write_end(out)
}

/// Adds a knot, unless its trains are those of the circle.
pub(crate) fn write_knot(
    out: &mut String,
    scene: &Scene,
    sections: &[String],
    circle: &Group,
    knot: &Group,
) -> Result<(), AllocError>
    ensures { OnOk result (string_bytes out.new ≡ string_bytes out.old
        ++ knot_words scene.now.names.now sections.now scene.now.table.now scene.now.state.now circle.now knot.now) }
{
    if differ(scene, circle, knot) {
        write_whole_knot(out, scene, sections, knot)
    } else {
        Ok(())
    }
}
