// Drawn turns of a document's trains and its control.
ghost use Rattle.std.specs.Prelude.{◌≡◌, ◌≤◌, [], IfOk};
ghost use Rattle.rail_model.specs.Yard.{opening, IsHistory};
ghost use Rattle.zone_machine.specs.Sound.{Sound};
ghost use Rattle.zone_machine.specs.Weave.{plain_of};
ghost use Rattle.document_generator.specs.Draws.{drawn_of};
ghost use Rattle.document_json.specs.Doc.{IsDoc, offers_of};
ghost use Rattle.ats_answers.specs.Weaving.{after_turn, core_of, drawn_actor as actor_of_draw, drawn_world, woven};

use cert_checker::Accepted;
use document_generator::Draws;
use document_json::Frame;
use rail_model::{HasTable, PlainState, trains_of};
use std::alloc::{AllocError, Global};
use zone_machine::{CONTROL, Core};

/// The state of a document's run after this number of turns, each of the train or the control that is drawn of the seed, and the lines of
/// what was granted in them.
///
/// # Errors
///
/// There was no memory.
pub fn state_after(
    alloc: Global,
    doc: &Frame,
    tables: &[Accepted],
    seed: u32,
    turns: u32,
) -> Result<PlainState, AllocError>
    requires tables { tables.now ≡ offers_of doc.now }
    requires few { turns ≤ 1000000 }
    ensures formed { IsDoc doc.now }
    ensures plain { IfOk result (λ state. state ≡ plain_of (core_of doc.now turns) [] (woven doc.now seed turns)) }
    ensures legal { IfOk result (λ _. IsHistory (offers_of doc.now) (opening doc.now.start) (woven doc.now seed turns).history) }
{
    let mut core = Core::new(alloc, doc.layout(), tables, doc.start(), u64::from(turns))?;
    make_turns(&mut core, trains_of(tables[0].table()), seed, turns);
    core.plain(alloc)
}

// Makes a number of turns, each of the actor that is drawn.
fn make_turns<A: HasTable>(core: &mut Core<'_, A>, trains: u32, seed: u32, turns: u32)
    requires trains { trains ≤ 32 }
    requires sound { Sound core.old.setup core.old.world }
    ensures setup { core.new.setup ≡ core.old.setup }
    ensures world { core.new.world ≡ drawn_world core.old.setup trains turns (drawn_of seed) core.old.world }
    ensures sound { Sound core.new.setup core.new.world }
{
    let mut draws = Draws::new(seed);
    for _turn in 0..turns {
        let actor = drawn_actor(trains, draws.draw());
        make_turn(core, actor);
    }
}

// Whom a drawn number means: a train, or after the last of them the control.
fn drawn_actor(trains: u32, drawn: u32) -> u32
    requires { trains ≤ 32 }
    ensures { result ≡ actor_of_draw trains drawn }
{
    let actor = drawn % (trains + 1);
    if actor == trains { CONTROL } else { actor }
}

// Makes an actor's next step, where it has one.
fn make_turn<A: HasTable>(core: &mut Core<'_, A>, actor: u32)
    requires { Sound core.old.setup core.old.world }
    ensures setup { core.new.setup ≡ core.old.setup }
    ensures world { core.new.world ≡ after_turn core.old.setup actor core.old.world }
    ensures sound { Sound core.new.setup core.new.world }
{
    if let Some(step) = core.next(actor) {
        // A step that isn't allowed changes nothing.
        let _ = core.step(actor, step);
    }
}
