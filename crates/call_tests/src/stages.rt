// Yards at which scenes are played.
ghost use Rattle.std.specs.Prelude.{◌≡◌, IfSome};
ghost use Rattle.rail_model.specs.Table.{trains as trains_of};
ghost use Rattle.rail_model.specs.Yard.{offer};
ghost use Rattle.plain_yard.specs.Keeps.{Keeps};
ghost use Rattle.document_json.specs.Doc.{offers_of};

use crate::players::{board_all, leave_all, perform_all};
use crate::scenes::Scene;
use cert_checker::Accepted;
use document_json::Frame;
use move_journal::{Journal, replay};
use plain_yard::PlainYard;
use rail_model::{Line, PlainState, trains_of as count_trains};
use std::alloc::Global;
use std::sync::Wait;
use std::thread::Threads;
use zone_yard::{Root, Yard};

/// How a yard opens: how many entries each pass may make, and whether the yard goes on from a journal in which train 0 has made its first move.
/// Then the lines of the scene.
#[derive(Clone, Copy)]
pub(crate) struct Stage<'a> {
    pub(crate) entries: u32,
    pub(crate) is_resumed: bool,
    pub(crate) lines: &'a str,
}

// All trains and the control board a yard, play the lines of a scene, and leave. It says whether all lines were played.
fn play_lines<R: Threads + Wait + Sync>(
    rt: &R,
    alloc: Global,
    yard: &Yard<'_>,
    root: &mut Root,
    trains: u32,
    lines: &str,
) -> bool
    requires ours { root.old.yard ≡ yard.now }
    requires trains { trains ≡ trains_of (offer root.old.yard.setup.tables 0).table }
    ensures { root.new.yard ≡ yard.now }
{
    let scene = Scene::new(lines);
    let mut players = Vec::new(alloc);
    let have_boarded = board_all(alloc, yard, root, trains, &mut players);
    perform_all(rt, alloc, yard, &mut players, &scene);
    leave_all(yard, players, root);
    have_boarded && scene.unplayed().is_none()
}

// A scene is played at a yard from which nobody has boarded. The state to which it is closed.
fn play_at<R: Threads + Wait + Sync>(
    rt: &R,
    alloc: Global,
    yard: Yard<'_>,
    mut root: Root,
    trains: u32,
    lines: &str,
) -> Option<PlainState>
    requires ours { root.yard ≡ yard }
    requires trains { trains ≡ trains_of (offer root.yard.setup.tables 0).table }
    ensures { IfSome result (λ state. Keeps yard.entry.setup.tables state.yard state.lines) }
{
    let is_played = play_lines(rt, alloc, &yard, &mut root, trains, lines);
    if !is_played || root.out() != 0 {
        return None;
    }
    match yard.close(alloc, root) {
        Ok(state) => Some(state),
        Err(_) => None,
    }
}

// The number of trains of tables, if there are any.
fn trains(tables: &[Accepted]) -> Option<u32>
    ensures { IfSome result (λ n. n ≡ trains_of (offer tables.now 0).table) }
{
    let first = tables.first()?;
    Some(count_trains(first.table()))
}

// The state to which the first move of train 0 leads.
fn replayed(alloc: Global, doc: &Frame, tables: &[Accepted]) -> Option<PlainState>
    requires { tables.now ≡ offers_of doc.now }
    ensures { IfSome result (λ state. Keeps (offers_of doc.now) state.yard state.lines) }
{
    let line = Line::Move {
        train: 0,
        from: 0,
        to: Some(1),
    };
    let Ok(lines) = Vec::from_slice(alloc, &[line]) else {
        return None;
    };
    match replay(alloc, tables, doc.start(), &Journal::from_lines(lines)) {
        Ok(state) => Some(state),
        Err(_) => None,
    }
}

// The yard of a document, and its root.
fn opened<'a>(
    alloc: Global,
    doc: &'a Frame,
    tables: &'a [Accepted],
    stage: Stage<'_>,
) -> Option<(Yard<'a>, Root)>
    requires { tables.now ≡ offers_of doc.now }
    ensures root { IfSome result (λ made. made.1.yard ≡ made.0) }
    ensures tables { IfSome result (λ made. made.0.setup.tables ≡ offers_of doc.entry.now) }
{
    let layout = doc.layout();
    let calls = stage.entries.max(1);
    if stage.is_resumed {
        let state = replayed(alloc, doc, tables)?;
        match Yard::resume(alloc, layout, tables, state, calls) {
            Ok(made) => Some(made),
            Err(_) => None,
        }
    } else {
        match Yard::new(alloc, layout, tables, doc.start(), calls) {
            Ok(made) => Some(made),
            Err(_) => None,
        }
    }
}

/// A scene at the yard of a document. The state to which it is closed.
pub(crate) fn play<R: Threads + Wait + Sync>(
    rt: &R,
    alloc: Global,
    doc: &Frame,
    tables: &[Accepted],
    stage: Stage<'_>,
) -> Option<PlainState>
    requires { tables.now ≡ offers_of doc.now }
    ensures { IfSome result (λ state. Keeps (offers_of doc.now) state.yard state.lines) }
{
    let trains = trains(tables)?;
    let (yard, root) = opened(alloc, doc, tables, stage)?;
    play_at(rt, alloc, yard, root, trains, stage.lines)
}

/// The state after one thread has brought all trains to their ends.
pub(crate) fn finished(tables: &[Accepted], state: PlainState) -> Option<PlainState>
    requires { Keeps tables.now state.yard state.lines }
{
    let Ok(mut rest) = PlainYard::new(tables, state) else {
        return None;
    };
    rest.finish();
    Some(rest.into_state())
}
