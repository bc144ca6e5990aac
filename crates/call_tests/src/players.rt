// Those who play a scene: they board, make the calls of their lines, and leave.
ghost use Rattle.std.specs.Prelude.{◌≡◌, All};
ghost use Rattle.rail_model.specs.Table.{trains as trains_of};
ghost use Rattle.rail_model.specs.Yard.{offer};
ghost use Rattle.call_tests.specs.Players.{IsOf};

use crate::scenes::Scene;
use either::{Either, Left, Right};
use std::alloc::{AllocError, Global};
use std::fmt::Debug;
use std::sync::Wait;
use std::thread;
use std::thread::Threads;
use zone_machine::CONTROL;
use zone_yard::{Control, Driver, Root, Yard};

/// A train's driver, or the control.
pub(crate) type Player = Either<Driver, Control>;

/// All trains of a yard and the control board, and come to the others. It says whether there was memory for all.
pub(crate) fn board_all(
    alloc: Global,
    yard: &Yard<'_>,
    root: &mut Root,
    trains: u32,
    players: &mut Vec<Player>,
) -> bool
    requires ours { root.old.yard ≡ yard.now }
    requires trains { trains ≡ trains_of (offer root.old.yard.setup.tables 0).table }
    requires players { All (IsOf yard.now) players.old.items }
    ensures ours { root.new.yard ≡ yard.now }
    ensures players { All (IsOf yard.now) players.new.items }
{
    for train in 0..trains {
        let Ok(driver) = yard.board(alloc, root, train) else {
            return false;
        };
        let Ok(()) = players.push(Left(driver)) else {
            return false;
        };
    }
    match yard.board_control(alloc, root) {
        Ok(control) => players.push(Right(control)).is_ok(),
        Err(_) => false,
    }
}

// An answer as text.
fn text_of<T: Debug + Drop>(alloc: Global, answer: T) -> Result<String, AllocError> {
    format!(in alloc; "{answer:?}")
}

// A driver makes a call. The text of its answer.
fn ask_driver<R: Wait>(
    rt: &R,
    alloc: Global,
    yard: &Yard<'_>,
    driver: &mut Driver,
    call: &str,
    scene: &Scene<'_>,
) -> Result<String, AllocError>
    requires { driver.old.yard ≡ yard.now }
    ensures { driver.new.yard ≡ yard.now }
{
    let (name, steps) = call.split_once(' ').unwrap_or((call, "1"));
    let steps = steps.parse::<u32>().unwrap_or(1).clamp(1, 4);
    match name {
        "try_request" => text_of(alloc, yard.try_request(driver, scene)),
        "request" => text_of(alloc, yard.request(rt, driver, scene)),
        "try_block" => text_of(alloc, yard.try_block(driver, steps, scene)),
        "request_block" => text_of(alloc, yard.request_block(rt, driver, steps, scene)),
        _ => text_of(alloc, "no call"),
    }
}

// A player makes a call. The text of its answer; the control makes its own whatever the call is.
fn ask<R: Wait>(
    rt: &R,
    alloc: Global,
    yard: &Yard<'_>,
    player: &mut Player,
    call: &str,
    scene: &Scene<'_>,
) -> Result<String, AllocError>
    requires { IsOf yard.now player.old }
    ensures { IsOf yard.now player.new }
{
    match player {
        Left(driver) => ask_driver(rt, alloc, yard, driver, call, scene),
        Right(control) => text_of(alloc, yard.exchange(rt, control, scene)),
    }
}

// The number of a player's pass.
fn number_of(player: &Player) -> u32 {
    match player {
        Left(driver) => driver.train(),
        Right(_) => CONTROL,
    }
}

// A player makes the calls of its lines, each when it is its turn.
fn perform<R: Wait>(rt: &R, alloc: Global, yard: &Yard<'_>, player: &mut Player, scene: &Scene<'_>)
    requires { IsOf yard.now player.old }
    ensures { IsOf yard.now player.new }
{
    let who = number_of(player);
    for text in scene.text.split('\n') {
        let call = scene.turn(who, text);
        if !call.is_empty() {
            match ask(rt, alloc, yard, player, call, scene) {
                Ok(answer) => scene.answer(who, answer.as_str()),
                Err(_) => scene.give_up(),
            }
        }
    }
}

/// All play their lines, each in a thread of its own.
pub(crate) fn perform_all<R: Threads + Wait + Sync>(
    rt: &R,
    alloc: Global,
    yard: &Yard<'_>,
    players: &mut [Player],
    scene: &Scene<'_>,
)
    requires { All (IsOf yard.now) players.old }
    ensures { All (IsOf yard.now) players.new }
{
    if players.is_empty() {
        return;
    }
    let count = players.len();
    thread::for_each_mut(
        rt,
        players,
        count,
        &|_i: usize, player: &mut Player|
            requires { IsOf yard.now player.old }
            ensures { IsOf yard.entry.now player.new }
        { perform(rt, alloc, yard, player, scene) },
    );
}

// A player leaves.
fn leave(yard: &Yard<'_>, player: Player, root: &mut Root)
    requires root { root.old.yard ≡ yard.now }
    requires player { IsOf yard.now player }
    ensures { root.new.yard ≡ yard.now }
{
    match player {
        Left(driver) => yard.leave(driver, root),
        Right(control) => yard.leave_control(control, root),
    }
}

/// All leave.
pub(crate) fn leave_all(yard: &Yard<'_>, players: Vec<Player>, root: &mut Root)
    requires root { root.old.yard ≡ yard.now }
    requires players { All (IsOf yard.now) players.items }
    ensures { root.new.yard ≡ yard.now }
{
    for player in players {
        leave(yard, player, root);
    }
}
