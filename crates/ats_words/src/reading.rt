// Reading the words.
ghost use Rattle.std.specs.Prelude.{◌≡◌, IfOk, IfSome, Some, None, map, string_bytes, option_and_then};
ghost use Rattle.clap.specs.Words.{found_of, rows_of, subcommand_rows_of};
ghost use Rattle.ats_words.specs.Subcommands as sub;
ghost use Rattle.ats_words.specs.Words as spec;

use crate::options::{
    BLOCK, BUDGET, MOST, REPAIR_ROUNDS, ROUNDS, SEED, STEPS, TRAINS, WORKERS, number,
};
use crate::orders::{Order, WordsRefused};
use crate::table::command;
use clap::ArgMatches;
use clap::error::ErrorKind;
use std::alloc::Global;

/// What the words after the program's name ask for.
///
/// # Errors
///
/// `Words` exactly where the definition refuses them, unless there was no memory to read them: then the answer is
/// `Memory`, whatever they are.
pub fn words(alloc: Global, words: &[String]) -> Result<Order, WordsRefused>
    ensures ok { IfOk result (λ order. spec.words (map string_bytes words.now) ≡ Some order) }
    ensures within { IfOk result sub.HasItsNumbers }

    ensures refused { result ≡ Err WordsRefused.Words → spec.words (map string_bytes words.now) ≡ None }
{
    let Ok(command) = command(alloc) else {
        return Err(WordsRefused::Memory);
    };
    match command.try_get_matches_from(words) {
        Ok(matches) => order_of(&matches).ok_or(WordsRefused::Words),
        Err(error) => if error.kind() == ErrorKind::OutOfMemory {
            Err(WordsRefused::Memory)
        } else {
            Err(WordsRefused::Words)
        },
    }
}

fn order_of(matches: &ArgMatches<'_>) -> Option<Order>
    ensures exact { result ≡ option_and_then spec.order_of (subcommand_rows_of matches.now) }
    ensures within { IfSome result sub.HasItsNumbers }
{
    let (name, inner) = matches.subcommand()?;
    order_called(name, inner)
}

#[tactic(auto, using(crate::proofs::Asked::asks_by_name))]
fn order_called(name: &str, matches: &ArgMatches<'_>) -> Option<Order>
    ensures exact { result ≡ spec.order_of (name.now, rows_of (found_of matches.now)) }
    ensures within { IfSome result sub.HasItsNumbers }
{
    match name {
        "run" => run(matches),
        "resume" => resume(matches),
        "check" => Some(Order::Check),
        "verify" => Some(Order::Verify),
        "migrate" => Some(Order::Migrate),
        "make" => make(matches),
        "derive" => derive(matches),
        "repair" => repair(matches),
        "sim" => Some(Order::Simulate),
        "gen" => generate(matches),
        "drill" => drill(matches),
        "weave" => weave(matches),
        _ => None,
    }
}

#[tactic(auto, using(crate::proofs::Asked::asks_three))]
fn run(matches: &ArgMatches<'_>) -> Option<Order>
    ensures exact { result ≡ sub.run.order (rows_of (found_of matches.now)) }
    ensures within { IfSome result sub.HasItsNumbers }
{
    let workers = number(matches, &WORKERS)?;
    let rounds = number(matches, &ROUNDS)?;
    let block = number(matches, &BLOCK)?;
    Some(Order::Run {
        workers,
        rounds,
        block,
    })
}

#[tactic(auto, using(crate::proofs::Asked::asks_three))]
fn resume(matches: &ArgMatches<'_>) -> Option<Order>
    ensures exact { result ≡ sub.resume.order (rows_of (found_of matches.now)) }
    ensures within { IfSome result sub.HasItsNumbers }
{
    let workers = number(matches, &WORKERS)?;
    let rounds = number(matches, &ROUNDS)?;
    let block = number(matches, &BLOCK)?;
    Some(Order::Resume {
        workers,
        rounds,
        block,
    })
}

#[tactic(auto, using(crate::proofs::Asked::asks_one))]
fn make(matches: &ArgMatches<'_>) -> Option<Order>
    ensures exact { result ≡ sub.make.order (rows_of (found_of matches.now)) }
    ensures within { IfSome result sub.HasItsNumbers }
{
    let budget = number(matches, &BUDGET)?;
    Some(Order::Make { budget })
}

#[tactic(auto, using(crate::proofs::Asked::asks_two))]
fn derive(matches: &ArgMatches<'_>) -> Option<Order>
    ensures exact { result ≡ sub.derive.order (rows_of (found_of matches.now)) }
    ensures within { IfSome result sub.HasItsNumbers }
{
    let most = number(matches, &MOST)?;
    let budget = number(matches, &BUDGET)?;
    Some(Order::Derive { most, budget })
}

#[tactic(auto, using(crate::proofs::Asked::asks_two))]
fn repair(matches: &ArgMatches<'_>) -> Option<Order>
    ensures exact { result ≡ sub.repair.order (rows_of (found_of matches.now)) }
    ensures within { IfSome result sub.HasItsNumbers }
{
    let budget = number(matches, &BUDGET)?;
    let rounds = number(matches, &REPAIR_ROUNDS)?;
    Some(Order::Repair { budget, rounds })
}

#[tactic(auto, using(crate::proofs::Asked::asks_two))]
fn generate(matches: &ArgMatches<'_>) -> Option<Order>
    ensures exact { result ≡ sub.generate.order (rows_of (found_of matches.now)) }
    ensures within { IfSome result sub.HasItsNumbers }
{
    let seed = number(matches, &SEED)?;
    let trains = number(matches, &TRAINS)?;
    Some(Order::Generate { seed, trains })
}

#[tactic(auto, using(crate::proofs::Asked::asks_three))]
fn drill(matches: &ArgMatches<'_>) -> Option<Order>
    ensures exact { result ≡ sub.drill.order (rows_of (found_of matches.now)) }
    ensures within { IfSome result sub.HasItsNumbers }
{
    let seed = number(matches, &SEED)?;
    let trains = number(matches, &TRAINS)?;
    let workers = number(matches, &WORKERS)?;
    Some(Order::Drill {
        seed,
        trains,
        workers,
    })
}

#[tactic(auto, using(crate::proofs::Asked::asks_two))]
fn weave(matches: &ArgMatches<'_>) -> Option<Order>
    ensures exact { result ≡ sub.weave.order (rows_of (found_of matches.now)) }
    ensures within { IfSome result sub.HasItsNumbers }
{
    let seed = number(matches, &SEED)?;
    let steps = number(matches, &STEPS)?;
    Some(Order::Weave { seed, steps })
}
