// The command as clap takes it.
ghost use Rattle.std.specs.Prelude.{◌≡◌, false, map, IfOk};
ghost use Rattle.clap.specs.Words.{app_of, rule_of, with_subcommand};
ghost use Rattle.ats_words.specs.Built.{IsBuiltAs, IsSubcommand, IsLocal, leaf, long_option};
ghost use Rattle.ats_words.specs.Options.{rule_for};
ghost use Rattle.ats_words.specs.Words as spec;

use crate::options::{
    BLOCK, BUDGET, MOST, NumberOption, REPAIR_ROUNDS, ROUNDS, SEED, STEPS, TRAINS, WORKERS,
};
use clap::{Arg, Command};
use std::alloc::{AllocError, Global};

// A subcommand, with its options.
struct Subcommand {
    name: &'static str,
    options: &'static [NumberOption],
}

const SUBCOMMANDS: [Subcommand; 12] = [
    Subcommand {
        name: "run",
        options: &[WORKERS, ROUNDS, BLOCK],
    },
    Subcommand {
        name: "resume",
        options: &[WORKERS, ROUNDS, BLOCK],
    },
    Subcommand {
        name: "check",
        options: &[],
    },
    Subcommand {
        name: "verify",
        options: &[],
    },
    Subcommand {
        name: "migrate",
        options: &[],
    },
    Subcommand {
        name: "make",
        options: &[BUDGET],
    },
    Subcommand {
        name: "derive",
        options: &[MOST, BUDGET],
    },
    Subcommand {
        name: "repair",
        options: &[BUDGET, REPAIR_ROUNDS],
    },
    Subcommand {
        name: "sim",
        options: &[],
    },
    Subcommand {
        name: "gen",
        options: &[SEED, TRAINS],
    },
    Subcommand {
        name: "drill",
        options: &[SEED, TRAINS, WORKERS],
    },
    Subcommand {
        name: "weave",
        options: &[SEED, STEPS],
    },
];

/// The whole command.
pub(crate) fn command<'a>(alloc: Global) -> Result<Command<'a>, AllocError>
    ensures { IfOk result (IsBuiltAs spec.ats) }
{
    let subcommands: &[Subcommand] = &SUBCOMMANDS;
    let mut command = start(alloc);
    for subcommand in subcommands {
        command = with_subcommand(alloc, command, subcommand)?;
    }
    Ok(command)
}

// The command before any subcommand.
fn start<'a>(alloc: Global) -> Command<'a>
    ensures { IsBuiltAs spec.start result }
{
    Command::new(alloc, "ats")
        .no_binary_name(true)
        .subcommand_required(true)
        .disable_help_flag(true)
        .disable_help_subcommand(true)
}

// The command with one more subcommand.
fn with_subcommand<'a>(
    alloc: Global,
    command: Command<'a>,
    subcommand: &Subcommand,
) -> Result<Command<'a>, AllocError>
    requires { IsLocal command }
    ensures { IfOk result (IsBuiltAs (with_subcommand (app_of command.entry) (leaf subcommand.now.name.now (map rule_for subcommand.now.options.now)))) }
{
    command.subcommand(leaf(alloc, subcommand)?)
}

fn leaf<'a>(alloc: Global, subcommand: &Subcommand) -> Result<Command<'a>, AllocError>
    ensures { IfOk result (IsSubcommand (leaf subcommand.now.name.now (map rule_for subcommand.now.options.now))) }
{
    let mut command = Command::new(alloc, subcommand.name);
    for option in subcommand.options {
        command = command.arg(long_option(alloc, option.name))?;
    }
    Ok(command)
}

fn long_option<'a>(alloc: Global, name: &'static str) -> Arg<'a>
    ensures rule { rule_of result ≡ long_option name.entry.now }
    ensures local { result.global ≡ false }
{
    Arg::new(alloc, name).long(name)
}
