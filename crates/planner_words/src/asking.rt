// The command as clap takes it.
ghost use Rattle.std.specs.Prelude.{◌≡◌, false, IfOk};
ghost use Rattle.clap.specs.Built.{IsPlainArg};
ghost use Rattle.clap.specs.Words.{app_of, rule_of, with_subcommand};
ghost use Rattle.ats_words.specs.Built.{IsBuiltAs, IsSubcommand, IsLocal, long_option};
ghost use Rattle.planner_words.specs.Line as spec;

use clap::{Arg, ArgAction, Command};
use std::alloc::{AllocError, Global};

const ABOUT: &str =
    "Writes documents of ats from plans, certifies, protects, explains, checks and draws them.

It reads standard input and writes standard output. What is wrong goes to standard error, a line each.";

// An option.
#[derive(Clone, Copy)]
enum Choice {
    // It takes no value.
    Flag {
        name: &'static str,
        help: &'static str,
    },
    // The same, and it can't go with the option `without`.
    ExcludingFlag {
        name: &'static str,
        help: &'static str,
        without: &'static str,
    },
    // It takes a value, which help calls `value`.
    Value {
        name: &'static str,
        value: &'static str,
        help: &'static str,
    },
    // The same as `Value`, and it can't go with the option `without`.
    Excluding {
        name: &'static str,
        value: &'static str,
        help: &'static str,
        without: &'static str,
    },
}

const AT: Choice = Choice::Excluding {
    name: "at",
    value: "PLACES",
    help: "The place of each train, as 1,0,2",
    without: "line",
};

const TABLE: Choice = Choice::Value {
    name: "table",
    value: "NUMBER",
    help: "The table, counted from 0 (default: 0)",
};

const LINE: Choice = Choice::Excluding {
    name: "line",
    value: "LINE",
    help: "A line that `ats` wrote to standard error",
    without: "table",
};

const RUN: Choice = Choice::ExcludingFlag {
    name: "run",
    help: "Adds a run from the start that leads there, or that there is none",
    without: "line",
};

const BEFORE: Choice = Choice::Value {
    name: "before",
    value: "FILE",
    help: "A former document: lists its sections that are gone",
};

const PLAN: Choice = Choice::Value {
    name: "plan",
    value: "FILE",
    help: "The plan that the document was made of: sections are called by its names",
};

const BUDGET: Choice = Choice::Value {
    name: "budget",
    value: "NODES",
    help: "The most nodes of a table's certificate, 1 to 1000000 (default: 1000000)",
};

const NODES: Choice = Choice::Value {
    name: "budget",
    value: "NODES",
    help: "The most nodes of a table's certificate, 1 to 1000000 (default: 50000)",
};

const ROUNDS: Choice = Choice::Value {
    name: "rounds",
    value: "ROUNDS",
    help: "The most sections that are made for a table, 0 to 1000 (default: 100)",
};

const EFFORT: Choice = Choice::Value {
    name: "effort",
    value: "EFFORT",
    help: "How many ways of searching are tried: small, usual or great (default: usual)",
};

const OF_RUN: Choice = Choice::Value {
    name: "of-run",
    value: "SEED",
    help: "The orders of one run: that of a journal behind the document, or one drawn from this number; with 0, trains near their ends go first",
};

const INTO: Choice = Choice::Flag {
    name: "into",
    help: "Writes the plan that stands in place of the document, with the sections as entries behind it",
};

const ENTRIES: Choice = Choice::Flag {
    name: "entries",
    help: "The same, and writes these entries alone",
};

const JOURNAL: Choice = Choice::Value {
    name: "journal",
    value: "FILE",
    help: "The lines of the run, in a file: then standard input is the document alone",
};

const CSV: Choice = Choice::Flag {
    name: "csv",
    help: "With commas instead of columns",
};

const TRAIN: Choice = Choice::Value {
    name: "train",
    value: "NAME",
    help: "The train whose route is the axis of places (default: the longest route)",
};

const BLOCKS: Choice = Choice::Flag {
    name: "blocks",
    help: "Shows how long each point is taken, as a bar in its row",
};

const TITLE: Choice = Choice::Value {
    name: "title",
    value: "WORDS",
    help: "The title of the page (default: Report)",
};

const DELAY: Choice = Choice::Value {
    name: "delay",
    value: "TRAIN=POINT+TICKS",
    help: "The train comes to the point so many ticks later than planned; the run is that of a plan or document alone",
};

const DELAYED: Choice = Choice::Excluding {
    name: "delay",
    value: "TRAIN=POINT+TICKS",
    help: "Compares with the run in which the train comes to the point so many ticks later than planned",
    without: "with",
};

const WITH: Choice = Choice::Excluding {
    name: "with",
    value: "FILE",
    help: "Compares with the run of another plan or document, in a file",
    without: "delay",
};

const AT_OR_START: Choice = Choice::Value {
    name: "at",
    value: "PLACES",
    help: "The place of each train, as 1,0,2 (default: the start)",
};

// A subcommand with its options.
struct Subcommand {
    name: &'static str,
    about: &'static str,
    choices: &'static [Choice],
}

const SUBCOMMANDS: [Subcommand; 11] = [
    Subcommand {
        name: "plan",
        about: "Reads a plan (TOML) and writes its document, for `ats make`",
        choices: &[],
    },
    Subcommand {
        name: "explain",
        about: "Reads a document and explains a state, or a line of `ats`, by names",
        choices: &[AT, TABLE, RUN, LINE, PLAN],
    },
    Subcommand {
        name: "lint",
        about: "Reads a document and lists what has no effect or is likely a mistake",
        choices: &[BEFORE, PLAN],
    },
    Subcommand {
        name: "certify",
        about: "Reads a document and writes it with certificates that are found by search",
        choices: &[BUDGET, EFFORT],
    },
    Subcommand {
        name: "protect",
        about: "Reads a document and writes it with sections against states that are lost, and certificates",
        choices: &[NODES, EFFORT, ROUNDS, INTO, ENTRIES],
    },
    Subcommand {
        name: "order",
        about: "Reads a document and writes it with sections for the order that its tracks force on trains",
        choices: &[OF_RUN, JOURNAL, INTO, ENTRIES],
    },
    Subcommand {
        name: "timetable",
        about: "Reads a document, or also, after a line `journal`, what `ats sim` wrote; writes when each train arrives, leaves and waits",
        choices: &[CSV, JOURNAL, DELAY],
    },
    Subcommand {
        name: "graph",
        about: "Reads what `timetable` reads; writes a picture (SVG) of the trains over time",
        choices: &[TRAIN, JOURNAL, BLOCKS, DELAY],
    },
    Subcommand {
        name: "report",
        about: "Reads what `timetable` reads; writes a page (HTML) with the pictures and the timetable, on which the run can be played",
        choices: &[TITLE, JOURNAL, DELAY],
    },
    Subcommand {
        name: "compare",
        about: "Reads what `timetable` reads; writes which trains are earlier or later in another run, and by how much",
        choices: &[CSV, WITH, DELAYED],
    },
    Subcommand {
        name: "layout",
        about: "Reads a document and writes a picture (SVG) of its tracks, sections and trains",
        choices: &[AT_OR_START, TABLE, PLAN],
    },
];

/// The whole command.
pub(crate) fn command<'a>(alloc: Global) -> Result<Command<'a>, AllocError>
    ensures { IfOk result (IsBuiltAs spec.planner) }
{
    let subcommands: &[Subcommand] = &SUBCOMMANDS;
    let mut command = start(alloc);
    for subcommand in subcommands {
        command = with_subcommand(alloc, command, subcommand)?;
    }
    Ok(command)
}

// The command before any subcommand.
fn start<'a>(alloc: Global) -> Command<'a>
    ensures { IsBuiltAs spec.start result }
{
    Command::new(alloc, "planner")
        .version("1.17.0")
        .about(ABOUT)
        .no_binary_name(true)
        .subcommand_required(true)
        .disable_help_subcommand(true)
}

// The command with one more subcommand.
fn with_subcommand<'a>(
    alloc: Global,
    command: Command<'a>,
    subcommand: &Subcommand,
) -> Result<Command<'a>, AllocError>
    requires { IsLocal command }
    ensures { IfOk result (IsBuiltAs (with_subcommand (app_of command.entry) (spec.shape_of subcommand.now))) }
{
    command.subcommand(leaf(alloc, subcommand)?)
}

fn leaf<'a>(alloc: Global, subcommand: &Subcommand) -> Result<Command<'a>, AllocError>
    ensures { IfOk result (IsSubcommand (spec.shape_of subcommand.now)) }
{
    let mut command = Command::new(alloc, subcommand.name).about(subcommand.about);
    for choice in subcommand.choices {
        command = command.arg(option(alloc, choice)?)?;
    }
    Ok(command)
}

fn option<'a>(alloc: Global, choice: &Choice) -> Result<Arg<'a>, AllocError>
    ensures { IfOk result (λ arg. (rule_of arg ≡ spec.rule_for choice.now) × (arg.global ≡ false)) }
{
    match *choice {
        Choice::Flag { name, help } => Ok(flag(alloc, name, help)),
        Choice::ExcludingFlag {
            name,
            help,
            without,
        } => flag(alloc, name, help).conflicts_with(without),
        Choice::Value { name, value, help } => Ok(valued(alloc, name, value, help)),
        Choice::Excluding {
            name,
            value,
            help,
            without,
        } => valued(alloc, name, value, help).conflicts_with(without),
    }
}

// An option without a value.
fn flag<'a>(alloc: Global, name: &'static str, help: &'static str) -> Arg<'a>
    ensures rule { rule_of result ≡ spec.flag name.entry.now }
    ensures local { result.global ≡ false }
    ensures plain { IsPlainArg result }
{
    long_option(alloc, name, help).action(ArgAction::SetTrue)
}

// An option with one value.
fn valued<'a>(alloc: Global, name: &'static str, value: &'static str, help: &'static str) -> Arg<'a>
    ensures rule { rule_of result ≡ spec.valued name.entry.now }
    ensures local { result.global ≡ false }
    ensures plain { IsPlainArg result }
{
    long_option(alloc, name, help)
        .value_name(value)
        .action(ArgAction::Set)
}

fn long_option<'a>(alloc: Global, name: &'static str, help: &'static str) -> Arg<'a>
    ensures rule { rule_of result ≡ long_option name.entry.now }
    ensures local { result.global ≡ false }
    ensures plain { IsPlainArg result }
{
    Arg::new(alloc, name).long(name).help(help)
}
