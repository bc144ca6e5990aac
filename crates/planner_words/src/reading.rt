// Reading the words.
ghost use Rattle.std.specs.Prelude.{◌≡◌, IfErr, IfNone, IfOk, IfSome, IsSomeAnd, Some, codes, map, string_bytes, true};
ghost use Rattle.clap.specs.Words.{first_of, found_of, rows_of, subcommand_of, subcommand_rows_of, takes};
ghost use Rattle.planner_words.specs.Answered.{MissesNone};
ghost use Rattle.planner_words.specs.Line.{planner};
ghost use Rattle.planner_words.specs.Named.{AsksFor, IsAsked, IsEffort, IsOutput, is_up, table_in, title_in, word_of};
ghost use Rattle.planner_words.specs.declared.orders.Effort as declared;
ghost use Rattle.planner_words.specs.declared.orders.Output as declared_output;

use crate::asking::command;
use crate::{Effort, Order, Output, WordsAnswered};
use ats_words::{BUDGET, NumberOption, answer_to, number};
use clap::ArgMatches;
use decimal_number::number_of;
use std::alloc::Global;

const NO_COMMAND: &str = "planner: no such command\n";

const NO_BUDGET: &str = "planner certify: --budget takes a number of nodes, 1 to 1000000\n";

const NO_EFFORT: &str = "planner certify: --effort takes small, usual or great\n";

const NO_NODES: &str = "planner protect: --budget takes a number of nodes, 1 to 1000000\n";

const NO_ROUNDS: &str = "planner protect: --rounds takes a number of rounds, 0 to 1000\n";

const NO_SEARCHES: &str = "planner protect: --effort takes small, usual or great\n";

const NO_SEED: &str = "planner order: --of-run takes a number, 0 to 4294967295\n";

const NO_RUN: &str = "planner order: --journal goes with --of-run\n";

const TWO_OUTPUTS: &str = "planner order: --into doesn't go with --entries\n";

const TWO_PROTECTED: &str = "planner protect: --into doesn't go with --entries\n";

const NO_OTHER_RUN: &str = "planner compare: it takes --with FILE or --delay TRAIN=POINT+TICKS\n";

// The most nodes of a certificate that `protect` looks for.
const NODES: NumberOption = NumberOption {
    name: "budget",
    least: 1,
    greatest: 1_000_000,
    default: 50_000,
};

// The most sections that `protect` makes for a table.
const ROUNDS: NumberOption = NumberOption {
    name: "rounds",
    least: 0,
    greatest: 1000,
    default: 100,
};

/// What the words after the program's name ask for.
///
/// # Errors
///
/// A text to show, for help and the version; a text that says what is wrong with the words; out of memory.
pub fn words<'a>(alloc: Global, words: &'a [String]) -> Result<Order<'a>, WordsAnswered>
    ensures asked { IfOk result (IsAsked (map string_bytes words.now)) }
    // Words that clap takes, and that ask for an order, get it if there is memory.
    ensures answered { takes planner (map string_bytes words.now) ≡ true
        → IfErr result (MissesNone (subcommand_of planner (map string_bytes words.now))) }
{
    let Ok(command) = command(alloc) else {
        return Err(WordsAnswered::Memory);
    };
    match command.try_get_matches_from(words) {
        Ok(matches) => order_of(alloc, &matches),
        Err(error) => Err(answer_to(alloc, &error)),
    }
}

fn order_of<'a>(alloc: Global, matches: &ArgMatches<'a>) -> Result<Order<'a>, WordsAnswered>
    ensures asked { IfOk result (λ order. IsSomeAnd (subcommand_rows_of matches.now) (AsksFor order)) }
    ensures answered { IfErr result (MissesNone (subcommand_rows_of matches.now)) }
{
    match matches.subcommand() {
        Some((name, inner)) => order_called(alloc, name, inner),
        None => refused(alloc, NO_COMMAND),
    }
}

// Words that are refused, with what is wrong.
fn refused<'a>(alloc: Global, words: &str) -> Result<Order<'a>, WordsAnswered>
    ensures { IfOk result (λ order. ⊥) }
{
    match String::from_str(alloc, words) {
        Ok(text) => Err(WordsAnswered::Refused(text)),
        Err(_) => Err(WordsAnswered::Memory),
    }
}

fn order_called<'a>(
    alloc: Global,
    name: &str,
    matches: &ArgMatches<'a>,
) -> Result<Order<'a>, WordsAnswered>
    ensures asked { IfOk result (λ order. AsksFor order (name.now, rows_of (found_of matches.now))) }
    ensures answered { IfErr result (MissesNone (Some (name.now, rows_of (found_of matches.now)))) }
{
    match name {
        "plan" => Ok(Order::Plan),
        "explain" => explain(alloc, matches),
        "lint" => Ok(Order::Lint {
            before: matches.get_str("before"),
            plan: matches.get_str("plan"),
        }),
        "certify" => certify(alloc, matches),
        "protect" => protect(alloc, matches),
        "order" => order_by(alloc, matches),
        "timetable" => Ok(Order::Timetable {
            csv: matches.get_flag("csv"),
            journal: matches.get_str("journal"),
            delay: matches.get_str("delay"),
        }),
        "graph" => Ok(Order::Graph {
            train: matches.get_str("train"),
            journal: matches.get_str("journal"),
            blocks: matches.get_flag("blocks"),
            delay: matches.get_str("delay"),
        }),
        "report" => Ok(Order::Report {
            title: title_in(matches),
            journal: matches.get_str("journal"),
            delay: matches.get_str("delay"),
        }),
        "compare" => compare(alloc, matches),
        "layout" => Ok(Order::Layout {
            table: table_in(matches),
            at: matches.get_str("at"),
            plan: matches.get_str("plan"),
        }),
        _ => refused(alloc, NO_COMMAND),
    }
}

// The table that is named, as it was written, or the first one.
fn table_in<'a>(matches: &ArgMatches<'a>) -> &'a str
    ensures { result.now ≡ table_in (rows_of (found_of matches.now)) }
{
    matches.get_str("table").unwrap_or("0")
}

// The title that is named, or a plain one.
fn title_in<'a>(matches: &ArgMatches<'a>) -> &'a str
    ensures { result.now ≡ title_in (rows_of (found_of matches.now)) }
{
    matches.get_str("title").unwrap_or("Report")
}

fn certify<'a>(alloc: Global, matches: &ArgMatches<'a>) -> Result<Order<'a>, WordsAnswered>
    ensures asked { IfOk result (λ order. AsksFor order (codes "certify", rows_of (found_of matches.now))) }
    ensures answered { IfErr result (MissesNone (Some (codes "certify", rows_of (found_of matches.now)))) }
{
    let Some(budget) = number(matches, &BUDGET) else {
        return refused(alloc, NO_BUDGET);
    };
    match effort_in(matches) {
        Some(effort) => Ok(Order::Certify { budget, effort }),
        None => refused(alloc, NO_EFFORT),
    }
}

fn protect<'a>(alloc: Global, matches: &ArgMatches<'a>) -> Result<Order<'a>, WordsAnswered>
    ensures asked { IfOk result (λ order. AsksFor order (codes "protect", rows_of (found_of matches.now))) }
    ensures answered { IfErr result (MissesNone (Some (codes "protect", rows_of (found_of matches.now)))) }
{
    let Some(budget) = number(matches, &NODES) else {
        return refused(alloc, NO_NODES);
    };
    let Some(rounds) = number(matches, &ROUNDS) else {
        return refused(alloc, NO_ROUNDS);
    };
    let Some(output) = output_in(matches) else {
        return refused(alloc, TWO_PROTECTED);
    };
    match effort_in(matches) {
        Some(effort) => Ok(Order::Protect {
            budget,
            effort,
            rounds,
            output,
        }),
        None => refused(alloc, NO_SEARCHES),
    }
}

// Whether a flag is up.
fn is_up(matches: &ArgMatches<'_>, flag: &str) -> bool
    ensures { result ≡ is_up flag.now (rows_of (found_of matches.now)) }
{
    match matches.get_str(flag) {
        Some(word) => word == "true",
        None => false,
    }
}

// What is to be written of sections that are added, unless two things are.
fn output_in(matches: &ArgMatches<'_>) -> Option<Output>
    ensures named { IfSome result (IsOutput (rows_of (found_of matches.now))) }
    ensures unnamed { IfNone result ((output : declared_output.Output) → IsOutput (rows_of (found_of matches.now)) output → ⊥) }
{
    match (is_up(matches, "into"), is_up(matches, "entries")) {
        (false, false) => Some(Output::Document),
        (true, false) => Some(Output::Plan),
        (false, true) => Some(Output::Entries),
        (true, true) => None,
    }
}

// The effort that is named, or the usual one.
fn effort_in(matches: &ArgMatches<'_>) -> Option<Effort>
    ensures named { IfSome result (IsEffort (first_of (codes "effort") (rows_of (found_of matches.now)))) }
    ensures unnamed { IfNone result ((effort : declared.Effort) → IsEffort (first_of (codes "effort") (rows_of (found_of matches.now))) effort → ⊥) }
{
    match matches.get_str("effort") {
        Some(word) => effort_called(word),
        None => Some(Effort::Usual),
    }
}

fn effort_called(word: &str) -> Option<Effort>
    ensures named { IfSome result (λ effort. word.now ≡ word_of effort) }
    ensures unnamed { IfNone result ((effort : declared.Effort) → word.now ≡ word_of effort → ⊥) }
{
    match word {
        "small" => Some(Effort::Small),
        "usual" => Some(Effort::Usual),
        "great" => Some(Effort::Great),
        _ => None,
    }
}

fn order_by<'a>(alloc: Global, matches: &ArgMatches<'a>) -> Result<Order<'a>, WordsAnswered>
    ensures asked { IfOk result (λ order. AsksFor order (codes "order", rows_of (found_of matches.now))) }
    ensures answered { IfErr result (MissesNone (Some (codes "order", rows_of (found_of matches.now)))) }
{
    let Some(output) = output_in(matches) else {
        return refused(alloc, TWO_OUTPUTS);
    };
    match (matches.get_str("of-run"), matches.get_str("journal")) {
        (Some(text), journal) => match number_of(text.as_bytes()) {
            Some(seed) => Ok(Order::OrderByRun {
                seed,
                journal,
                output,
            }),
            None => refused(alloc, NO_SEED),
        },
        (None, None) => Ok(Order::AddOrders { output }),
        (None, Some(_)) => refused(alloc, NO_RUN),
    }
}

fn explain<'a>(alloc: Global, matches: &ArgMatches<'a>) -> Result<Order<'a>, WordsAnswered>
    ensures asked { IfOk result (λ order. AsksFor order (codes "explain", rows_of (found_of matches.now))) }
    ensures answered { IfErr result (MissesNone (Some (codes "explain", rows_of (found_of matches.now)))) }
{
    match (matches.get_str("at"), matches.get_str("line")) {
        (Some(at), _) => Ok(Order::ExplainState {
            table: table_in(matches),
            at,
            run: matches.get_flag("run"),
            plan: matches.get_str("plan"),
        }),
        (None, Some(line)) => Ok(Order::ExplainLine {
            line,
            plan: matches.get_str("plan"),
        }),
        (None, None) => refused(
            alloc,
            "planner explain: it takes --at PLACES or --line LINE\n",
        ),
    }
}

fn compare<'a>(alloc: Global, matches: &ArgMatches<'a>) -> Result<Order<'a>, WordsAnswered>
    ensures asked { IfOk result (λ order. AsksFor order (codes "compare", rows_of (found_of matches.now))) }
    ensures answered { IfErr result (MissesNone (Some (codes "compare", rows_of (found_of matches.now)))) }
{
    match (matches.get_str("with"), matches.get_str("delay")) {
        (Some(other), _) => Ok(Order::CompareWith {
            csv: matches.get_flag("csv"),
            other,
        }),
        (None, Some(delay)) => Ok(Order::CompareDelayed {
            csv: matches.get_flag("csv"),
            delay,
        }),
        (None, None) => refused(alloc, NO_OTHER_RUN),
    }
}
