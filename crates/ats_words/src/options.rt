// The options of the command line, and the number of each, of what clap found.
ghost use Rattle.std.specs.Prelude.{◌≡◌, ◌≤◌, IfSome};
ghost use Rattle.clap.specs.Words.{found_of, rows_of};
ghost use Rattle.ats_words.specs.Options as spec;

use clap::ArgMatches;
use decimal_number::number_of;

/// An option: its name, the numbers from `least` to `greatest` that it takes, and the one that it has where it isn't given.
#[derive(Clone, Copy)]
pub struct NumberOption {
    pub name: &'static str,
    pub least: u32,
    pub greatest: u32,
    pub default: u32,
}

pub(crate) const WORKERS: NumberOption = NumberOption {
    name: "workers",
    least: 0,
    greatest: 16,
    default: 0,
};

pub(crate) const ROUNDS: NumberOption = NumberOption {
    name: "rounds",
    least: 0,
    greatest: 1_000_000,
    default: 1000,
};

pub(crate) const BLOCK: NumberOption = NumberOption {
    name: "block",
    least: 1,
    greatest: 4,
    default: 1,
};

pub(crate) const STEPS: NumberOption = NumberOption {
    name: "steps",
    least: 0,
    greatest: 1_000_000,
    default: 0,
};

/// How many nodes a certificate has at most.
pub const BUDGET: NumberOption = NumberOption {
    name: "budget",
    least: 1,
    greatest: 1_000_000,
    default: 1_000_000,
};

pub(crate) const MOST: NumberOption = NumberOption {
    name: "most",
    least: 2,
    greatest: 8,
    default: 2,
};

pub(crate) const REPAIR_ROUNDS: NumberOption = NumberOption {
    name: "rounds",
    least: 0,
    greatest: 10_000,
    default: 1000,
};

pub(crate) const SEED: NumberOption = NumberOption {
    name: "seed",
    least: 0,
    greatest: u32::MAX,
    default: 0,
};

pub(crate) const TRAINS: NumberOption = NumberOption {
    name: "trains",
    least: 0,
    greatest: 32,
    default: 2,
};

/// The number of the option, or its default where it isn't given; none where what is given is no number in its range.
pub fn number(matches: &ArgMatches<'_>, option: &NumberOption) -> Option<u32>
    requires not_low { option.now.least ≤ option.now.default }
    requires not_high { option.now.default ≤ option.now.greatest }
    ensures exact { result ≡ spec.number (spec.of option.now) (rows_of (found_of matches.now)) }
    ensures within { IfSome result (spec.TakesNumber (spec.of option.now)) }
{
    match matches.get_str(option.name) {
        Some(text) => number_between(option.least, option.greatest, text),
        None => Some(option.default),
    }
}

fn number_between(least: u32, greatest: u32, text: &str) -> Option<u32>
    ensures exact { result ≡ spec.number_between least greatest text.now }
    ensures within { IfSome result (λ n. (least ≤ n) × (n ≤ greatest)) }
{
    let number = number_of(text.as_bytes())?;
    if least <= number && number <= greatest {
        Some(number)
    } else {
        None
    }
}
