// What each verb asks for.
ghost use Rattle.std.specs.Prelude.{◌≡◌, option_map};
ghost use Rattle.std.specs.List.{find};
ghost use Rattle.std.specs.Str.{bytes_eq};
ghost use Rattle.live_lines.specs.Verbs as spec;
ghost use Rattle.move_journal.specs.Words.{word_list};

use crate::words::{
    Named, last_word, number_word, only_number, only_train, split_word, train_and_place, train_word,
};
use crate::{Call, Fault};
use live_yard::Request;
use rail_model::Names;

// The word before the others.
#[derive(Clone, Copy)]
pub(crate) enum Verb {
    Ask,
    Want,
    Drop,
    Can,
    At,
    Why,
    State,
    Table,
    Fits,
    Since,
    Ping,
    Hello,
    Help,
    Quit,
}

// Each verb by its word.
const VERBS: [(&str, Verb); 14] = [
    ("ask", Verb::Ask),
    ("want", Verb::Want),
    ("drop", Verb::Drop),
    ("can", Verb::Can),
    ("at", Verb::At),
    ("why", Verb::Why),
    ("state", Verb::State),
    ("table", Verb::Table),
    ("fits", Verb::Fits),
    ("since", Verb::Since),
    ("ping", Verb::Ping),
    ("hello", Verb::Hello),
    ("help", Verb::Help),
    ("quit", Verb::Quit),
];

// The verb of the first row with this word.
fn row_of(rows: &[(&str, Verb)], word: &[u8]) -> Option<Verb>
    ensures { result ≡ option_map (λ row. row.1) (find (λ row. bytes_eq row.0.now word.now) rows.now) }
{
    let (_, verb) = rows.iter().find(|&&(name, _)| name.as_bytes() == word)?;
    Some(*verb)
}

// The verb that a word is.
fn verb_of(word: &[u8]) -> Result<Verb, Fault>
    ensures { result ≡ spec.verb_of word.now }
{
    row_of(&VERBS, word).ok_or(Fault::Verb)
}

// A verb without words after it.
fn alone(verb: Verb) -> Result<Call, Fault>
    ensures { result ≡ spec.alone verb }
{
    match verb {
        Verb::State => Ok(Call::State),
        Verb::Table => Ok(Call::Serve {
            request: Request::Table { table: None },
        }),
        Verb::Fits => Ok(Call::Fits),
        Verb::Ping => Ok(Call::Ping),
        Verb::Hello => Ok(Call::Hello),
        Verb::Help => Ok(Call::Help),
        Verb::Quit => Ok(Call::Quit),
        _ => Err(Fault::Words),
    }
}

// The train after `can`, or `*` for each.
#[tactic(auto, unfolding(crate::specs::Verbs::can_of))]
fn can_of(names: &Names, rest: &[u8]) -> Result<Call, Fault>
    ensures { result ≡ spec.can_of names.now (word_list rest.now) }
{
    let word = last_word(rest).ok_or(Fault::Words)?;
    if word == b"*".as_slice() {
        return Ok(Call::Can { train: None });
    }
    let train = train_word(names, word)?;
    Ok(Call::Can { train: Some(train) })
}

// A train and a place after `at`.
#[tactic(auto, unfolding(crate::specs::Verbs::at_of))]
fn at_of(names: &Names, reports: bool, rest: &[u8]) -> Result<Call, Fault>
    ensures { result ≡ spec.at_of names.now reports (word_list rest.now) }
{
    let (train, later) = split_word(rest);
    let place = last_word(later.ok_or(Fault::Words)?).ok_or(Fault::Words)?;
    if !reports {
        return Err(Fault::Reports);
    }
    let train = train_word(names, train)?;
    let place = number_word(place)?;
    Ok(Call::Serve {
        request: Request::At { train, place },
    })
}

// The table after `table`.
fn table_of(rest: &[u8]) -> Result<Call, Fault>
    ensures { result ≡ spec.table_of (word_list rest.now) }
{
    let table = only_number(rest)?;
    Ok(Call::Serve {
        request: Request::Table { table: Some(table) },
    })
}

// The train and the place after `ask`.
fn ask_of(names: &Names, rest: &[u8]) -> Result<Call, Fault>
    ensures { result ≡ spec.ask_of names.now (word_list rest.now) }
{
    let Named { train, place } = train_and_place(names, rest)?;
    Ok(Call::Serve {
        request: Request::Ask { train, place },
    })
}

// The train and the place after `want`.
fn want_of(names: &Names, rest: &[u8]) -> Result<Call, Fault>
    ensures { result ≡ spec.want_of names.now (word_list rest.now) }
{
    let Named { train, place } = train_and_place(names, rest)?;
    Ok(Call::Serve {
        request: Request::Want { train, place },
    })
}

// A verb with words after it.
fn followed(names: &Names, reports: bool, verb: Verb, rest: &[u8]) -> Result<Call, Fault>
    ensures { result ≡ spec.followed names.now reports verb (word_list rest.now) }
{
    match verb {
        Verb::Ask => ask_of(names, rest),
        Verb::Want => want_of(names, rest),
        Verb::Drop => {
            let train = only_train(names, rest)?;
            Ok(Call::Serve {
                request: Request::Drop { train },
            })
        }
        Verb::Can => can_of(names, rest),
        Verb::At => at_of(names, reports, rest),
        Verb::Why => {
            let train = only_train(names, rest)?;
            Ok(Call::Why { train })
        }
        Verb::Table => table_of(rest),
        Verb::Since => {
            let line = only_number(rest)?;
            Ok(Call::Since { line })
        }
        _ => Err(Fault::Words),
    }
}

/// What the words of a line ask for, after its tag.
#[tactic(auto, using(crate::proofs::WordCounts::call_followed), unfolding(crate::specs::Verbs::call_of))]
pub(crate) fn call_of(names: &Names, reports: bool, bytes: &[u8]) -> Result<Call, Fault>
    ensures { result ≡ spec.call_of names.now reports (word_list bytes.now) }
{
    let (word, rest) = split_word(bytes);
    let verb = verb_of(word)?;
    match rest {
        Some(rest) => followed(names, reports, verb, rest),
        None => alone(verb),
    }
}
