// The words of a line: each reader takes words as one definition says, and allocates nothing.
ghost use Rattle.std.specs.Prelude.{◌≡◌, ◌≢◌, [], ◌∷◌, ◌++◌, All, MatchOption, codes};
ghost use Rattle.rail_model.specs.Names.{IsNames};
ghost use Rattle.move_journal.specs.Words as spec;

use decimal_number::number_of;
use rail_model::{Line, Names};

/// What comes before the first such byte, and what follows it.
pub(crate) fn split_once(bytes: &[u8], at: u8) -> Option<(&[u8], &[u8])>
    ensures { MatchOption result (All (λ b. b ≢ at) bytes.now)
        (λ parts. (bytes.now ≡ parts.0.now ++ at ∷ parts.1.now) × All (λ b. b ≢ at) parts.0.now) }
{
    for (i, byte) in bytes.iter().enumerate() {
        if *byte == at {
            return Some((&bytes[..i], &bytes[i + 1..]));
        }
    }
    None
}

// The first word, and what follows the space after it.
fn split_word(bytes: &[u8]) -> (&[u8], Option<&[u8]>)
    ensures { MatchOption result.1 (spec.word_list bytes.now ≡ result.0.now ∷ [])
        (λ later. spec.word_list bytes.now ≡ result.0.now ∷ spec.word_list later.now) }
{
    match split_once(bytes, b' ') {
        Some((word, later)) => (word, Some(later)),
        None => (bytes, None),
    }
}

// The only word.
fn last_word(bytes: &[u8]) -> Option<&[u8]>
    ensures { MatchOption result (spec.HasMore bytes.now) (λ word. spec.word_list bytes.now ≡ word.now ∷ []) }
{
    match split_once(bytes, b' ') {
        Some(_) => None,
        None => Some(bytes),
    }
}

// The train that is called so.
fn train_of(names: &Names, word: &[u8]) -> Option<u32>
    ensures { result ≡ spec.called names.now.trains word.now }
{
    names.train_called(word)
}

// The point that is called so.
fn point_of(names: &Names, word: &[u8]) -> Option<u32>
    ensures { result ≡ spec.called names.now.points word.now }
{
    names.point_called(word)
}

// Where a move leads: a point, or out of the layout.
#[tactic(auto, unfolding(crate::specs::Words::target_of))]
fn target_of(names: &Names, word: &[u8]) -> Option<Option<u32>>
    ensures { result ≡ spec.target_of names.now word.now }
{
    if word == b"-".as_slice() {
        return Some(None);
    }
    let point = point_of(names, word)?;
    Some(Some(point))
}

// The words after `move`.
#[tactic(auto, unfolding(crate::specs::Words::move_of))]
fn move_of(names: &Names, rest: &[u8]) -> Option<Line>
    ensures { result ≡ spec.move_of names.now (spec.word_list rest.now) }
{
    let (train, rest) = split_word(rest);
    let (from, rest) = split_word(rest?);
    let to = last_word(rest?)?;
    let train = train_of(names, train)?;
    let from = point_of(names, from)?;
    let to = target_of(names, to)?;
    Some(Line::Move { train, from, to })
}

// The word after `table`.
#[tactic(auto, unfolding(crate::specs::Words::table_of))]
fn table_of(rest: &[u8]) -> Option<Line>
    ensures { result ≡ spec.table_of (spec.word_list rest.now) }
{
    let table = last_word(rest)?;
    let table = number_of(table)?;
    Some(Line::Table { table })
}

// The words after `differs`.
#[tactic(auto, unfolding(crate::specs::Words::differs_of))]
fn differs_of(names: &Names, table: u32, rest: &[u8]) -> Option<Line>
    ensures { result ≡ spec.differs_of names.now table (spec.word_list rest.now) }
{
    let (train, rest) = split_word(rest);
    let place = last_word(rest?)?;
    let train = train_of(names, train)?;
    let place = number_of(place)?;
    Some(Line::KeptDiffers {
        table,
        train,
        place,
    })
}

// The words after `over`.
#[tactic(auto, unfolding(crate::specs::Words::over_of))]
fn over_of(table: u32, rest: &[u8]) -> Option<Line>
    ensures { result ≡ spec.over_of table (spec.word_list rest.now) }
{
    let (section, rest) = split_word(rest);
    let count = last_word(rest?)?;
    let section = number_of(section)?;
    let count = number_of(count)?;
    Some(Line::KeptOver {
        table,
        section,
        count,
    })
}

// The words after `kept`.
#[tactic(auto, using(crate::proofs::Alone::kept_alone), unfolding(crate::specs::Words::kept_of))]
fn kept_of(names: &Names, rest: &[u8]) -> Option<Line>
    ensures { result ≡ spec.kept_of names.now (spec.word_list rest.now) }
{
    let (table, rest) = split_word(rest);
    let (kind, rest) = split_word(rest?);
    let rest = rest?;
    let table = number_of(table)?;
    if kind == b"differs".as_slice() {
        differs_of(names, table, rest)
    } else if kind == b"over".as_slice() {
        over_of(table, rest)
    } else {
        None
    }
}

// The words after a line's number.
#[tactic(auto, using(crate::proofs::Alone::line_alone), unfolding(crate::specs::Words::line_of))]
fn line_of(names: &Names, rest: &[u8]) -> Option<Line>
    ensures { result ≡ spec.line_of names.now (spec.word_list rest.now) }
{
    let (kind, rest) = split_word(rest);
    let rest = rest?;
    if kind == b"move".as_slice() {
        move_of(names, rest)
    } else if kind == b"table".as_slice() {
        table_of(rest)
    } else if kind == b"kept".as_slice() {
        kept_of(names, rest)
    } else {
        None
    }
}

/// The number and the line that the words are.
#[tactic(auto, using(crate::proofs::Alone::number_alone), unfolding(crate::specs::Words::numbered_of))]
pub(crate) fn numbered_of(names: &Names, content: &[u8]) -> Option<(u32, Line)>
    ensures { result ≡ spec.numbered_of names.now (spec.word_list content.now) }
{
    let (number, rest) = split_word(content);
    let rest = rest?;
    let number = number_of(number)?;
    let line = line_of(names, rest)?;
    Some((number, line))
}

// The number after a name such as `moves=`.
#[tactic(auto, unfolding(crate::specs::Words::field_of))]
fn field_of(name: &[u8], word: &[u8]) -> Option<u32>
    ensures { result ≡ spec.field_of name.now word.now }
{
    let digits = word.strip_prefix(name)?;
    number_of(digits)
}

/// The two counts of an end line.
#[tactic(auto, unfolding(crate::specs::Words::end_of))]
pub(crate) fn end_of(content: &[u8]) -> Option<(u32, u32)>
    ensures { result ≡ spec.end_of (spec.word_list content.now) }
{
    let (kind, rest) = split_word(content);
    let (moves, rest) = split_word(rest?);
    let tables = last_word(rest?)?;
    if kind != b"end".as_slice() {
        return None;
    }
    let moves = field_of(b"moves=".as_slice(), moves)?;
    let tables = field_of(b"tables=".as_slice(), tables)?;
    Some((moves, tables))
}
