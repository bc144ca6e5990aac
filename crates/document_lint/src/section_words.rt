// The words of what is so of sections.
ghost use Rattle.std.specs.Prelude.{◌<◌, ◌≤◌, length};
ghost use Rattle.rail_model.specs.Table.{trains, last};

use crate::member_words::say_shares;
use crate::subject::Subject;
use crate::text::Text;
use document_facts::{Fact, count_at_end, end_share, most, most_together};
use rail_model::{last_of, limit_of, sections_of, share_at, trains_of};
use state_sentences::push_section;

// Where a train first has more of a section than a limit.
fn first_above<'a>(subject: &Subject<'a>, section: u32, train: u32, limit: i32) -> &'a str
    requires section { section < length subject.now.table.now.sections }
    requires train { train < trains subject.now.table.now }
{
    for place in 0..=last_of(subject.table, train) {
        if limit < share_at(subject.table, train, section, place) {
            return subject.point(train, place);
        }
    }
    ""
}

// Adds that a train alone overfills a section.
fn say_overfilled(words: &mut Text, subject: &Subject, section: u32, train: u32)
    requires section { section < length subject.now.table.now.sections }
    requires train { train < trains subject.now.table.now }
{
    let limit = limit_of(subject.table, section);
    let name = subject.train(train);
    words.say_name("", name, " alone has more of it at ");
    words.say(first_above(subject, section, train, limit as i32));
    words.say_number(" than its limit ", u64::from(limit), ", so ");
    words.say_name("", name, " can never come there");
}

// Adds that a train still has a share of a section after its exit.
fn say_kept(words: &mut Text, subject: &Subject, section: u32, train: u32)
    requires section { section < length subject.now.table.now.sections }
    requires train { train < trains subject.now.table.now }
{
    words.say_name("", subject.train(train), " keeps ");
    words.say_share(
        "",
        end_share(subject.table, section, train),
        " of it after it has left the layout",
    );
}

// Adds that a train's changes of a section look like shares.
fn say_like_shares(words: &mut Text, subject: &Subject, section: u32, train: u32)
    requires section { section < length subject.now.table.now.sections }
    requires train { train < trains subject.now.table.now }
{
    let changes = subject.table.sections()[section as usize].changes(train);
    say_shares(words, changes.as_slice());
}

// Adds what is so of a train's shares of a section.
fn say_of_train(words: &mut Text, subject: &Subject, section: u32, train: u32, fact: Fact)
    requires { section < length subject.now.table.now.sections }
{
    if !subject.has_train(train) {
        return;
    }
    match fact {
        Fact::Overfilled { .. } => say_overfilled(words, subject, section, train),
        Fact::KeptForGood { .. } => say_kept(words, subject, section, train),
        _ => say_like_shares(words, subject, section, train),
    }
}

// Adds that all trains at their ends overfill a section.
fn say_overfull(words: &mut Text, subject: &Subject, section: u32)
    requires { section < length subject.now.table.now.sections }
{
    words.say_share(
        "at their last places the trains have ",
        count_at_end(subject.table, section),
        " of it together, ",
    );
    words.say_number(
        "above its limit ",
        u64::from(limit_of(subject.table, section)),
        ": they can never all arrive",
    );
}

// Adds that a section never keeps a train out.
fn say_idle(words: &mut Text, subject: &Subject, section: u32)
    requires { section < length subject.now.table.now.sections }
{
    words.say_share(
        "never binds: all trains together have at most ",
        most_together(subject.table, section),
        " of it, ",
    );
    words.say_number(
        "and its limit is ",
        u64::from(limit_of(subject.table, section)),
        "",
    );
}

// Adds what is so of a section, and of a train there.
fn say_of_section(words: &mut Text, subject: &Subject, section: u32, fact: Fact)
    requires { section < length subject.now.table.now.sections }
{
    match fact {
        Fact::SectionUnused { .. } => {
            words.say("no train ever has a share of it, so it has no effect")
        }
        Fact::SectionIdle { .. } => say_idle(words, subject, section),
        Fact::SectionRepeated { earlier, .. } => {
            words.say_number("the same as sections[", u64::from(earlier), "]")
        }
        Fact::OverfullAtEnd { .. } => say_overfull(words, subject, section),
        Fact::Overfilled { train, .. }
        | Fact::KeptForGood { train, .. }
        | Fact::LikeShares { train, .. } => say_of_train(words, subject, section, train, fact),
        _ => {}
    }
}

// Whether a section has a name.
fn is_named(names: &[String], section: u32) -> bool {
    match names.get(section as usize) {
        Some(name) => !name.is_empty(),
        None => false,
    }
}

/// Adds what is so of a section of a table, where the sections have these names: first its name, if it has one.
pub(crate) fn say_section(
    words: &mut Text,
    subject: &Subject,
    names: &[String],
    section: u32,
    fact: Fact,
) {
    if sections_of(subject.table) <= section {
        return;
    }
    if is_named(names, section) {
        let written = push_section(&mut words.words, names, section);
        words.note(written);
        words.say(": ");
    }
    say_of_section(words, subject, section, fact);
}

// Adds a share, if it isn't 1.
fn say_share(words: &mut Text, share: i32) {
    if share != 1 {
        words.say_share(" (", share, ")");
    }
}

// Adds where a train has a share of a section, with the share if it isn't 1.
fn say_place(words: &mut Text, subject: &Subject, section: u32, train: u32, place: u32)
    requires section { section < length subject.now.table.now.sections }
    requires train { train < trains subject.now.table.now }
    requires place { place ≤ last subject.now.table.now train }
{
    let share = share_at(subject.table, train, section, place);
    if share != 0 {
        words.say_name(" ", subject.point(train, place), "");
        say_share(words, share);
    }
}

// Adds where a train has shares of a section, if it has any.
fn say_train(words: &mut Text, subject: &Subject, section: u32, train: u32)
    requires section { section < length subject.now.table.now.sections }
    requires train { train < trains subject.now.table.now }
{
    if most(subject.table, section, train) == 0 {
        return;
    }
    words.say_name(", ", subject.train(train), " at");
    for place in 0..=last_of(subject.table, train) {
        say_place(words, subject, section, train, place);
    }
}

/// Adds that a section of the former document is gone.
pub(crate) fn say_gone(words: &mut Text, former: &Subject, section: u32) {
    if sections_of(former.table) <= section {
        return;
    }
    words.say_number(
        "gone: limit ",
        u64::from(limit_of(former.table, section)),
        "",
    );
    for train in 0..trains_of(former.table) {
        say_train(words, former, section, train);
    }
}
