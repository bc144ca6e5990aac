// The maker of sections.
ghost use Rattle.std.specs.Prelude.{◌≡◌, ◌≤◌, ◌<◌, [], ◌∷◌, None, length};
ghost use Rattle.std.specs.Result.{result_err};
ghost use Rattle.rail_model.specs.Turns.{first_of};
ghost use Rattle.section_marks.specs.Marking.{too_many, bad_limit, bad_count, list_too_many, places, changes_of, length_refusal, count_refusal, share_refusal, section_refusal, each_refusal, sections_refusal, table_from};

use crate::shares::check_train;
use crate::{MarkRefused, Marks};
use rail_model::{Changes, Missions, Section, Table};

// The most sections of a table.
const MOST_SECTIONS: usize = 64;

/// The missions with these sections: for each a limit, and for each train one change per place. It takes no memory.
///
/// # Errors
///
/// The first thing wrong with the sections: their number, then section by section the limit, the numbers of changes, and train by
/// train and place by place the change and the share. The missions are dropped then.
pub fn sections(
    missions: Missions,
    sections: Vec<Section>,
    marks: Marks,
) -> Result<Table, MarkRefused>
    ensures { result ≡ table_from marks missions sections.items }
{
    check_sections(&missions, marks, &sections)?;
    let connections = Vec::new(*sections.allocator());
    Ok(Table::new(missions, sections, connections))
}

fn check_sections(
    missions: &Missions,
    marks: Marks,
    sections: &[Section],
) -> Result<(), MarkRefused>
    ensures { result_err result ≡ sections_refusal marks missions.now sections.now }
{
    check_count(sections.len())?;
    check_each(missions, marks, sections)
}

fn check_count(count: usize) -> Result<(), MarkRefused>
    ensures { result_err result ≡ too_many count }
{
    if count > MOST_SECTIONS {
        return Err(MarkRefused::TooMany { count });
    }
    Ok(())
}

fn check_each(missions: &Missions, marks: Marks, sections: &[Section]) -> Result<(), MarkRefused>
    requires { length sections.now ≤ 64 }
    ensures { result_err result ≡ each_refusal marks missions.now sections.now }
{
    for (number, section) in sections.iter().enumerate() {
        check_section(missions, marks, number as u32, section)?;
    }
    Ok(())
}

fn check_section(
    missions: &Missions,
    marks: Marks,
    number: u32,
    section: &Section,
) -> Result<(), MarkRefused>
    ensures { result_err result ≡ section_refusal marks missions.now number section.now }
{
    check_limit(marks, number, section.limit())?;
    check_counts(missions, number, section.all_changes())?;
    check_shares(missions, marks, number, section.all_changes())
}

fn check_limit(marks: Marks, section: u32, value: u32) -> Result<(), MarkRefused>
    ensures { result_err result ≡ bad_limit marks section value }
{
    if value > marks.most_limit() {
        return Err(MarkRefused::Limit { section, value });
    }
    Ok(())
}

fn check_counts(missions: &Missions, section: u32, changes: &[Changes]) -> Result<(), MarkRefused>
    ensures { result_err result ≡ count_refusal missions.now section changes.now }
{
    let trains = missions.len() as u32;
    check_lengths(missions, section, changes)?;
    if changes.len() > trains as usize {
        return Err(MarkRefused::Count {
            section,
            train: trains,
        });
    }
    Ok(())
}

fn check_lengths(missions: &Missions, section: u32, changes: &[Changes]) -> Result<(), MarkRefused>
    ensures { result_err result ≡ length_refusal missions.now section changes.now }
{
    for train in 0..missions.len() as u32 {
        if changes_of(changes, train).len() != places(missions, train) {
            return Err(MarkRefused::Count { section, train });
        }
    }
    Ok(())
}

// How many places a train has.
fn places(missions: &Missions, train: u32) -> usize
    requires { train < length missions.now }
    ensures { result ≡ places missions.now train }
{
    // This read gives the proof that a train has at most 127 places.
    let _trains = missions.len();
    let mission = missions.mission(train);
    if mission.exits() {
        mission.points() + 1
    } else {
        mission.points()
    }
}

// The changes of a train, none where there is no list.
fn changes_of(changes: &[Changes], train: u32) -> &[i32]
    ensures { result.now ≡ changes_of changes.now train }
{
    match changes.get(train as usize) {
        Some(list) => list.as_slice(),
        None => &[],
    }
}

fn check_shares(
    missions: &Missions,
    marks: Marks,
    section: u32,
    changes: &[Changes],
) -> Result<(), MarkRefused>
    requires { count_refusal missions.now section changes.now ≡ None }
    ensures { result_err result ≡ share_refusal marks missions.now section changes.now }
{
    for train in 0..missions.len() as u32 {
        check_train(marks, section, train, changes_of(changes, train))?;
    }
    Ok(())
}
