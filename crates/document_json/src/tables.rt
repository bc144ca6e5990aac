// The tables of a document, made of their members.
ghost use Rattle.std.specs.Prelude.{◌≡◌, ◌<◌, ℕ, [], None, All, IfOk, OnOk, length, map, option_map, unwrap_or};
ghost use Rattle.rail_model.specs.Table.{IsTable, trains};
ghost use Rattle.rail_model.specs.Turns.{AnswersAs, in_turn, unless};
ghost use Rattle.mission_table.specs.Seen.{ways_seen};
ghost use Rattle.mission_table.specs.Ways.{missions_from};
ghost use Rattle.section_marks.specs.Connecting.{connected};
ghost use Rattle.section_marks.specs.Marking.{table_from};
ghost use Rattle.document_shapes.specs.Each.{each_from};
ghost use Rattle.document_shapes.specs.Seen.{seen_table};
ghost use Rattle.document_json.specs.Keeps.{timed, with_times};
ghost use Rattle.document_json.specs.Tables.{refused_as, marks_of, exits_or_none, times_or_one, after_refusal, times_refusal, doc_table_of};

use crate::DocRefused;
use crate::checks::{check_after, check_times};
use crate::doc::Untimed;
use document_shapes::TableMembers;
use mission_table::{MissionRefused, Trains, missions};
use rail_model::{
    Connection, Layout, Missions, Section, Table, TableTimes, TrainTimes, last_of, trains_of,
};
use section_marks::{Marks, connections, sections};
use std::alloc::{AllocError, Global};

// Which trains leave the layout; missing exits are all false.
fn exits_or(alloc: Global, trains: usize, exits: Option<Vec<bool>>) -> Result<Vec<bool>, AllocError>
    ensures { IfOk result (λ v. v.items ≡ exits_or_none trains (option_map (λ e. e.items) exits)) }
{
    match exits {
        Some(exits) => Ok(exits),
        None => vec![in alloc; false; trains],
    }
}

// The missions of a table.
fn made_missions(
    alloc: Global,
    number: usize,
    layout: &Layout,
    trains: &Trains,
    lists: Vec<Vec<String>>,
    exits: Option<Vec<bool>>,
) -> Result<Missions, DocRefused>
    ensures { AnswersAs DocRefused.Memory (λ m. m) result
        (refused_as (DocRefused.Missions number)
        (missions_from layout.now (length trains.now) (ways_seen lists.items)
        (exits_or_none (length trains.now) (option_map (λ e. e.items) exits)))) }
{
    let exits = exits_or(alloc, trains.len(), exits)?;
    match missions(alloc, layout, trains, lists, exits) {
        Ok(missions) => Ok(missions),
        Err(MissionRefused::Memory) => Err(DocRefused::Memory),
        Err(refused) => Err(DocRefused::Missions {
            table: number,
            refused,
        }),
    }
}

// What a train may weigh in a section.
fn marks(version: u32) -> Marks
    ensures { result ≡ marks_of version }
{
    if version == 1 {
        Marks::One
    } else {
        Marks::Four
    }
}

// The missions with sections.
fn made_sections(
    alloc: Global,
    number: usize,
    version: u32,
    missions: Missions,
    list: Option<Vec<Section>>,
) -> Result<Table, DocRefused>
    ensures { result ≡ refused_as (DocRefused.Marks number)
        (table_from (marks_of version) missions (unwrap_or (option_map (λ v. v.items) list) [])) }
{
    match sections(missions, list.unwrap_or(Vec::new(alloc)), marks(version)) {
        Ok(table) => Ok(table),
        Err(refused) => Err(DocRefused::Marks {
            table: number,
            refused,
        }),
    }
}

// When a table is due; at once unless it says otherwise.
fn due_after(number: usize, after: Option<u32>) -> Result<u32, DocRefused>
    ensures { result ≡ unless (after_refusal number (unwrap_or after 0)) (unwrap_or after 0) }
{
    let after = after.unwrap_or(0);
    check_after(number, after)?;
    Ok(after)
}

// A time of 1 for each step of each train.
fn ones(alloc: Global, table: &Table) -> Result<Vec<TrainTimes>, AllocError>
    ensures { IfOk result (λ v. v.items ≡ times_or_one table.now None) }
{
    let mut times = Vec::new(alloc);
    for train in 0..trains_of(table) {
        let steps = vec![in alloc; 1u32; last_of(table, train) as usize]?;
        times.push(TrainTimes::from(steps))?;
    }
    Ok(times)
}

// The travel times of a table; missing times are all 1.
fn travel_times(
    alloc: Global,
    number: usize,
    table: &Table,
    times: Option<Vec<TrainTimes>>,
) -> Result<TableTimes, DocRefused>
    ensures { AnswersAs DocRefused.Memory (λ t. t) result
        (unless (times_refusal number table.now (times_or_one table.now (option_map (λ v. v.items) times)))
        (times_or_one table.now (option_map (λ v. v.items) times))) }
{
    let times = match times {
        Some(times) => times,
        None => ones(alloc, table)?,
    };
    check_times(number, table, &times)?;
    Ok(TableTimes::from(times))
}

// The table with connections.
fn made_connections(
    alloc: Global,
    number: usize,
    table: Table,
    list: Option<Vec<Connection>>,
) -> Result<Table, DocRefused>
    ensures { AnswersAs DocRefused.Memory (λ t. t) result
        (refused_as (DocRefused.Marks number) (connected table (unwrap_or (option_map (λ v. v.items) list) []))) }
{
    match connections(table, list.unwrap_or(Vec::new(alloc))) {
        Ok(table) => Ok(table),
        Err((_, refused)) => Err(DocRefused::Marks {
            table: number,
            refused,
        }),
    }
}

// A table of a document with its travel times.
fn made_table(
    alloc: Global,
    number: usize,
    version: u32,
    layout: &Layout,
    trains: &Trains,
    members: TableMembers,
) -> Result<(Untimed, TableTimes), DocRefused>
    ensures made { AnswersAs DocRefused.Memory (λ p. with_times p.0 p.1) result
        (doc_table_of version layout.now (length trains.now) number (seen_table members)) }
    ensures formed { IfOk result (λ p. IsTable p.0.table) }
{
    let TableMembers {
        missions,
        exits,
        sections,
        connections,
        certificate,
        times,
        after,
    } = members;
    let after = due_after(number, after)?;
    let missions = made_missions(alloc, number, layout, trains, missions, exits)?;
    let table = made_sections(alloc, number, version, missions, sections)?;
    let table = made_connections(alloc, number, table, connections)?;
    let times = travel_times(alloc, number, &table, times)?;
    let nodes = certificate.unwrap_or(Vec::new(alloc));
    // This read gives the proof that the table is formed.
    let _trains = trains_of(&table);
    Ok((Untimed::new(table, after, nodes), times))
}

/// The tables of a document, table by table, and their travel times.
pub(crate) fn made_tables(
    alloc: Global,
    version: u32,
    layout: &Layout,
    trains: &Trains,
    members: Vec<TableMembers>,
) -> Result<(Vec<Untimed>, Vec<TableTimes>), DocRefused>
    ensures made { AnswersAs DocRefused.Memory (λ p. timed p.0.items p.1.items) result
        (each_from (doc_table_of version layout.now (length trains.now)) 0 (map seen_table members.items)) }
    ensures each_timed { IfOk result (λ p. length p.0.items ≡ length p.1.items) }
    ensures formed { IfOk result (λ p. All (λ t. IsTable t.table) p.0.items) }
{
    let mut tables = Vec::new(alloc);
    let mut all_times = Vec::new(alloc);
    for table in members {
        let number = tables.len();
        let (table, times) = made_table(alloc, number, version, layout, trains, table)?;
        tables.push(table)?;
        all_times.push(times)?;
    }
    Ok((tables, all_times))
}
