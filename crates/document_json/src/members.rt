// The members of a document, as they are written.
ghost use Rattle.std.specs.Prelude.{◌≡◌, ◌<◌, All, IfOk, length, map, option_map};
ghost use Rattle.rail_model.specs.Names.{point_name};
ghost use Rattle.document_shapes.specs.Seen.{seen_document, seen_table, names_seen};
ghost use Rattle.document_json.specs.Doc.{doc_table, names_of};
ghost use Rattle.document_json.specs.Members.{from_version, way_names, members_in, table_members_in, with_tables, in_version};
ghost use Rattle.document_json.specs.Written.{AreNamed, JoinsNamed, point_pair, point_seen, link_pair, link_seen};

use crate::{Doc, Frame, nodes_of, table_of, tables_of};
use document_shapes::{DocMembers, TableMembers};
use rail_model::{
    Connection, Link, Mission, Names, Node, Point, Table, TrainTimes, copy_all, zones_of,
};
use std::alloc::{AllocError, Global};

// Points by name, each with its zone.
fn points(alloc: Global, points: &[Point]) -> Result<Vec<(String, u32)>, AllocError>
    ensures { IfOk result (λ v. map point_seen v.items ≡ map point_pair points.now) }
{
    let mut found = Vec::new(alloc);
    for point in points {
        let name = String::from_str(alloc, point.name())?;
        found.push((name, point.zone()))?;
    }
    Ok(found)
}

// A link by the names of its points.
fn link_names(alloc: Global, names: &Names, link: &Link) -> Result<(String, String), AllocError>
    requires { JoinsNamed names.now link.now }
    ensures { IfOk result (λ l. link_seen l ≡ link_pair names.now link.now) }
{
    let first = String::from_str(alloc, names.point(link.first()))?;
    let second = String::from_str(alloc, names.point(link.second()))?;
    Ok((first, second))
}

fn links(alloc: Global, names: &Names, links: &[Link]) -> Result<Vec<(String, String)>, AllocError>
    requires { All (JoinsNamed names.now) links.now }
    ensures { IfOk result (λ v. map link_seen v.items ≡ map (link_pair names.now) links.now) }
{
    let mut found = Vec::new(alloc);
    for link in links {
        found.push(link_names(alloc, names, link)?)?;
    }
    Ok(found)
}

// The names of the trains.
fn trains(alloc: Global, names: &Names) -> Result<Vec<String>, AllocError>
    ensures { IfOk result (λ v. names_seen v ≡ names.now.trains) }
{
    let mut found = Vec::new(alloc);
    for train in 0..names.trains() as u32 {
        found.push(String::from_str(alloc, names.train(train))?)?;
    }
    Ok(found)
}

// The names of a way's points.
fn way(alloc: Global, names: &Names, mission: &Mission) -> Result<Vec<String>, AllocError>
    requires { AreNamed names.now mission.now }
    ensures { IfOk result (λ v. names_seen v ≡ way_names names.now mission.now) }
{
    let mut found = Vec::new(alloc);
    for &point in mission.as_slice() {
        found.push(String::from_str(alloc, names.point(point))?)?;
    }
    Ok(found)
}

fn ways(alloc: Global, names: &Names, missions: &[Mission]) -> Result<Vec<Vec<String>>, AllocError>
    requires { All (AreNamed names.now) missions.now }
    ensures { IfOk result (λ v. map names_seen v.items ≡ map (way_names names.now) missions.now) }
{
    let mut found = Vec::new(alloc);
    for mission in missions {
        found.push(way(alloc, names, mission)?)?;
    }
    Ok(found)
}

// Which trains leave the layout.
fn exits(alloc: Global, missions: &[Mission]) -> Result<Vec<bool>, AllocError>
    ensures { IfOk result (λ v. v.items ≡ map (λ m. m.exits) missions.now) }
{
    let mut found = Vec::new(alloc);
    for mission in missions {
        found.push(mission.exits())?;
    }
    Ok(found)
}

// Which trains leave the layout, where the version says so.
fn exits_since(
    alloc: Global,
    version: u32,
    missions: &[Mission],
) -> Result<Option<Vec<bool>>, AllocError>
    ensures { IfOk result (λ o. option_map (λ v. v.items) o ≡ from_version 2 version (map (λ m. m.exits) missions.now)) }
{
    if version < 2 {
        return Ok(None);
    }
    Ok(Some(exits(alloc, missions)?))
}

// The connections, where the version has them.
fn connections_since(
    alloc: Global,
    version: u32,
    connections: &[Connection],
) -> Result<Option<Vec<Connection>>, AllocError>
    ensures { IfOk result (λ o. option_map (λ v. v.items) o ≡ from_version 3 version connections.now) }
{
    if version < 3 {
        return Ok(None);
    }
    Ok(Some(Vec::from_slice(alloc, connections)?))
}

fn times(alloc: Global, times: &[TrainTimes]) -> Result<Vec<TrainTimes>, AllocError>
    ensures { IfOk result (λ v. v.items ≡ times.now) }
{
    let mut found = Vec::new(alloc);
    for steps in times {
        let steps = Vec::from_slice(alloc, steps.as_slice())?;
        found.push(TrainTimes::from(steps))?;
    }
    Ok(found)
}

/// The members of a table of the document, with this table and these nodes in place of its own.
pub(crate) fn table_with(
    alloc: Global,
    version: u32,
    frame: &Frame,
    number: u32,
    table: &Table,
    nodes: &[Node],
) -> Result<TableMembers, AllocError>
    requires number { number < length frame.now.tables }
    requires named { All (AreNamed (names_of frame.now)) table.now.missions }
    ensures { IfOk result (λ m. seen_table m ≡ table_members_in version (names_of frame.now)
        (record (doc_table frame.now number) { table = table.now; nodes = nodes.now })) }
{
    let missions = table.missions().as_slice();
    let names = frame.names();
    Ok(TableMembers {
        missions: ways(alloc, names, missions)?,
        exits: exits_since(alloc, version, missions)?,
        sections: Some(copy_all(alloc, table.sections())?),
        connections: connections_since(alloc, version, table.connections())?,
        certificate: Some(Vec::from_slice(alloc, nodes)?),
        times: Some(table_times(alloc, frame, number)?),
        after: Some(frame.after(number)),
    })
}

// The travel times of a table.
fn table_times(alloc: Global, frame: &Frame, number: u32) -> Result<Vec<TrainTimes>, AllocError>
    requires { number < length frame.now.tables }
    ensures { IfOk result (λ v. v.items ≡ (doc_table frame.now number).times) }
{
    times(alloc, frame.times().as_slice()[number as usize].as_slice())
}

// The members of the document's own tables.
fn own_tables(alloc: Global, version: u32, doc: &Doc) -> Result<Vec<TableMembers>, AllocError>
    ensures { IfOk result (λ v. map seen_table v.items ≡ map (table_members_in version (names_of doc.now)) doc.now.tables) }
{
    let mut found = Vec::new(alloc);
    for number in 0..tables_of(doc) {
        let table = table_of(doc, number);
        let nodes = nodes_of(doc, number);
        found.push(table_with(alloc, version, doc.frame(), number, table, nodes)?)?;
    }
    Ok(found)
}

/// The members of the document, with this version and these tables in place of its own.
pub(crate) fn members_with(
    alloc: Global,
    version: u32,
    frame: &Frame,
    tables: Vec<TableMembers>,
) -> Result<DocMembers, AllocError>
    ensures { IfOk result (λ m. seen_document m ≡ with_tables version (map seen_table tables.items) (members_in frame.now)) }
{
    let layout = frame.layout();
    let names = frame.names();
    Ok(DocMembers {
        version,
        points: points(alloc, layout.points())?,
        links: links(alloc, names, layout.links())?,
        zones: zones_of(layout),
        trains: trains(alloc, names)?,
        start: Vec::from_slice(alloc, frame.start().as_slice())?,
        tables,
    })
}

/// The members of the document in a version.
pub(crate) fn members_in(alloc: Global, version: u32, doc: &Doc) -> Result<DocMembers, AllocError>
    ensures { IfOk result (λ m. seen_document m ≡ members_in (in_version version doc.now)) }
{
    let tables = own_tables(alloc, version, doc)?;
    members_with(alloc, version, doc.frame(), tables)
}
