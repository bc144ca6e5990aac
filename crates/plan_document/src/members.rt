// The members of the document of a plan.
ghost use Rattle.std.specs.Prelude.{◌≡◌, IfOk, map};
ghost use Rattle.document_shapes.specs.Seen.{seen_document, seen_table};
ghost use Rattle.plan_document.specs.Written as spec;
ghost use Rattle.plan_document.specs.Written.{document_of, table_of};

use crate::shares::changes;
use crate::{Plan, SectionPlan, TablePlan, Wait};
use document_shapes::{DocMembers, TableMembers};
use rail_model::{Connection, Section};
use std::alloc::{AllocError, Global};

// A section, as a document has it.
fn section(alloc: Global, section: &SectionPlan) -> Result<Section, AllocError>
    ensures { IfOk result (λ s. s ≡ spec.section_of section.now) }
{
    let mut found = Vec::new(alloc);
    for shares in &section.shares {
        found.push(changes(alloc, shares)?)?;
    }
    Ok(Section::new(section.limit, found))
}

// The sections of a table.
fn sections(alloc: Global, plans: &[SectionPlan]) -> Result<Vec<Section>, AllocError>
    ensures { IfOk result (λ v. v.items ≡ map spec.section_of plans.now) }
{
    let mut found = Vec::new(alloc);
    for plan in plans {
        found.push(section(alloc, plan)?)?;
    }
    Ok(found)
}

// A wait, as a document has it.
fn connection(wait: &Wait) -> Connection
    ensures { result ≡ spec.connection_of wait.now }
{
    Connection::new(wait.train, wait.leaves, wait.after, wait.reached)
}

// The connections of a table.
fn connections(alloc: Global, waits: &[Wait]) -> Result<Vec<Connection>, AllocError>
    ensures { IfOk result (λ v. v.items ≡ map spec.connection_of waits.now) }
{
    waits.iter().map(connection).collect(alloc)
}

// The members of a table.
fn table(alloc: Global, plan: TablePlan) -> Result<TableMembers, AllocError>
    ensures { IfOk result (λ t. seen_table t ≡ table_of plan) }
{
    let sections = sections(alloc, &plan.sections)?;
    let connections = connections(alloc, &plan.waits)?;
    Ok(TableMembers {
        missions: plan.routes,
        exits: Some(plan.exits),
        sections: Some(sections),
        connections: Some(connections),
        certificate: Some(Vec::new(alloc)),
        times: Some(plan.times),
        after: Some(plan.after),
    })
}

// The members of all tables.
fn tables(alloc: Global, plans: Vec<TablePlan>) -> Result<Vec<TableMembers>, AllocError>
    ensures { IfOk result (λ v. map seen_table v.items ≡ map table_of plans.items) }
{
    let mut found = Vec::new(alloc);
    for plan in plans {
        found.push(table(alloc, plan)?)?;
    }
    Ok(found)
}

/// The members of the document of a plan, in version 3.
pub(crate) fn members(alloc: Global, plan: Plan) -> Result<DocMembers, AllocError>
    ensures { IfOk result (λ d. seen_document d ≡ document_of plan) }
{
    Ok(DocMembers {
        version: 3,
        tables: tables(alloc, plan.tables)?,
        points: plan.points,
        links: plan.links,
        zones: plan.zones,
        trains: plan.trains,
        start: plan.start,
    })
}
