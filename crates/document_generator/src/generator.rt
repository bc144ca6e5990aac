// The generated document.
ghost use Rattle.std.specs.Prelude.{◌≡◌, ◌≤◌, ◌++◌, ◌∷◌, [], Ok, IfOk, OnOk, flat_map, map, replicate, string_bytes};
ghost use Rattle.document_shapes.specs.Raw.{members_of};
ghost use Rattle.document_shapes.specs.Seen.{names_seen, seen_document, seen_table};
ghost use Rattle.document_shapes.specs.Written.{text_of};
ghost use Rattle.document_generator.specs.Generated as whole;
ghost use Rattle.document_generator.specs.Generated.{generated, document_of, table_of, train_names};
ghost use Rattle.document_generator.specs.Pairs.{all_pairs};

use crate::layout::{ZONES, links, points};
use crate::pairs::{Pair, draw_pairs};
use crate::sections::sections;
use crate::ways::ways;
use document_shapes::{DocMembers, TableMembers, write_document};
use rail_model::TrainTimes;
use std::alloc::{AllocError, Global};

// Adds the travel times of a pair's trains.
fn add_times(alloc: Global, pair: &Pair, found: &mut Vec<TrainTimes>) -> Result<(), AllocError>
    ensures { OnOk result (found.new.items ≡ found.old.items ++ pair.now.times) }
{
    for steps in pair.times() {
        let steps = Vec::from_slice(alloc, steps.as_slice())?;
        found.push(TrainTimes::from(steps))?;
    }
    Ok(())
}

// The travel times of all trains.
fn times(alloc: Global, pairs: &[Pair]) -> Result<Vec<TrainTimes>, AllocError>
    ensures { IfOk result (λ v. v.items ≡ flat_map (λ g. g.times) pairs.now) }
{
    let mut found = Vec::new(alloc);
    for pair in pairs {
        add_times(alloc, pair, &mut found)?;
    }
    Ok(found)
}

// The name of a train.
fn train_name(alloc: Global, train: u32) -> Result<String, AllocError>
    ensures { IfOk result (λ s. string_bytes s ≡ whole.train_name train) }
{
    format!(in alloc; "T{train}")
}

// The names of this many trains.
fn trains(alloc: Global, count: u32) -> Result<Vec<String>, AllocError>
    ensures { IfOk result (λ v. names_seen v ≡ train_names count) }
{
    let mut found = Vec::new(alloc);
    for train in 0..count {
        found.push(train_name(alloc, train)?)?;
    }
    Ok(found)
}

// The one table.
fn table(alloc: Global, pairs: &[Pair]) -> Result<TableMembers, AllocError>
    ensures { IfOk result (λ t. seen_table t ≡ table_of pairs.now) }
{
    Ok(TableMembers {
        missions: ways(alloc, pairs)?,
        exits: None,
        sections: Some(sections(alloc, pairs)?),
        connections: None,
        certificate: Some(Vec::new(alloc)),
        times: Some(times(alloc, pairs)?),
        after: Some(0),
    })
}

// The starts: each train at its first place.
fn starts(alloc: Global, count: u32) -> Result<Vec<u32>, AllocError>
    ensures { IfOk result (λ v. v.items ≡ replicate count 0) }
{
    vec![in alloc; 0; count as usize]
}

// The list of the one table.
fn tables(alloc: Global, pairs: &[Pair]) -> Result<Vec<TableMembers>, AllocError>
    ensures { IfOk result (λ v. map seen_table v.items ≡ table_of pairs.now ∷ []) }
{
    let mut found = Vec::new(alloc);
    found.push(table(alloc, pairs)?)?;
    Ok(found)
}

// The members of the document of all pairs.
fn document(alloc: Global, count: u32, pairs: &[Pair]) -> Result<DocMembers, AllocError>
    ensures { IfOk result (λ d. seen_document d ≡ document_of count pairs.now) }
{
    Ok(DocMembers {
        version: 1,
        points: points(alloc, pairs)?,
        links: links(alloc, pairs)?,
        zones: ZONES,
        trains: trains(alloc, count)?,
        start: starts(alloc, count)?,
        tables: tables(alloc, pairs)?,
    })
}

/// The members of the document that is generated from a seed for `trains` trains, at most 32: in version 1, with one table,
/// due after 0 moves, whose certificate is empty. The text of these members reads as them.
///
/// # Errors
///
/// Out of memory.
pub fn generate_members(alloc: Global, seed: u32, trains: u32) -> Result<DocMembers, AllocError>
    requires { trains ≤ 32 }
    ensures members { IfOk result (λ d. seen_document d ≡ document_of trains (all_pairs seed trains)) }
    ensures reads_back { IfOk result (λ d. members_of (text_of (seen_document d)) ≡ Ok (seen_document d)) }
{
    let pairs = draw_pairs(alloc, seed, trains)?;
    document(alloc, trains, &pairs)
}

/// The text of the members of the document that is generated from a seed for `trains` trains, at most 32: compact JSON, as
/// [`write_document`] has it.
///
/// # Errors
///
/// Out of memory.
pub fn generate(alloc: Global, seed: u32, trains: u32) -> Result<Vec<u8>, AllocError>
    requires { trains ≤ 32 }
    ensures text { IfOk result (λ b. b.items ≡ generated seed trains) }
    ensures reads_back { IfOk result (λ b. members_of b.items ≡ Ok (document_of trains (all_pairs seed trains))) }
{
    let members = generate_members(alloc, seed, trains)?;
    write_document(alloc, &members)
}
