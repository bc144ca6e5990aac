// Documents written anew: with other tables, with other certificates, in a later version.
ghost use Rattle.std.specs.Prelude.{◌≡◌, All, IfOk, Ok, length, map};
ghost use Rattle.document_shapes.specs.Raw.{IsRead};
ghost use Rattle.document_shapes.specs.Seen.{seen_document, seen_table};
ghost use Rattle.document_json.specs.Doc.{names_of};
ghost use Rattle.document_json.specs.Keeps.{AreMembersOf, IsTaken};
ghost use Rattle.document_json.specs.Members.{table_members_in};
ghost use Rattle.document_json.specs.Migrated.{later_version, migrated, IsMigrated};
ghost use Rattle.document_json.specs.Reading.{doc_of};
ghost use Rattle.document_json.specs.Replaced.{each_with, exchanged, recertified, replaced, certified};
ghost use Rattle.document_json.specs.Written.{written, AreNamed};

use crate::members::{members_in, members_with, table_with};
use crate::writing::write_members;
use crate::{Doc, Frame, table_of, tables_of, version};
use cert_tree::Cert;
use document_shapes::{DocMembers, TableMembers};
use rail_model::Table;
use std::alloc::{AllocError, Global};

// The members of the tables with other certificates.
fn certified_tables(
    alloc: Global,
    doc: &Doc,
    certs: &[Cert],
) -> Result<Vec<TableMembers>, AllocError>
    requires { length certs.now ≡ length doc.now.tables }
    ensures { IfOk result (λ v. map seen_table v.items
        ≡ map (table_members_in doc.now.version (names_of doc.now)) (each_with recertified doc.now.tables certs.now)) }
{
    let mut found = Vec::new(alloc);
    for number in 0..tables_of(doc) {
        let nodes = certs[number as usize].as_slice();
        let table = table_of(doc, number);
        found.push(table_with(alloc, version(doc), doc.frame(), number, table, nodes)?)?;
    }
    Ok(found)
}

/// The text of the document with these certificates, one for each table, in place of its own; all else is equal. The
/// only error is that there is no memory.
pub fn write_certified(alloc: Global, doc: &Doc, certs: &[Cert]) -> Result<Vec<u8>, AllocError>
    requires { length certs.now ≡ length doc.now.tables }
    ensures text { IfOk result (λ b. b.items ≡ written (certified doc.now certs.now)) }
    ensures reads_back { IfOk result (λ b. doc_of b.items ≡ Ok (certified doc.now certs.now)) }
{
    let tables = certified_tables(alloc, doc, certs)?;
    let members = members_with(alloc, version(doc), doc.frame(), tables)?;
    write_members(alloc, &members)
}

// The members of other tables with their certificates.
fn replaced_tables(
    alloc: Global,
    frame: &Frame,
    parts: &[(Table, Cert)],
) -> Result<Vec<TableMembers>, AllocError>
    requires one_each { length parts.now ≡ length frame.now.tables }
    requires named { All (λ p. All (AreNamed (names_of frame.now)) p.0.missions) parts.now }
    ensures { IfOk result (λ v. map seen_table v.items
        ≡ map (table_members_in frame.now.version (names_of frame.now)) (each_with exchanged frame.now.tables parts.now)) }
{
    let mut found = Vec::new(alloc);
    for number in 0..frame.tables() {
        let (table, cert) = &parts[number as usize];
        found.push(table_with(
            alloc,
            frame.version(),
            frame,
            number,
            table,
            cert.as_slice(),
        )?)?;
    }
    Ok(found)
}

// The members of the document with these tables and certificates in place of its own.
pub(crate) fn replaced_members(
    alloc: Global,
    frame: &Frame,
    parts: &[(Table, Cert)],
) -> Result<DocMembers, AllocError>
    requires one_each { length parts.now ≡ length frame.now.tables }
    requires taken { IsTaken (replaced frame.now parts.now) }
    ensures members { IfOk result (λ m. AreMembersOf (replaced frame.now parts.now) (seen_document m)) }
    ensures read { IfOk result (λ m. IsRead (seen_document m)) }
{
    let tables = replaced_tables(alloc, frame, parts)?;
    members_with(alloc, frame.version(), frame, tables)
}

/// The text of the document with these tables and certificates, one for each table, in place of its own; all else is
/// equal. The only error is that there is no memory.
pub fn write_replaced(
    alloc: Global,
    frame: &Frame,
    parts: &[(Table, Cert)],
) -> Result<Vec<u8>, AllocError>
    requires one_each { length parts.now ≡ length frame.now.tables }
    requires taken { IsTaken (replaced frame.now parts.now) }
    ensures text { IfOk result (λ b. b.items ≡ written (replaced frame.now parts.now)) }
    ensures reads_back { IfOk result (λ b. doc_of b.items ≡ Ok (replaced frame.now parts.now)) }
{
    let members = replaced_members(alloc, frame, parts)?;
    write_members(alloc, &members)
}

// Version 2, or a later one.
fn later_version(version: u32) -> u32
    ensures { result ≡ later_version version }
{
    if version == 1 { 2 } else { version }
}

// The members of the document in version 2, or in its own where that is later.
pub(crate) fn migrated_members(alloc: Global, doc: &Doc) -> Result<DocMembers, AllocError>
    ensures members { IfOk result (λ m. AreMembersOf (migrated doc.now) (seen_document m)) }
    ensures read { IfOk result (λ m. IsRead (seen_document m)) }
    ensures kept { IfOk result (λ _. IsMigrated doc.now (migrated doc.now)) }
{
    members_in(alloc, later_version(version(doc)), doc)
}

/// The text of the document in version 2, no train of which leaves the layout; of a document of a later version as it
/// is. The only error is that there is no memory.
pub fn write_migrated(alloc: Global, doc: &Doc) -> Result<Vec<u8>, AllocError>
    ensures text { IfOk result (λ b. b.items ≡ written (migrated doc.now)) }
    ensures reads_back { IfOk result (λ b. doc_of b.items ≡ Ok (migrated doc.now)) }
    ensures kept { IfOk result (λ _. IsMigrated doc.now (migrated doc.now)) }
{
    let members = migrated_members(alloc, doc)?;
    write_members(alloc, &members)
}
