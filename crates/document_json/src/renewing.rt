// Documents made anew, as values: of members, with no text between.
ghost use Rattle.std.specs.Prelude.{◌≡◌, IfOk, length};
ghost use Rattle.document_shapes.specs.Raw.{IsRead};
ghost use Rattle.document_shapes.specs.Seen.{seen_document};
ghost use Rattle.document_json.specs.Doc.{Doc as DocValue};
ghost use Rattle.document_json.specs.Keeps.{AreMembersOf, IsTaken};
ghost use Rattle.document_json.specs.Migrated.{migrated, IsMigrated};
ghost use Rattle.document_json.specs.Replaced.{replaced};

use crate::reading::checked;
use crate::remaking::{migrated_members, replaced_members};
use crate::{Doc, Frame};
use cert_tree::Cert;
use document_shapes::DocMembers;
use rail_model::Table;
use std::alloc::{AllocError, Global};

// The document whose members these are, none of which is refused.
fn renewed(alloc: Global, members: DocMembers) -> Result<Doc, AllocError>
    requires { IsRead (seen_document members) }
    ensures { IfOk result (λ d. (D : DocValue) → AreMembersOf D (seen_document members) → d ≡ D) }
{
    match checked(alloc, members) {
        Ok(doc) => Ok(doc),
        Err(_) => Err(AllocError),
    }
}

/// The document with these tables and certificates, one for each table, in place of its own; all else is equal. The
/// only error is that there is no memory.
pub fn replaced(alloc: Global, frame: &Frame, parts: &[(Table, Cert)]) -> Result<Doc, AllocError>
    requires one_each { length parts.now ≡ length frame.now.tables }
    requires taken { IsTaken (replaced frame.now parts.now) }
    ensures { IfOk result (λ d. d ≡ replaced frame.now parts.now) }
{
    renewed(alloc, replaced_members(alloc, frame, parts)?)
}

/// The document in version 2, no train of which leaves the layout; a document of a later version as it is. The only
/// error is that there is no memory.
pub fn migrate(alloc: Global, doc: &Doc) -> Result<Doc, AllocError>
    ensures document { IfOk result (λ d. d ≡ migrated doc.now) }
    ensures kept { IfOk result (IsMigrated doc.now) }
{
    renewed(alloc, migrated_members(alloc, doc)?)
}
