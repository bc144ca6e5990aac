// What a header opens: a document, its tables and the state that its journal leads to.
ghost use Rattle.std.specs.Prelude.{◌≡◌, ◌⊎◌, IfOk, IfErr, OnOk, string_bytes, true};
ghost use Rattle.live_header.specs.Hashing.{hash_text};
ghost use Rattle.live_header.specs.Naming.{suits};
ghost use Rattle.live_header.specs.Opening.{IsOpened, IsOther, RefusesHeader};
ghost use Rattle.live_header.specs.declared.refused.Refused.TheVariants.{Memory as NoMemory};

use crate::hashing::document_hash;
use crate::journals::state_after;
use crate::naming::{has_reports, suits};
use crate::{Header, Refused};
use accepted_documents::{Checked, check_document};
use cert_checker::Accepted;
use cert_tree::Cert;
use document_json::Frame;
use rail_model::PlainState;
use std::alloc::Global;

/// What a header opens: a document with its hash, the certificates that its tables accept, the tables, the state that
/// its journal leads to, and whether trains report.
#[derive(Drop)]
pub struct Opened {
    pub hash: String,
    pub doc: Frame,
    pub certs: Vec<Cert>,
    pub tables: Vec<Accepted>,
    pub state: PlainState,
    pub reports: bool,
}

// The hash of a header's document, if the header names no other.
fn hash_of(alloc: Global, header: &Header) -> Result<String, Refused>
    ensures hash { IfOk result (λ hash. string_bytes hash ≡ hash_text header.now.document) }
    ensures named { OnOk result (suits header.now.live (hash_text header.now.document) ≡ true) }

    ensures other { IfErr result (λ e. (e ≡ NoMemory) ⊎ IsOther header.now e) }
{
    let hash = document_hash(alloc, header.document())?;
    if suits(header.live(), hash.as_str()) {
        Ok(hash)
    } else {
        Err(Refused::Other)
    }
}

/// Opens a header.
///
/// # Errors
///
/// Out of memory; the first cause in the order of `Refused`.
pub fn open_header(alloc: Global, header: &Header) -> Result<Opened, Refused>
    ensures opened { IfOk result (IsOpened header.now) }

    ensures refused { IfErr result (λ e. (e ≡ NoMemory) ⊎ RefusesHeader header.now e) }
{
    let hash = hash_of(alloc, header)?;
    let Checked { doc, certs, tables } = check_document(alloc, header.document())?;
    let state = state_after(alloc, &doc, &tables, header.journal())?;
    let reports = has_reports(header.live());
    Ok(Opened {
        hash,
        doc,
        certs,
        tables,
        state,
        reports,
    })
}
