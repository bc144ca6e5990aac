// A document's members, read of the tokens of a text.
ghost use Rattle.std.specs.Prelude.{◌≡◌, IfSome, Some, Ok, option_map};
ghost use Rattle.std.specs.List.{list_all};
ghost use Rattle.serde_json.specs.Read.{read};
ghost use Rattle.document_shapes.specs.DocumentFound.{IsWholeDocument};
ghost use Rattle.document_shapes.specs.Raw.{members_of, doc_members};
ghost use Rattle.document_shapes.specs.Seen.{seen_document};
ghost use Rattle.document_shapes.specs.TableRead as of_version;

use crate::document::LATEST_VERSION;
use crate::from_members::{FromMembers, object};
use crate::from_tokens::{FromTokens, Tokens, read_into};
use crate::{DocMembers, TableMembers};
use json::{Reader, Scratch};
use std::alloc::Global;

/// How deep a text may nest that `serde_json` reads.
pub(crate) const MAX_DEPTH: usize = 127;

// What is found of a document's members.
#[derive(Default, Drop)]
struct FoundDocument {
    version: Option<u32>,
    points: Option<Vec<(String, u32)>>,
    links: Option<Vec<(String, String)>>,
    zones: Option<u32>,
    trains: Option<Vec<String>>,
    start: Option<Vec<u32>>,
    tables: Option<Vec<TableMembers>>,
}

impl FromMembers for FoundDocument {
    ghost use Rattle.document_shapes.specs.DocumentFound.{DocumentFinds};

    ghost finds = { DocumentFinds };

    fn nothing() -> FoundDocument {
        FoundDocument::default()
    }

    fn find(&mut self, tokens: &mut Tokens<'_>, depth: usize, name: &str) -> Option<()> {
        match name {
            "version" => read_into(&mut self.version, tokens, depth),
            "points" => read_into(&mut self.points, tokens, depth),
            "links" => read_into(&mut self.links, tokens, depth),
            "zones" => read_into(&mut self.zones, tokens, depth),
            "trains" => read_into(&mut self.trains, tokens, depth),
            "start" => read_into(&mut self.start, tokens, depth),
            "tables" => read_into(&mut self.tables, tokens, depth),
            _ => None,
        }
    }
}

// Whether a table has only members that the version has.
fn is_of_version(table: &TableMembers, version: u32) -> bool
    ensures { result ≡ of_version.is_of_version version table.now }
{
    (2 <= version || table.exits.is_none()) && (3 <= version || table.connections.is_none())
}

// Whether each of the tables has only such members.
fn are_of_version(tables: &[TableMembers], version: u32) -> bool
    ensures { result ≡ list_all (λ t. of_version.is_of_version version t) tables.now }
{
    tables.iter().all(|table| is_of_version(table, version))
}

// A document of a known version whose tables have only members of that version.
fn of_known_version(found: FoundDocument) -> Option<DocMembers>
    ensures { IfSome result (λ m. IsWholeDocument found m) }
{
    let FoundDocument {
        version,
        points,
        links,
        zones,
        trains,
        start,
        tables,
    } = found;
    let version = version?;
    let tables = tables?;
    if version < 1 || LATEST_VERSION < version || !are_of_version(tables.as_slice(), version) {
        return None;
    }
    Some(DocMembers {
        version,
        points: points?,
        links: links?,
        zones: zones?,
        trains: trains?,
        start: start?,
        tables,
    })
}

impl FromTokens for DocMembers {
    ghost reads = { λ d m. doc_members d ≡ Ok (seen_document m) };

    fn from_tokens(tokens: &mut Tokens<'_>, depth: usize) -> Option<DocMembers> {
        let found = object(tokens, depth)?;
        of_known_version(found)
    }
}

// The members in a text, which nothing follows.
fn members_in(alloc: Global, text: &str, scratch: &mut Scratch) -> Option<DocMembers>
    ensures { IfSome result (λ m. option_map doc_members (read text.now) ≡ Some (Ok (seen_document m))) }
{
    let Ok(reader) = Reader::new(text, scratch) else {
        return None;
    };
    let mut tokens = Tokens { reader, alloc };
    let members = DocMembers::from_tokens(&mut tokens, MAX_DEPTH)?;
    match tokens.reader.next() {
        Some(_) => None,
        None => Some(members),
    }
}

/// The members of the document that the bytes are, read token by token. None if the bytes are no document or if memory ran
/// out, and also for a document with a member of another name or of a later version.
pub(crate) fn read_tokens(alloc: Global, bytes: &[u8]) -> Option<DocMembers>
    ensures { IfSome result (λ m. members_of bytes.now ≡ Ok (seen_document m)) }
{
    let Ok(text) = std::str::from_utf8(bytes) else {
        return None;
    };
    let mut scratch = Scratch::new(alloc);
    members_in(alloc, text, &mut scratch)
}
