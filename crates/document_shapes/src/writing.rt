// The text of a document.
ghost use Rattle.std.specs.Prelude.{◌≡◌, IfOk, Ok, option_map};
ghost use Rattle.document_shapes.specs.Added.{AddsTokens, member_tokens, given_tokens};
ghost use Rattle.document_shapes.specs.InRange.{InRange, TableInRange, IfGiven};
ghost use Rattle.document_shapes.specs.Members.{name_of};
ghost use Rattle.document_shapes.specs.Raw.{members_of, IsRead};
ghost use Rattle.document_shapes.specs.Seen.{seen_document, seen_table};
ghost use Rattle.document_shapes.specs.Written.{table_data, doc_data, text_of};

use crate::to_tokens::{ToTokens, write_named};
use crate::token_text::TokenText;
use crate::{DocMembers, Member, TableMembers};
use json::Token;
use std::alloc::{AllocError, Global};

// Writes a member of an object.
fn write_member<T: ToTokens>(text: &mut TokenText, member: Member, item: &T)
    ensures tokens { AddsTokens (member_tokens (name_of member) (T.ToTokens.stands item.now)) text.old text.new }
    ensures in_range { T.ToTokens.in_range item.now }
{
    write_named(text, member.name(), item);
}

// Writes a member of an object, where there is one.
fn write_given<T: ToTokens>(text: &mut TokenText, member: Member, item: &Option<T>)
    ensures tokens { AddsTokens (given_tokens (name_of member) (option_map T.ToTokens.stands item.now)) text.old text.new }
    ensures in_range { IfGiven T.ToTokens.in_range item.now }
{
    if let Some(item) = item {
        write_member(text, member, item);
    }
}

impl ToTokens for TableMembers {
    ghost stands = { λ t. table_data (seen_table t) };

    ghost in_range = { λ t. TableInRange (seen_table t) };

    fn to_tokens(&self, text: &mut TokenText) {
        text.token(Token::BeginObject);
        write_given(text, Member::After, &self.after);
        write_given(text, Member::Certificate, &self.certificate);
        write_given(text, Member::Connections, &self.connections);
        write_given(text, Member::Exits, &self.exits);
        write_member(text, Member::Missions, &self.missions);
        write_given(text, Member::Sections, &self.sections);
        write_given(text, Member::Times, &self.times);
        text.token(Token::EndObject);
    }
}

impl ToTokens for DocMembers {
    ghost stands = { λ m. doc_data (seen_document m) };

    ghost in_range = { λ m. InRange (seen_document m) };

    fn to_tokens(&self, text: &mut TokenText) {
        text.token(Token::BeginObject);
        write_member(text, Member::Links, &self.links);
        write_member(text, Member::Points, &self.points);
        write_member(text, Member::Start, &self.start);
        write_member(text, Member::Tables, &self.tables);
        write_member(text, Member::Trains, &self.trains);
        write_member(text, Member::Version, &self.version);
        write_member(text, Member::Zones, &self.zones);
        text.token(Token::EndObject);
    }
}

/// The text of the document of these members: compact JSON, members in the byte order of their names, and a newline.
pub fn write_document(alloc: Global, document: &DocMembers) -> Result<Vec<u8>, AllocError>
    ensures text { IfOk result (λ b. b.items ≡ text_of (seen_document document.now)) }
    ensures reads_back { IfOk result
        (λ b. IsRead (seen_document document.now) → members_of b.items ≡ Ok (seen_document document.now)) }
{
    let mut text = TokenText::new(alloc);
    document.to_tokens(&mut text);
    let mut bytes = text.into_bytes()?;
    bytes.push(b'\n')?;
    Ok(bytes)
}
