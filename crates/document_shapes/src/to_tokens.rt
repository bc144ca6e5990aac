// Values of one shape, written as the tokens of JSON.
ghost use Rattle.std.specs.Prelude.{All, IsUtf8, ⊤, codes, string_bytes};
ghost use Rattle.serde_json.specs.Data.{Data, boolean, string};
ghost use Rattle.document_shapes.specs.Added.{AddsTokens, member_tokens, tokens_of};
ghost use Rattle.document_shapes.specs.InRange.{IsSmall, IsChange, NodeIsSmall, ConnectionIsSmall, SectionIsSmall};
ghost use Rattle.document_shapes.specs.Written as written;
ghost use Rattle.document_shapes.specs.Written.{list_data, pair_data};

use crate::token_text::TokenText;
use json::Token;
use rail_model::{Changes, Connection, Node, Section, TrainTimes};

/// What stands for a value in JSON.
pub(crate) trait ToTokens {
    /// The data that stand for the value.
    ghost stands: { Self → Data };

    /// Its numbers are in range and its texts are UTF-8.
    ghost in_range: { Self → Type 0 };

    /// Writes the data.
    fn to_tokens(&self, text: &mut TokenText)
        ensures tokens { AddsTokens (tokens_of (stands self.now)) text.old text.new }
        ensures in_range { in_range self.now };
}

impl ToTokens for bool {
    ghost stands = { boolean };

    ghost in_range = { λ _. ⊤ };

    fn to_tokens(&self, text: &mut TokenText) {
        text.token(Token::Bool(*self));
    }
}

impl ToTokens for u32 {
    ghost stands = { written.whole_data };

    ghost in_range = { IsSmall };

    fn to_tokens(&self, text: &mut TokenText) {
        let written = text.writer.u64(u64::from(*self));
        text.note(written);
    }
}

impl ToTokens for i32 {
    ghost stands = { written.change_data };

    ghost in_range = { IsChange };

    fn to_tokens(&self, text: &mut TokenText) {
        let written = text.writer.i64(i64::from(*self));
        text.note(written);
    }
}

impl ToTokens for String {
    ghost stands = { λ s. string (string_bytes s) };

    ghost in_range = { λ s. IsUtf8 (string_bytes s) };

    fn to_tokens(&self, text: &mut TokenText) {
        text.token(Token::String(self.as_str()));
    }
}

impl ToTokens for Node {
    ghost stands = { written.node_data };

    ghost in_range = { NodeIsSmall };

    fn to_tokens(&self, text: &mut TokenText) {
        match *self {
            Node::Split { train, place } => write_list(text, &[0, train, place]),
            Node::Clash { first, second } => write_list(text, &[1, first, second]),
            Node::Overfull { section } => write_list(text, &[2, section]),
            Node::Arrived => write_list(text, &[3]),
            Node::Move { train } => write_list(text, &[4, train]),
        }
    }
}

impl ToTokens for Connection {
    ghost stands = { written.connection_data };

    ghost in_range = { ConnectionIsSmall };

    fn to_tokens(&self, text: &mut TokenText) {
        write_list(
            text,
            &[self.train(), self.place(), self.other(), self.reached()],
        );
    }
}

impl ToTokens for TrainTimes {
    ghost stands = { list_data written.whole_data };

    ghost in_range = { All IsSmall };

    fn to_tokens(&self, text: &mut TokenText) {
        write_list(text, self.as_slice());
    }
}

impl ToTokens for Changes {
    ghost stands = { list_data written.change_data };

    ghost in_range = { All IsChange };

    fn to_tokens(&self, text: &mut TokenText) {
        write_list(text, self.as_slice());
    }
}

// Writes the changes of a section, a list for each train.
fn write_changes(text: &mut TokenText, changes: &[Changes])
    ensures tokens { AddsTokens (member_tokens (codes "changes") (list_data (list_data written.change_data) changes.now)) text.old text.new }
    ensures in_range { All (All IsChange) changes.now }
{
    text.token(Token::Key("changes"));
    write_list(text, changes);
}

impl ToTokens for Section {
    ghost stands = { written.section_data };

    ghost in_range = { SectionIsSmall };

    fn to_tokens(&self, text: &mut TokenText) {
        text.token(Token::BeginObject);
        write_changes(text, self.all_changes());
        write_named(text, "limit", &self.limit());
        text.token(Token::EndObject);
    }
}

/// Writes a member of this name.
pub(crate) fn write_named<T: ToTokens>(text: &mut TokenText, name: &str, item: &T)
    ensures tokens { AddsTokens (member_tokens name.now (T.ToTokens.stands item.now)) text.old text.new }
    ensures in_range { T.ToTokens.in_range item.now }
{
    text.token(Token::Key(name));
    item.to_tokens(text);
}

impl<T: ToTokens> ToTokens for Vec<T> {
    ghost stands = { λ v. list_data T.ToTokens.stands v.items };

    ghost in_range = { λ v. All T.ToTokens.in_range v.items };

    fn to_tokens(&self, text: &mut TokenText) {
        write_list(text, self.as_slice());
    }
}

// Writes the list of what stands for each item.
fn write_list<T: ToTokens>(text: &mut TokenText, items: &[T])
    ensures tokens { AddsTokens (tokens_of (list_data T.ToTokens.stands items.now)) text.old text.new }
    ensures in_range { All T.ToTokens.in_range items.now }
{
    text.begin_array();
    for item in items {
        item.to_tokens(text);
    }
    text.end_array();
}

impl<A: ToTokens, B: ToTokens> ToTokens for (A, B) {
    ghost stands = { pair_data A.ToTokens.stands B.ToTokens.stands };

    ghost in_range = { λ p. A.ToTokens.in_range p.0 × B.ToTokens.in_range p.1 };

    fn to_tokens(&self, text: &mut TokenText) {
        text.begin_array();
        self.0.to_tokens(text);
        self.1.to_tokens(text);
        text.end_array();
    }
}
