// Values of one shape, read of the tokens of a text.
ghost use Rattle.std.specs.Prelude.{◌≡◌, [], ◌∷◌, ◌++◌, IfSome, IsSomeAnd, OnSome, Some, string_bytes};
ghost use Rattle.json.specs.Token as token;
ghost use Rattle.serde_json.specs.Data.{Data};
ghost use Rattle.document_shapes.specs.Shape as shape;
ghost use Rattle.document_shapes.specs.Readings.{ReadsList, ReadsPair};
ghost use Rattle.document_shapes.specs.Taken.{Takes, TakesItems, Opens};

use crate::number_text::{change_of, whole_of};
use json::{Reader, Token};
use std::alloc::Global;

/// The tokens of a text from the next value on, and what allocates what is read of them.
#[derive(Drop)]
pub(crate) struct Tokens<'a> {
    pub reader: Reader<'a>,
    pub alloc: Global,
}

/// What is read of the tokens of a value of one shape.
pub(crate) trait FromTokens: Sized + Drop {
    /// The value reads as this.
    ghost reads: { Data → Self → Type 0 };

    /// The next value, where it has the shape and nests at most so deep.
    fn from_tokens(tokens: &mut Tokens<'_>, depth: usize) -> Option<Self>
        ensures { IfSome result (λ x. Takes reads depth tokens.old.reader x tokens.new.reader) };
}

impl FromTokens for bool {
    ghost reads = { λ d b. shape.truth d ≡ Some b };

    fn from_tokens(tokens: &mut Tokens<'_>, _depth: usize) -> Option<bool> {
        match tokens.reader.next()? {
            Token::Bool(truth) => Some(truth),
            _ => None,
        }
    }
}

impl FromTokens for u32 {
    ghost reads = { λ d n. shape.whole d ≡ Some n };

    fn from_tokens(tokens: &mut Tokens<'_>, _depth: usize) -> Option<u32> {
        match tokens.reader.next()? {
            Token::Number(text) => whole_of(text),
            _ => None,
        }
    }
}

impl FromTokens for i32 {
    ghost reads = { λ d z. shape.change d ≡ Some z };

    fn from_tokens(tokens: &mut Tokens<'_>, _depth: usize) -> Option<i32> {
        match tokens.reader.next()? {
            Token::Number(text) => change_of(text),
            _ => None,
        }
    }
}

// The text as a string, where there is memory for it.
fn copied(alloc: Global, text: &str) -> Option<String>
    ensures { IfSome result (λ s. string_bytes s ≡ text.now) }
{
    match String::from_str(alloc, text) {
        Ok(copied) => Some(copied),
        Err(_) => None,
    }
}

impl FromTokens for String {
    ghost reads = { λ d s. shape.text d ≡ Some (string_bytes s) };

    fn from_tokens(tokens: &mut Tokens<'_>, _depth: usize) -> Option<String> {
        match tokens.reader.next()? {
            Token::String(text) => copied(tokens.alloc, text),
            _ => None,
        }
    }
}

/// How deep the items may nest, where the next value is a list.
pub(crate) fn list_begins(tokens: &mut Tokens<'_>, depth: usize) -> Option<usize>
    ensures { IfSome result (λ inner. Opens token.begin_array depth tokens.old.reader inner tokens.new.reader) }
{
    match tokens.reader.next()? {
        Token::BeginArray => depth.checked_sub(1),
        _ => None,
    }
}

// Adds the item to the list, where there is memory for it.
fn push<T: Drop>(list: &mut Vec<T>, item: T) -> Option<()>
    ensures { OnSome result (list.new.items ≡ list.old.items ++ item ∷ []) }
{
    match list.push(item) {
        Ok(()) => Some(()),
        Err(_) => None,
    }
}

// The items of a list up to its end.
fn items<T: FromTokens>(tokens: &mut Tokens<'_>, depth: usize) -> Option<Vec<T>>
    ensures { IfSome result (λ v. TakesItems T.FromTokens.reads depth tokens.old.reader v.items tokens.new.reader) }
{
    let mut found = Vec::new(tokens.alloc);
    'items: while !tokens.reader.take_end_array() {
        let item = T::from_tokens(tokens, depth)?;
        push(&mut found, item)?;
    }
    Some(found)
}

impl<T: FromTokens> FromTokens for Vec<T> {
    ghost reads = { λ d v. ReadsList T.FromTokens.reads d v.items };

    fn from_tokens(tokens: &mut Tokens<'_>, depth: usize) -> Option<Vec<T>> {
        let inner = list_begins(tokens, depth)?;
        items(tokens, inner)
    }
}

impl<A: FromTokens, B: FromTokens> FromTokens for (A, B) {
    ghost reads = { λ d p. ReadsPair A.FromTokens.reads B.FromTokens.reads d p };

    fn from_tokens(tokens: &mut Tokens<'_>, depth: usize) -> Option<(A, B)> {
        let inner = list_begins(tokens, depth)?;
        let first = A::from_tokens(tokens, inner)?;
        let second = B::from_tokens(tokens, inner)?;
        if tokens.reader.take_end_array() {
            Some((first, second))
        } else {
            None
        }
    }
}

/// Reads the next value into the field, where it has the field's shape and nests at most so deep.
pub(crate) fn read_into<T: FromTokens>(
    field: &mut Option<T>,
    tokens: &mut Tokens<'_>,
    depth: usize,
) -> Option<()>
    ensures { OnSome result
        (Takes (λ d found. IsSomeAnd found (λ x. T.FromTokens.reads d x)) depth tokens.old.reader field.new tokens.new.reader) }
{
    *field = Some(T::from_tokens(tokens, depth)?);
    Some(())
}
