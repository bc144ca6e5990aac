// Objects, read of the tokens of a text member by member.
ghost use Rattle.std.specs.Prelude.{◌≡◌, IfSome, OnSome, Some, option_map};
ghost use Rattle.json.specs.Json.{read_key};
ghost use Rattle.json.specs.Token as token;
ghost use Rattle.serde_json.specs.Data.{Members, no_members};
ghost use Rattle.document_shapes.specs.Taken.{Takes, TakesMembers, Opens, IsObjectWith, FindsAt};

use crate::from_tokens::Tokens;
use json::Token;

/// What is found of an object's members.
pub(crate) trait FromMembers: Sized + Drop {
    /// This is found of the members.
    ghost finds: { Members → Self → Type 0 };

    /// What is found of no members.
    fn nothing() -> Self
        ensures { finds no_members result };

    /// Finds the member of this name, whose value is the next one, where it has the member's shape and nests at most so
    /// deep.
    fn find(&mut self, tokens: &mut Tokens<'_>, depth: usize, name: &str) -> Option<()>
        ensures { OnSome result
            (Takes (λ d found. FindsAt finds name.now self.old d found) depth tokens.old.reader self.new tokens.new.reader) };
}

// How deep the members may nest, where the next value is an object.
fn object_begins(tokens: &mut Tokens<'_>, depth: usize) -> Option<usize>
    ensures { IfSome result (λ inner. Opens token.begin_object depth tokens.old.reader inner tokens.new.reader) }
{
    match tokens.reader.next()? {
        Token::BeginObject => depth.checked_sub(1),
        _ => None,
    }
}

// The name of the next member, or none at the end of the object.
fn next_name<'a>(tokens: &mut Tokens<'a>) -> Option<Option<&'a str>>
    ensures { IfSome result (λ k. read_key tokens.old.reader ≡ Some (option_map (λ s. s.now) k, tokens.new.reader)) }
{
    match tokens.reader.next_key() {
        Ok(name) => Some(name),
        Err(_) => None,
    }
}

// The members of an object up to its end.
fn members<T: FromMembers>(tokens: &mut Tokens<'_>, depth: usize) -> Option<T>
    ensures { IfSome result (λ x. TakesMembers T.FromMembers.finds depth tokens.old.reader x tokens.new.reader) }
{
    let mut found = T::nothing();
    'members: while let Some(name) = next_name(tokens)? {
        found.find(tokens, depth, name)?;
    }
    Some(found)
}

/// What is found of the members of the next value, where it is an object of members that can be found.
pub(crate) fn object<T: FromMembers>(tokens: &mut Tokens<'_>, depth: usize) -> Option<T>
    ensures { IfSome result (λ x. Takes (λ d y. IsObjectWith T.FromMembers.finds d y) depth tokens.old.reader x tokens.new.reader) }
{
    let inner = object_begins(tokens, depth)?;
    members(tokens, inner)
}
