// Nodes, connections, times and sections, read of the tokens of a text.
ghost use Rattle.std.specs.Prelude.{◌≡◌, OnSome, Some};
ghost use Rattle.json.specs.Json.{after_end_array};
ghost use Rattle.document_shapes.specs.Parts as part;
ghost use Rattle.document_shapes.specs.Shape as shape;

use crate::from_members::{FromMembers, object};
use crate::from_tokens::{FromTokens, Tokens, list_begins, read_into};
use rail_model::{Changes, Connection, Node, Section, TrainTimes};

// Takes the end of a list, where it is next.
fn list_ends(tokens: &mut Tokens<'_>) -> Option<()>
    ensures { OnSome result (after_end_array tokens.old.reader ≡ Some tokens.new.reader) }
{
    if tokens.reader.take_end_array() {
        Some(())
    } else {
        None
    }
}

impl FromTokens for Node {
    ghost reads = { λ d n. part.node d ≡ Some n };

    fn from_tokens(tokens: &mut Tokens<'_>, depth: usize) -> Option<Node> {
        let inner = list_begins(tokens, depth)?;
        match u32::from_tokens(tokens, inner)? {
            0 => {
                let train = u32::from_tokens(tokens, inner)?;
                let place = u32::from_tokens(tokens, inner)?;
                list_ends(tokens)?;
                Some(Node::Split { train, place })
            }
            1 => {
                let first = u32::from_tokens(tokens, inner)?;
                let second = u32::from_tokens(tokens, inner)?;
                list_ends(tokens)?;
                Some(Node::Clash { first, second })
            }
            2 => {
                let section = u32::from_tokens(tokens, inner)?;
                list_ends(tokens)?;
                Some(Node::Overfull { section })
            }
            3 => {
                list_ends(tokens)?;
                Some(Node::Arrived)
            }
            4 => {
                let train = u32::from_tokens(tokens, inner)?;
                list_ends(tokens)?;
                Some(Node::Move { train })
            }
            _ => None,
        }
    }
}

impl FromTokens for Connection {
    ghost reads = { λ d k. part.connection d ≡ Some k };

    fn from_tokens(tokens: &mut Tokens<'_>, depth: usize) -> Option<Connection> {
        let inner = list_begins(tokens, depth)?;
        let train = u32::from_tokens(tokens, inner)?;
        let place = u32::from_tokens(tokens, inner)?;
        let other = u32::from_tokens(tokens, inner)?;
        let reached = u32::from_tokens(tokens, inner)?;
        list_ends(tokens)?;
        Some(Connection::new(train, place, other, reached))
    }
}

impl FromTokens for TrainTimes {
    ghost reads = { λ d t. shape.list_of shape.whole d ≡ Some t };

    fn from_tokens(tokens: &mut Tokens<'_>, depth: usize) -> Option<TrainTimes> {
        let steps = Vec::<u32>::from_tokens(tokens, depth)?;
        Some(TrainTimes::from(steps))
    }
}

impl FromTokens for Changes {
    ghost reads = { λ d c. shape.list_of shape.change d ≡ Some c };

    fn from_tokens(tokens: &mut Tokens<'_>, depth: usize) -> Option<Changes> {
        let changes = Vec::<i32>::from_tokens(tokens, depth)?;
        Some(Changes::from(changes))
    }
}

// What is found of a section's members.
#[derive(Default, Drop)]
struct FoundSection {
    limit: Option<u32>,
    changes: Option<Vec<Changes>>,
}

impl FromMembers for FoundSection {
    ghost use Rattle.document_shapes.specs.SectionFound.{SectionFinds};

    ghost finds = { SectionFinds };

    fn nothing() -> FoundSection {
        FoundSection::default()
    }

    fn find(&mut self, tokens: &mut Tokens<'_>, depth: usize, name: &str) -> Option<()> {
        match name {
            "limit" => read_into(&mut self.limit, tokens, depth),
            "changes" => read_into(&mut self.changes, tokens, depth),
            _ => None,
        }
    }
}

impl FromTokens for Section {
    ghost reads = { λ d s. part.section d ≡ Some s };

    fn from_tokens(tokens: &mut Tokens<'_>, depth: usize) -> Option<Section> {
        let found: FoundSection = object(tokens, depth)?;
        let FoundSection { limit, changes } = found;
        let limit = limit?;
        let changes = changes?;
        Some(Section::new(limit, changes))
    }
}
