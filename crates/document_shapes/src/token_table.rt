// A table's members, read of the tokens of a text.
use crate::TableMembers;
use crate::from_members::{FromMembers, object};
use crate::from_tokens::{FromTokens, Tokens, read_into};
use rail_model::{Connection, Node, Section, TrainTimes};

// What is found of a table's members.
#[derive(Default, Drop)]
struct FoundTable {
    missions: Option<Vec<Vec<String>>>,
    exits: Option<Vec<bool>>,
    sections: Option<Vec<Section>>,
    connections: Option<Vec<Connection>>,
    certificate: Option<Vec<Node>>,
    times: Option<Vec<TrainTimes>>,
    after: Option<u32>,
}

impl FromMembers for FoundTable {
    ghost use Rattle.document_shapes.specs.TableFound.{TableFinds};

    ghost finds = { TableFinds };

    fn nothing() -> FoundTable {
        FoundTable::default()
    }

    fn find(&mut self, tokens: &mut Tokens<'_>, depth: usize, name: &str) -> Option<()> {
        match name {
            "missions" => read_into(&mut self.missions, tokens, depth),
            "exits" => read_into(&mut self.exits, tokens, depth),
            "sections" => read_into(&mut self.sections, tokens, depth),
            "connections" => read_into(&mut self.connections, tokens, depth),
            "certificate" => read_into(&mut self.certificate, tokens, depth),
            "times" => read_into(&mut self.times, tokens, depth),
            "after" => read_into(&mut self.after, tokens, depth),
            _ => None,
        }
    }
}

impl FromTokens for TableMembers {
    ghost use Rattle.document_shapes.specs.TableRead.{ReadsTable};

    ghost reads = { ReadsTable };

    fn from_tokens(tokens: &mut Tokens<'_>, depth: usize) -> Option<TableMembers> {
        let found: FoundTable = object(tokens, depth)?;
        let FoundTable {
            missions,
            exits,
            sections,
            connections,
            certificate,
            times,
            after,
        } = found;
        let missions = missions?;
        Some(TableMembers {
            missions,
            exits,
            sections,
            connections,
            certificate,
            times,
            after,
        })
    }
}
