// Nodes, sections and connections, read of JSON values.
ghost use Rattle.std.specs.Prelude.{◌≡◌, IfOk, Some, None, option_and_then, Err};
ghost use Rattle.serde_json.specs.View.{view};
ghost use Rattle.document_shapes.specs.Shape.{each};
ghost use Rattle.document_shapes.specs.Shape as shape;
ghost use Rattle.document_shapes.specs.Parts as part;
ghost use Rattle.document_shapes.specs.Values.{each_whole};

use crate::from_value::{FromValue, member_called, whole};
use crate::refused::Misfit;
use rail_model::{Changes, Connection, Node, Section, TrainTimes};
use serde_json::Value;
use std::alloc::Global;

// The node that the values stand for.
fn node_of(values: &[Value]) -> Option<Node>
    ensures { result ≡ option_and_then part.node_of (each_whole values.now) }
{
    match values {
        [tag, a, b] => {
            let (tag, a, b) = (whole(tag)?, whole(a)?, whole(b)?);
            match tag {
                0 => Some(Node::Split { train: a, place: b }),
                1 => Some(Node::Clash {
                    first: a,
                    second: b,
                }),
                _ => None,
            }
        }
        [tag, a] => {
            let (tag, a) = (whole(tag)?, whole(a)?);
            match tag {
                2 => Some(Node::Overfull { section: a }),
                4 => Some(Node::Move { train: a }),
                _ => None,
            }
        }
        [tag] => if whole(tag)? == 3 {
            Some(Node::Arrived)
        } else {
            None
        },
        _ => None,
    }
}

impl FromValue for Node {
    ghost reads = { λ d n. part.node d ≡ Some n };

    ghost misfits = { λ d. part.node d ≡ None };

    fn from_value(_alloc: Global, value: &Value) -> Result<Node, Misfit> {
        let values = value.as_array().ok_or(Misfit::Shape)?;
        node_of(values.as_slice()).ok_or(Misfit::Shape)
    }
}

// The connection that the values stand for.
fn connection_of(values: &[Value]) -> Option<Connection>
    ensures { result ≡ option_and_then part.connection_of (each_whole values.now) }
{
    let [train, place, other, reached] = values else {
        return None;
    };
    let (train, place) = (whole(train)?, whole(place)?);
    let (other, reached) = (whole(other)?, whole(reached)?);
    Some(Connection::new(train, place, other, reached))
}

impl FromValue for Connection {
    ghost reads = { λ d k. part.connection d ≡ Some k };

    ghost misfits = { λ d. part.connection d ≡ None };

    fn from_value(_alloc: Global, value: &Value) -> Result<Connection, Misfit> {
        let values = value.as_array().ok_or(Misfit::Shape)?;
        connection_of(values.as_slice()).ok_or(Misfit::Shape)
    }
}

impl FromValue for TrainTimes {
    ghost reads = { λ d t. shape.list_of shape.whole d ≡ Some t };

    ghost misfits = { λ d. shape.list_of shape.whole d ≡ None };

    fn from_value(alloc: Global, value: &Value) -> Result<TrainTimes, Misfit> {
        let steps = Vec::<u32>::from_value(alloc, value)?;
        Ok(TrainTimes::from(steps))
    }
}

impl FromValue for Changes {
    ghost reads = { λ d c. shape.list_of shape.change d ≡ Some c };

    ghost misfits = { λ d. shape.list_of shape.change d ≡ None };

    fn from_value(alloc: Global, value: &Value) -> Result<Changes, Misfit> {
        let changes = Vec::<i32>::from_value(alloc, value)?;
        Ok(Changes::from(changes))
    }
}

// The changes of a section, a list for each train.
fn changes_of(alloc: Global, section: &Value) -> Result<Vec<Changes>, Misfit>
    ensures ok { IfOk result (λ v. part.changes (view section.now) ≡ Some v.items) }
    ensures err { result ≡ Err Misfit.Shape → part.changes (view section.now) ≡ None }
{
    member_called(alloc, section, "changes")
}

impl FromValue for Section {
    ghost reads = { λ d s. part.section d ≡ Some s };

    ghost misfits = { λ d. part.section d ≡ None };

    fn from_value(alloc: Global, value: &Value) -> Result<Section, Misfit> {
        let limit = value.get("limit").and_then(whole).ok_or(Misfit::Shape)?;
        let changes = changes_of(alloc, value)?;
        Ok(Section::new(limit, changes))
    }
}
