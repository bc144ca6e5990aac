// A member, in its shape.
ghost use Rattle.std.specs.Prelude.{◌≡◌, ◌⊎◌, IfOk, IfErr, Some};
ghost use Rattle.serde_json.specs.View.{view};
ghost use Rattle.document_shapes.specs.Members.{name_of};
ghost use Rattle.document_shapes.specs.Readings.{ReadsAt, MisfitsAt, ReadsGiven, MisfitsGiven};

use crate::from_value::{FromValue, member_called};
use crate::refused::Misfit;
use crate::{Member, ShapeRefused};
use serde_json::Value;
use std::alloc::Global;

// The refusal of a member.
fn refusal(misfit: Misfit, table: Option<usize>, member: Member) -> ShapeRefused
    ensures shape { misfit ≡ Misfit.Shape → result ≡ ShapeRefused.Shape table member }
    ensures memory { misfit ≡ Misfit.Memory → result ≡ ShapeRefused.Memory }
{
    match misfit {
        Misfit::Shape => ShapeRefused::Shape { table, member },
        Misfit::Memory => ShapeRefused::Memory,
    }
}

/// A member that has to be there, of the document or of a table.
pub(crate) fn needed<T: FromValue>(
    alloc: Global,
    value: &Value,
    table: Option<usize>,
    member: Member,
) -> Result<T, ShapeRefused>
    ensures ok { IfOk result (λ x. ReadsAt T.FromValue.reads (name_of member) (view value.now) x) }
    ensures err { IfErr result (λ e. (e ≡ ShapeRefused.Memory)
        ⊎ ((e ≡ ShapeRefused.Shape table member) × MisfitsAt T.FromValue.misfits (name_of member) (view value.now))) }
{
    match member_called(alloc, value, member.name()) {
        Ok(item) => Ok(item),
        Err(misfit) => Err(refusal(misfit, table, member)),
    }
}

/// A member of a table that may be missing.
pub(crate) fn given<T: FromValue>(
    alloc: Global,
    value: &Value,
    table: usize,
    member: Member,
) -> Result<Option<T>, ShapeRefused>
    ensures ok { IfOk result (λ o. ReadsGiven T.FromValue.reads (name_of member) (view value.now) o) }
    ensures err { IfErr result (λ e. (e ≡ ShapeRefused.Memory)
        ⊎ ((e ≡ ShapeRefused.Shape (Some table) member) × MisfitsGiven T.FromValue.misfits (name_of member) (view value.now))) }
{
    match value.get(member.name()) {
        Some(found) => match T::from_value(alloc, found) {
            Ok(item) => Ok(Some(item)),
            Err(misfit) => Err(refusal(misfit, Some(table), member)),
        },
        None => Ok(None),
    }
}
