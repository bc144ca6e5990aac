// The document with a delay.
ghost use Rattle.std.specs.Prelude.{◌≡◌, IfOk, IfErr};
ghost use Rattle.delayed_documents.specs.Delayed.{IsDelayed, IsNotDelayed};

use crate::copying::times_with;
use crate::judging::{leads_to, too_long};
use crate::{Delay, NotDelayed};
use document_json::{Doc, names_of};
use std::alloc::Global;

/// The document in which a train comes to a point later: under each table, the train's first step that leads to the point takes the
/// delay's ticks more. All else is equal, so certificates stay.
///
/// # Errors
///
/// No train is called so, its way never leads to that point, or the step would take too long; or there is no memory.
pub fn delayed(alloc: Global, doc: Doc, delay: &Delay<'_>) -> Result<Doc, NotDelayed>
    ensures delayed { IfOk result (IsDelayed doc delay.now) }
    ensures refused { IfErr result (IsNotDelayed doc delay.now) }
{
    let Some(train) = names_of(&doc).train_called(delay.train.as_bytes()) else {
        return Err(NotDelayed::NoTrain);
    };
    if !leads_to(&doc, train, delay.point) {
        return Err(NotDelayed::NoPoint);
    }
    if let Some(takes) = too_long(&doc, train, delay) {
        return Err(NotDelayed::TooLong { takes });
    }
    let times = times_with(alloc, &doc, train, delay)?;
    Ok(doc.with_times(times))
}
