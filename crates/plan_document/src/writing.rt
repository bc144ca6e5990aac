// The text of the document of a plan.
ghost use Rattle.std.specs.Prelude.{◌≡◌, IfOk, Ok};
ghost use Rattle.document_shapes.specs.Raw.{members_of};
ghost use Rattle.document_shapes.specs.Written.{text_of};
ghost use Rattle.plan_document.specs.Written.{document_of};

use crate::Plan;
use crate::members::members;
use document_shapes::write_document;
use std::alloc::{AllocError, Global};

/// The text of the document of a plan, in version 3, with empty certificates: compact JSON and a newline.
pub fn written(alloc: Global, plan: Plan) -> Result<Vec<u8>, AllocError>
    ensures text { IfOk result (λ b. b.items ≡ text_of (document_of plan)) }
    ensures members { IfOk result (λ b. members_of b.items ≡ Ok (document_of plan)) }
{
    let members = members(alloc, plan)?;
    write_document(alloc, &members)
}
