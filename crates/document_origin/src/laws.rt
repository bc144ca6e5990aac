// What is so of differences: a law of the definitions, with no code.
ghost use Rattle.document_origin.specs.Origin.{DifferentDocumentsAreNone};

/// A document that differs from a plan's is not of the plan.
pub fn different_documents_are_none()
    ensures { DifferentDocumentsAreNone }
{}
