// What the laws of orders say of a document: a law of the definitions, with no code.
ghost use Rattle.document_json.specs.Doc.{Doc as DocValue, IsDoc, offers_of};
ghost use Rattle.reached_states.specs.Reached.{AreOffered};

/// The tables of a document are offered from its start. So the laws of `order_sections` hold of it and of the document with orders.
pub fn documents_are_offered()
    ensures { (D : DocValue) → IsDoc D → AreOffered (offers_of D) D.start }
{}
