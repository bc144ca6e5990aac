// What holds of every document: laws of the definitions, with no code.
ghost use Rattle.std.specs.Prelude.{◌≡◌, ◌≤◌, ℕ, List, Ok};
ghost use Rattle.rail_model.specs.Certificate.{Tree};
ghost use Rattle.rail_model.specs.Table.{Table as TableValue};
ghost use Rattle.document_json.specs.Doc.{Doc as DocValue, IsDoc};
ghost use Rattle.document_json.specs.Keeps.{IsTaken};
ghost use Rattle.document_json.specs.Reading.{doc_of};
ghost use Rattle.document_json.specs.Replaced.{replaced, IsRemarked};

/// Nothing of a document is refused where its sections are replaced by light ones and the start stays legal.
pub fn light_sections_are_taken()
    ensures { (D : DocValue) (parts : List (TableValue × Tree)) → IsTaken D → IsRemarked D parts → IsTaken (replaced D parts) }
{}

/// A document that bytes are is formed, and nothing of its own members is refused.
pub fn read_documents_are_formed()
    ensures formed { (bytes : List ℕ) (D : DocValue) → doc_of bytes ≡ Ok D → IsDoc D }
    ensures taken { (bytes : List ℕ) (D : DocValue) → doc_of bytes ≡ Ok D → IsTaken D }
    ensures first { (bytes : List ℕ) (D : DocValue) → doc_of bytes ≡ Ok D → 1 ≤ D.version }
    ensures last { (bytes : List ℕ) (D : DocValue) → doc_of bytes ≡ Ok D → D.version ≤ 3 }
{}
