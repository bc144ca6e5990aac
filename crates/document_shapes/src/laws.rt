// What holds of every document's members: a law of the definitions, with no code.
ghost use Rattle.std.specs.Prelude.{◌≡◌, Ok};
ghost use Rattle.document_shapes.specs.InRange.{InRange};
ghost use Rattle.document_shapes.specs.Raw.{DocMembers as DocMembersValue, IsRead, members_of};
ghost use Rattle.document_shapes.specs.Written.{text_of};

/// The text of members that are in range, and of a version that has them, reads as these members.
pub fn written_members_read_back()
    ensures { (members : DocMembersValue) → IsRead members → InRange members → members_of (text_of members) ≡ Ok members }
{}
