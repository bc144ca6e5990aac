// Whether a table has a section.
ghost use Rattle.std.specs.Prelude.{◌↔◌, IsTrue, Contains};

use rail_model::{Section, Table};

/// Whether a table has a section like this one.
pub fn has_section(table: &Table, section: &Section) -> bool
    ensures { IsTrue result ↔ Contains table.now.sections section.now }
{
    table.sections().iter().any(|other| other.is_same(section))
}
