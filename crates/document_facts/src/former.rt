// Sections of a former document that are gone.
ghost use Rattle.std.specs.Prelude.{◌≡◌, ◌<◌, ◌↔◌, IsTrue, length};
ghost use Rattle.rail_model.specs.Table.{section as section_of};
ghost use Rattle.document_facts.specs.Adding.{Adds, Is};
ghost use Rattle.document_facts.specs.Facts.{IsSectionOf};
ghost use Rattle.document_facts.specs.Former.{HoldsSince, IsGone, IsThere, OfLost, OfLostIn};
ghost use Rattle.document_facts.specs.declared.fact.Fact.TheVariants.{SectionLost};

use crate::fact::Fact;
use crate::found::Found;
use crate::same::has_section;
use document_json::{Doc, table_of, tables_of};
use rail_model::{Section, Table, sections_of};

// A section of a table.
fn section_at(table: &Table, section: u32) -> &Section
    requires { section < length table.now.sections }
    ensures { result.now ≡ section_of table.now section }
{
    &table.sections()[section as usize]
}

// Whether a table of a document, if it is there, has a section.
fn has_there(doc: &Doc, table: u32, section: &Section) -> bool
    ensures { IsTrue result ↔ IsThere doc.now table section.now }
{
    table < tables_of(doc) && has_section(table_of(doc, table), section)
}

// Whether no table of the same number has a section of a table of the former document.
fn is_gone(doc: &Doc, former: &Doc, table: u32, section: u32) -> bool
    requires { IsSectionOf former.now table section }
    ensures { IsTrue result ↔ IsGone doc.now former.now table section }
{
    !has_there(doc, table, section_at(table_of(former, table), section))
}

// Finds that a section of the former document is gone, if it is.
fn find_gone(found: &mut Found, doc: &Doc, former: &Doc, table: u32, section: u32)
    requires { IsSectionOf former.now table section }
    ensures { Adds (HoldsSince doc.now former.now) (Is (HoldsSince doc.now former.now) (SectionLost table section)) found.old found.new }
{
    found.add_if(
        is_gone(doc, former, table, section),
        Fact::SectionLost { table, section },
    );
}

// Finds which sections of a table of the former document are gone.
fn find_gone_in(found: &mut Found, doc: &Doc, former: &Doc, table: u32)
    requires { table < length former.now.tables }
    ensures { Adds (HoldsSince doc.now former.now) (OfLostIn doc.now former.now table) found.old found.new }
{
    for section in 0..sections_of(table_of(former, table)) {
        find_gone(found, doc, former, table, section);
    }
}

/// Finds which sections of the former document are in no table of the same number.
pub fn find_lost(found: &mut Found, doc: &Doc, former: &Doc)
    ensures { Adds (HoldsSince doc.now former.now) (OfLost doc.now former.now) found.old found.new }
{
    for table in 0..tables_of(former) {
        find_gone_in(found, doc, former, table);
    }
}
