// Objects of a document.

/// An object of a document: the whole of it, a table, or a section of a table.
#[derive(Clone, Copy)]
pub enum Object {
    Document,
    Table { table: usize },
    Section { table: usize, section: usize },
}
