// The steps of trains.
ghost use Rattle.std.specs.Prelude.{◌≡◌, ◌<◌, length};
ghost use Rattle.rail_model.specs.Table.{mission};
ghost use Rattle.document_json.specs.Doc.{IsDoc, table_at};
ghost use Rattle.delayed_documents.specs.Delayed.{first_step_to, point_called};

use document_json::{Doc, layout_of, table_of};
use rail_model::{Layout, Mission};

// The name of a point, or no letters for a number that no point has.
fn name_of(layout: &Layout, point: u32) -> &str
    ensures { result.now ≡ point_called layout.now point }
{
    match layout.points().get(point as usize) {
        Some(point) => point.name(),
        None => "",
    }
}

// The first step of a way that leads to the point of that name.
fn step_of(layout: &Layout, way: &Mission, name: &str) -> Option<usize>
    ensures { result ≡ first_step_to layout.now name.now way.now }
{
    way.as_slice()
        .iter()
        .skip(1)
        .position(|point| name_of(layout, *point) == name)
}

/// The first step of a train, under a table, that leads to the point of that name.
pub(crate) fn step_to(doc: &Doc, table: u32, train: u32, name: &str) -> Option<u32>
    requires table { table < length doc.now.tables }
    requires train { train < length doc.now.trains }
    ensures step { result ≡ first_step_to doc.now.layout name.now (mission (table_at doc.now table) train) }
    ensures formed { IsDoc doc.now }
{
    let way = table_of(doc, table).missions().mission(train);
    match step_of(layout_of(doc), way, name) {
        Some(step) => Some(step as u32),
        None => None,
    }
}
