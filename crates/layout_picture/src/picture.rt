// The whole picture.
ghost use Rattle.std.specs.Prelude.{◌≡◌, ◌<◌, ◌++◌, ◌∷◌, [], IfOk, OnOk, codes, decimal, length};
ghost use Rattle.std.specs.List.{AllZip};
ghost use Rattle.layout_frame.specs.Spots.{painted};
ghost use Rattle.state_sentences.specs.Knot.{IsKnotOrNone};
ghost use Rattle.layout_picture.specs.Drawn.{IsDrawn, IsLayer, Shows, ground_of, layers, subject_of};

use crate::circles::circles_of;
use crate::layers::{LAYERS, Layer, class_of, title_of};
use crate::reds::{knot_of, looks_of};
use crate::sections::{inside_of, push_areas, push_stripes};
use crate::tracks::{push_dots, push_links};
use crate::trains::{push_arrows, push_waits};
use layout_frame::{
    View, frame_of, push_label, push_legend, push_numbers, push_point_names, push_shape,
    push_train_names,
};
use rail_model::Layout;
use state_sentences::Scene;
use std::alloc::{AllocError, Global};
use svg_text::{Group, Picture, Shape, Spot};

// How the groups look.
const STYLE: &str =
    "svg{font-family:sans-serif;font-size:12px;fill:#1f2933} .background{fill:#fff} .names,.trains{paint-order:stroke;stroke:#fff;stroke-width:3px;stroke-linejoin:round} .sections,.stripes{fill:none} .sections{stroke-linecap:round;stroke-linejoin:round} .sections path,.stripes path,.legend path{opacity:.38} .legend path{stroke-width:14} .links{fill:none;stroke:#5b6770;stroke-width:3} .circle{fill:none;stroke:#d00000;stroke-width:6} .points{fill:#fff;stroke:#1f2933;stroke-width:2} .numbers{font-size:10.5px;fill:#3d474f;paint-order:stroke;stroke:#fff;stroke-width:2px} .arrows{stroke:#fff;stroke-width:1.5;stroke-linejoin:round} .trains,.heading{font-weight:bold} .heading{font-size:15px}";

// Gives a ground the size of a picture.
fn widen(ground: &mut Shape, view: &View) -> Result<(), AllocError>
    ensures { OnOk result (ground.new ≡ painted (painted ground.old (codes "width") (decimal view.now.frame.now.grid.width))
        (codes "height") (decimal view.now.frame.now.height)) }
{
    ground.set_number(view.alloc, "width", view.frame.grid.width)?;
    ground.set_number(view.alloc, "height", view.frame.height)
}

// Adds a white ground.
fn push_ground(shapes: &mut Vec<Shape>, view: &View) -> Result<(), AllocError>
    ensures { OnOk result (shapes.new.items ≡ shapes.old.items
        ++ ground_of view.now.frame.now.grid.width view.now.frame.now.height ∷ []) }
{
    let mut ground = Shape::new(view.alloc, "rect", "")?;
    widen(&mut ground, view)?;
    push_shape(shapes, ground)
}

// Draws a layer.
fn draw(shapes: &mut Vec<Shape>, view: &View, layer: Layer) -> Result<(), AllocError>
    requires { shapes.old.items ≡ [] }
    ensures { OnOk result (Shows (subject_of view.now) layer shapes.new.items) }
{
    match layer {
        Layer::Ground => push_ground(shapes, view),
        Layer::Sections => push_areas(shapes, view),
        Layer::Stripes => push_stripes(shapes, view),
        Layer::Links => push_links(shapes, view, view.layout.links()),
        Layer::Circle => push_waits(shapes, view),
        Layer::Points => push_dots(shapes, view.alloc, &view.frame.spots),
        Layer::Numbers => push_numbers(shapes, view),
        Layer::Arrows => push_arrows(shapes, view),
        Layer::Names => push_point_names(shapes, view),
        Layer::Trains => push_train_names(shapes, view),
        Layer::Legend => push_legend(shapes, view),
        Layer::Heading => push_label(shapes, view.alloc, Spot { x: 20, y: 28 }, view.title),
    }
}

// The group of a layer.
fn group_of(view: &View, layer: Layer) -> Result<Group, AllocError>
    ensures { IfOk result (IsLayer (subject_of view.now) layer) }
{
    let mut shapes = Vec::new(view.alloc);
    draw(&mut shapes, view, layer)?;
    Group::with(view.alloc, class_of(layer), title_of(layer), shapes)
}

// The groups of all layers, from the back to the front.
fn groups_of(view: &View) -> Result<Vec<Group>, AllocError>
    ensures { IfOk result (λ groups. AllZip (IsLayer (subject_of view.now)) layers groups.items) }
{
    let mut groups = Vec::new(view.alloc);
    for layer in &LAYERS {
        groups.push(group_of(view, *layer)?)?;
    }
    Ok(groups)
}

// A picture in a frame.
fn drawn(view: &View) -> Result<Picture, AllocError>
    requires wide { 0 < view.now.frame.now.grid.width }
    requires high { 0 < view.now.frame.now.height }
    requires each { length view.now.frame.now.spots.items ≡ length view.now.layout.now.points }
    requires knot { IsKnotOrNone view.now.scene.now.table.now view.now.scene.now.state.now view.now.knot.now }
    ensures { IfOk result (λ picture. IsDrawn view.now.layout.now view.now.sections.now view.now.scene.now.table.now view.now.scene.now.state.now
        picture.width picture.height picture.groups) }
{
    let groups = groups_of(view)?;
    let width = view.frame.grid.width;
    let height = view.frame.height;
    Picture::new(view.alloc, width, height, view.title, STYLE, groups)
}

/// A picture of a layout, of the sections of a scene, which have these names, and of its trains.
pub(crate) fn drawing(
    alloc: Global,
    layout: &Layout,
    scene: &Scene,
    sections: &[String],
    title: &str,
) -> Result<Picture, AllocError>
    ensures { IfOk result (λ picture. IsDrawn layout.now sections.now scene.now.table.now scene.now.state.now
        picture.width picture.height picture.groups) }
{
    let knot = knot_of(alloc, scene, circles_of(alloc, scene)?)?;
    let looks = looks_of(scene, &knot);
    let inside = inside_of(layout, scene.table);
    let frame = frame_of(alloc, layout, scene, sections, &looks)?;
    let view = View {
        alloc,
        layout,
        scene,
        sections,
        knot: &knot,
        looks: &looks,
        inside: &inside,
        frame: &frame,
        title,
    };
    drawn(&view)
}
