// The layers of a picture.
ghost use Rattle.std.specs.Prelude.{◌≡◌};
ghost use Rattle.layout_picture.specs.Drawn.{class_name};

/// Shapes that are drawn over those of the layers before.
#[derive(Clone, Copy)]
pub(crate) enum Layer {
    Ground,
    Sections,
    Stripes,
    Links,
    Circle,
    Points,
    Numbers,
    Arrows,
    Names,
    Trains,
    Legend,
    Heading,
}

/// All layers, from the back to the front.
pub(crate) const LAYERS: [Layer; 12] = [
    Layer::Ground,
    Layer::Sections,
    Layer::Stripes,
    Layer::Links,
    Layer::Circle,
    Layer::Points,
    Layer::Numbers,
    Layer::Arrows,
    Layer::Names,
    Layer::Trains,
    Layer::Legend,
    Layer::Heading,
];

/// The class of a layer.
pub(crate) fn class_of(layer: Layer) -> &'static str
    ensures { result.now ≡ class_name layer }
{
    match layer {
        Layer::Ground => "background",
        Layer::Sections => "sections",
        Layer::Stripes => "stripes",
        Layer::Links => "links",
        Layer::Circle => "circle",
        Layer::Points => "points",
        Layer::Numbers => "numbers",
        Layer::Arrows => "arrows",
        Layer::Names => "names",
        Layer::Trains => "trains",
        Layer::Legend => "legend",
        Layer::Heading => "heading",
    }
}

/// What a viewer says of a layer.
pub(crate) fn title_of(layer: Layer) -> &'static str {
    match layer {
        Layer::Ground => "ground",
        Layer::Sections => "sections",
        Layer::Stripes => "stripes of sections",
        Layer::Links => "links",
        Layer::Circle => "trains that wait for one another",
        Layer::Points => "points",
        Layer::Numbers => "numbers of sections",
        Layer::Arrows => "trains",
        Layer::Names => "names of points",
        Layer::Trains => "names of trains",
        Layer::Legend => "legend",
        Layer::Heading => "title",
    }
}
