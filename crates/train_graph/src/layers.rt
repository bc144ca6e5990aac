// The layers of a picture.
ghost use Rattle.std.specs.Prelude.{◌≡◌};
ghost use Rattle.train_graph.specs.Layers.{class_of as class_name};

/// Shapes that are drawn over those of the layers before.
#[derive(Clone, Copy)]
pub(crate) enum Layer {
    Paper,
    Ticks,
    Points,
    Tables,
    Blocks,
    Stays,
    Waits,
    Moves,
    Starts,
    Ends,
    Legend,
}

/// All layers, from the back to the front.
pub(crate) const LAYERS: [Layer; 11] = [
    Layer::Paper,
    Layer::Ticks,
    Layer::Points,
    Layer::Tables,
    Layer::Blocks,
    Layer::Stays,
    Layer::Waits,
    Layer::Moves,
    Layer::Starts,
    Layer::Ends,
    Layer::Legend,
];

/// The class of a layer.
pub(crate) fn class_of(layer: Layer) -> &'static str
    ensures { result.now ≡ class_name layer }
{
    match layer {
        Layer::Paper => "paper",
        Layer::Ticks => "ticks",
        Layer::Points => "points",
        Layer::Tables => "table",
        Layer::Blocks => "block",
        Layer::Stays => "stay",
        Layer::Waits => "wait",
        Layer::Moves => "moves",
        Layer::Starts => "start",
        Layer::Ends => "end",
        Layer::Legend => "legend",
    }
}

/// What a viewer says of a layer.
pub(crate) fn title_of(layer: Layer) -> &'static str {
    match layer {
        Layer::Paper => "paper",
        Layer::Ticks => "ticks",
        Layer::Points => "points",
        Layer::Tables => "tables that take over",
        Layer::Blocks => "points that are taken",
        Layer::Stays => "trains that have arrived",
        Layer::Waits => "trains that wait",
        Layer::Moves => "moves",
        Layer::Starts => "where trains begin",
        Layer::Ends => "where trains end",
        Layer::Legend => "legend",
    }
}
