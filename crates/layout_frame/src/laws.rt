// How areas are told apart: a law of the definitions, with no code.
ghost use Rattle.layout_frame.specs.Looks.{AreasLookDifferent};

/// Up to the 32nd section, no two sections have both the same colour and the same stripes.
pub fn areas_look_different()
    ensures { AreasLookDifferent }
{}
