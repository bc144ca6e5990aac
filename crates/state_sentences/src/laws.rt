// What is so of each text: a law of the definitions, with no code.
ghost use Rattle.state_sentences.specs.Tells.{StuckStatesHaveKnots};

/// Of a stuck state a text tells a knot.
pub fn stuck_states_have_knots()
    ensures { StuckStatesHaveKnots }
{}
