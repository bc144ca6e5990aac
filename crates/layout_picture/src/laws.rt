// What is so of red trains: a law of the definitions, with no code.
ghost use Rattle.layout_picture.specs.Red.{StuckStatesHaveRed};

/// In a stuck state a train that hasn't arrived is red.
pub fn stuck_states_have_red()
    ensures { StuckStatesHaveRed }
{}
