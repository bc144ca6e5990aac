// What cores and guards mean: laws of the definitions, with no code.
ghost use Rattle.state_core.specs.Core.{CoreIsTested, CoresStay, CoresAreLost, StuckStatesHaveCores};
ghost use Rattle.state_core.specs.Guard.{CoresAreGuards, GuardsForbidTheirStays, GuardsLoseNothing, GuardsAddUp};
ghost use Rattle.state_core.specs.Trap.{TrapsAreGuards};

/// No run moves a train of a core, so from a state that has one not all trains can arrive.
pub fn cores_stay_for_ever()
    ensures tested { CoreIsTested }
    ensures stay { CoresStay }
    ensures lost { CoresAreLost }
{}

/// All trains of a stuck state are a core of it.
pub fn stuck_states_have_cores()
    ensures { StuckStatesHaveCores }
{}

/// The trains of a core at their places are a guard. Its section forbids exactly the states that have them there, from
/// which not all trains can arrive; from every other state all can arrive with guards exactly where they can without.
pub fn guards_lose_nothing()
    ensures cores { CoresAreGuards }
    ensures stays { GuardsForbidTheirStays }
    ensures lossless { GuardsLoseNothing }
    ensures add_up { GuardsAddUp }
{}

/// No run leads out of a trap, so it is a guard.
pub fn traps_are_guards()
    ensures { TrapsAreGuards }
{}
