// What holds of every repair: laws of the definitions, with no code.
ghost use Rattle.section_repair.specs.Claims.{ClosuresAreLeast, EachRoundLosesNothing, RepairIsUnique, WaitsAgree};

/// In a legal state a train waits for another exactly where the answer to its request says so; and the closure of a train is the
/// least group that holds it and all that its members wait for.
pub fn closures_are_least()
    ensures waits { WaitsAgree }
    ensures least { ClosuresAreLeast }
{}

/// Each section that any round made forbids only states that can't be completed, also one that was joined away or that
/// there was no room for.
pub fn each_round_loses_nothing()
    ensures { EachRoundLosesNothing }
{}

/// Missions, a budget and a number of rounds have at most one answer.
pub fn each_repair_has_one_answer()
    ensures { RepairIsUnique }
{}
