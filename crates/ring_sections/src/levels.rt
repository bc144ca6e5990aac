// How far it is at least from each point to a goal: what a search need not look at.
ghost use Rattle.std.specs.Prelude.{◌≡◌, ℕ, ◌<◌, ◌≤◌, All, IfOk, OnOk, Some, length, sum, slice_index, false, true};
ghost use Rattle.ring_sections.specs.declared.levels.Step.{Step as StepValue};
ghost use Rattle.ring_sections.specs.Ring.{point_at};
ghost use Rattle.ring_sections.specs.Search.{IsTrainPlace, ArePointsBelow, standing as standing_at_all};
ghost use Rattle.ring_sections.specs.Levels.{IsStep, IsStepMade, MakesStep, AreStepsBelow, IsStepBelow, IsSettled, AreLevels};

use crate::placed::{next_point_of, point_of};
use crate::standing::Standing;
use rail_model::Missions;
use std::alloc::{AllocError, Global};

/// A step between two points, and a train that makes it.
#[derive(Clone, Copy)]
pub(crate) struct Step {
    pub train: u32,
    pub from: u32,
    pub to: u32,
}

// Whether a step is there between the same points, by the same train or a later one; those from a point are together.
fn is_made(steps: &[Step], step: Step) -> bool
    ensures { result ≡ true → IsStepMade steps.now step }
{
    for &other in steps.iter().rev() {
        if other.from != step.from {
            return false;
        }
        if other.to == step.to && step.train <= other.train {
            return true;
        }
    }
    false
}

// Adds the step of a pair at a point, unless one does for it.
fn add_step(
    missions: &Missions,
    pair: (u32, u32),
    from: u32,
    steps: &mut Vec<Step>,
) -> Result<(), AllocError>
    requires pair { IsTrainPlace missions.now pair }
    requires stands { point_at missions.now pair ≡ Some from }
    requires steps { All (IsStep missions.now) steps.old.items }
    ensures steps { OnOk result (All (IsStep missions.now) steps.new.items) }
    ensures kept { OnOk result ((s : StepValue) → IsStepMade steps.old.items s → IsStepMade steps.new.items s) }
    ensures made { OnOk result (MakesStep missions.now steps.new.items from pair) }
{
    let Some(to) = next_point_of(missions, pair) else {
        return Ok(());
    };
    let train = pair.0;
    let step = Step { train, from, to };
    if !is_made(steps, step) {
        steps.push(step)?;
    }
    Ok(())
}

// Adds the steps from a point, each once, by its last train: so the last pair goes first.
fn add_steps(
    missions: &Missions,
    pairs: &[(u32, u32)],
    from: u32,
    steps: &mut Vec<Step>,
) -> Result<(), AllocError>
    requires pairs { All (IsTrainPlace missions.now) pairs.now }
    requires stand { All (λ w. point_at missions.now w ≡ Some from) pairs.now }
    requires steps { All (IsStep missions.now) steps.old.items }
    ensures steps { OnOk result (All (IsStep missions.now) steps.new.items) }
    ensures kept { OnOk result ((s : StepValue) → IsStepMade steps.old.items s → IsStepMade steps.new.items s) }
    ensures made { OnOk result (All (MakesStep missions.now steps.new.items from) pairs.now) }
{
    for index in (0..pairs.len()).rev() {
        add_step(missions, pairs[index], from, steps)?;
    }
    Ok(())
}

// The steps of all trains between their points.
pub(crate) fn steps_of(
    alloc: Global,
    missions: &Missions,
    standing: &Standing,
) -> Result<Vec<Step>, AllocError>
    requires standing { standing.now ≡ standing_at_all missions.now (length standing.now) }
    requires few { length standing.now ≤ 512 }
    ensures { IfOk result (λ steps. AreStepsBelow missions.now (length standing.now) steps.items) }
{
    let mut steps = Vec::new(alloc);
    for point in 0..standing.len() as u32 {
        add_steps(missions, standing.at(point), point, &mut steps)?;
    }
    Ok(steps)
}

// Lowers the level where a step begins, if the step goes down too far. Whether it did.
fn settle_step(step: Step, above: u32, levels: &mut [u32]) -> bool
    requires { IsStepBelow (length levels.old) step }
    ensures falls { result ≡ true → sum levels.new < sum levels.old }
    ensures lower { (q : ℕ) → slice_index levels.new q ≤ slice_index levels.old q }
    ensures kept { result ≡ false → levels.new ≡ levels.old }
    ensures settled { result ≡ false → IsSettled above levels.new step }
{
    let (from, to) = (step.from as usize, step.to as usize);
    if step.train <= above || levels[from] <= levels[to] || levels[from] - levels[to] == 1 {
        return false;
    }
    levels[from] = levels[to] + 1;
    true
}

// Lowers the levels of a pass over all steps. Whether some step went down too far.
fn settle_once(steps: &[Step], above: u32, levels: &mut [u32]) -> bool
    requires { All (IsStepBelow (length levels.old)) steps.now }
    ensures falls { result ≡ true → sum levels.new < sum levels.old }
    ensures lower { (q : ℕ) → slice_index levels.new q ≤ slice_index levels.old q }
    ensures settled { result ≡ false → All (IsSettled above levels.new) steps.now }
{
    let mut falls = false;
    for &step in steps {
        if settle_step(step, above, levels) {
            falls = true;
        }
    }
    falls
}

// Lowers the levels until no step goes down too far.
fn settle(steps: &[Step], above: u32, levels: &mut [u32])
    requires { All (IsStepBelow (length levels.old)) steps.now }
    ensures lower { (q : ℕ) → slice_index levels.new q ≤ slice_index levels.old q }
    ensures settled { All (IsSettled above levels.new) steps.now }
{
    while settle_once(steps, above, levels) {}
}

// The levels of the points below `size`, at most `most`, for the circular waits that begin with a pair.
pub(crate) fn levels_of(
    alloc: Global,
    missions: &Missions,
    steps: &[Step],
    size: usize,
    first: (u32, u32),
    most: u32,
) -> Result<Vec<u32>, AllocError>
    requires steps { AreStepsBelow missions.now size steps.now }
    requires size { ArePointsBelow missions.now size }
    requires first { IsTrainPlace missions.now first }
    ensures levels { IfOk result (λ levels. AreLevels missions.now first levels.items) }
    ensures size { IfOk result (λ levels. length levels.items ≡ size) }
{
    let mut levels = vec![in alloc; most; size]?;
    if let Some(goal) = point_of(missions, first) {
        levels[goal as usize] = 0;
    }
    settle(steps, first.0, &mut levels);
    Ok(levels)
}
