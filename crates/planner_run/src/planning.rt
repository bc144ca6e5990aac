// The document of a plan.
ghost use Rattle.std.specs.Prelude.{IfOk};
ghost use Rattle.plan_crossed.specs.Read.{IsCrossedRead};
ghost use Rattle.plan_reading.specs.declared.reading.PlanRead.TheVariants.{Plan as AsPlan};
ghost use Rattle.planner_run.specs.Answered.{IsPlanning};

use crate::Answer;
use plan_crossed::read_crossed_plan;
use plan_document::Plan;
use plan_input::{Compiled, compile, fault_lines};
use plan_reading::PlanRead;
use plan_suspects::remarks;
use std::alloc::{AllocError, Global};

/// The document of the plan that a text is, with a remark on each point that is probably mistyped, or all that is wrong with the plan. Each
/// remark and each mistake has its line.
pub(crate) fn plan(alloc: Global, text: &[u8]) -> Result<Answer, AllocError>
    ensures { IfOk result (IsPlanning text.now) }
{
    match read_crossed_plan(alloc, text)? {
        PlanRead::Plan(plan) => planned(alloc, text, plan),
        PlanRead::Faults(faults) => Ok(Answer::Wrong(fault_lines(alloc, "", &faults)?)),
    }
}

// The document of a plan that was read of a text, if it reads as one, and remarks on the plan.
fn planned(alloc: Global, text: &[u8], plan: Plan) -> Result<Answer, AllocError>
    requires { IsCrossedRead text.now (AsPlan plan) }
    ensures { IfOk result (IsPlanning text.now) }
{
    let remarks = remarks(alloc, text, &plan)?;
    match compile(alloc, text, plan)? {
        Compiled::Document(document) => if remarks.is_empty() {
            Ok(Answer::Text(document))
        } else {
            Ok(Answer::Noted(document, fault_lines(alloc, "remark: ", &remarks)?))
        },
        Compiled::Refused(line) => Ok(Answer::Wrong(line)),
    }
}
