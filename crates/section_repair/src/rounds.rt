// The rounds of a repair.
ghost use Rattle.std.specs.Prelude.{◌≡◌, ◌+◌, ◌≤◌, IfOk, OnOk, length};
ghost use Rattle.rail_model.specs.State.{Legal};
ghost use Rattle.cert_maker.specs.Draft.{IsDraft};
ghost use Rattle.cert_maker.specs.Rule.{Makes};
ghost use Rattle.cert_maker.specs.declared.made.Made.TheVariants.{Stuck as stuck_at};
ghost use Rattle.forbidden_states.specs.Forbid.{marked as marked_of};
ghost use Rattle.section_repair.specs.Repairs.{treated as treated_of, Repairs};
ghost use Rattle.section_repair.specs.Rounds.{IsAfter, IsUnderWay, LeadsOn};
ghost use Rattle.section_repair.specs.Claims.{LosesNothing, IsExact, DoomsAlike};

use crate::Repair;
use crate::cores::core;
use crate::joining::{settled, stays_of};
use cert_maker::{Budget, Draft, Made, Remade, remake};
use forbidden_states::{Stays, marked};
use rail_model::{Layout, Missions, State, Table, copy_table};
use std::alloc::{AllocError, Global};

// The most sections that a table has.
const MOST_SECTIONS: usize = 64;

// The sections with one more that forbids the core of a stuck state, joined where it joins on.
fn treated(
    alloc: Global,
    table: &Table,
    sections: Vec<Stays>,
    at: &State,
) -> Result<Vec<Stays>, AllocError>
    requires legal { Legal table.now at.now }
    requires table { table.now ≡ marked_of table.now.missions sections.items }
    ensures treated { IfOk result (λ next. next.items ≡ treated_of table.now.missions sections.items at.now) }
    ensures count { IfOk result (λ next. length next.items ≤ length sections.items + 1) }
{
    let group = core(alloc, table, at)?;
    let stays = stays_of(alloc, at, &group)?;
    settled(alloc, sections, stays)
}

// A round under a budget: the sections so far and their table, after `used` states were treated; and the table of the
// round before.
#[derive(Drop)]
struct Round {
    sections: Vec<Stays>,
    table: Table,
    former: Table,
    budget: Budget,
    used: u32,
}

// What a round leads to.
#[derive(Drop)]
enum Turn {
    Next(Round),
    End(Repair),
}

// The first round, of no sections. Two tables are there at a time, this one and the former, and they take turns with two
// lists of the missions: these, and the only copy of them.
fn first_round(alloc: Global, missions: Missions, budget: Budget) -> Result<Round, AllocError>
    ensures under_way { IfOk result (IsUnderWay missions) }
    ensures budget { IfOk result (λ round. round.budget ≡ budget) }
    ensures unused { IfOk result (λ round. round.used ≡ 0) }
{
    let sections = Vec::new(alloc);
    let table = marked(alloc, missions, &sections)?;
    let former = copy_table(alloc, &table)?;
    Ok(Round {
        sections,
        table,
        former,
        budget,
        used: 0,
    })
}

// What a round leads to that found this stuck state. The next table has the missions of the former one, which isn't read
// any more.
fn treat(alloc: Global, round: Round, at: State, rounds: u32) -> Result<Turn, AllocError>
    requires under_way { IsUnderWay round.table.missions round }
    requires within { round.used ≤ rounds }
    requires stuck { Makes round.table round.budget.nodes (stuck_at at) }
    requires legal { Legal round.table at }
    ensures turn { IfOk result (LeadsOn round.table.missions round.budget.nodes rounds round.used) }
    ensures former { IfOk result (IsAfter round.table) }
{
    let Round {
        sections,
        table,
        former,
        budget,
        used,
    } = round;
    if used == rounds {
        return Ok(Turn::End(Repair::Rounds { table, rounds, at }));
    }
    let sections = treated(alloc, &table, sections, &at)?;
    if sections.len() > MOST_SECTIONS {
        let count = sections.len() as u32;
        return Ok(Turn::End(Repair::Many { table, count }));
    }
    let next = marked(alloc, former.into_missions(), &sections)?;
    Ok(Turn::Next(Round {
        sections,
        table: next,
        former: table,
        budget,
        used: used + 1,
    }))
}

// Plays a round: a certificate, the budget, the rounds or the room end it, or it treats one more state. The draft is of
// the former table, and then of the round's.
fn play(alloc: Global, round: Round, draft: &mut Draft, rounds: u32) -> Result<Turn, AllocError>
    requires under_way { IsUnderWay round.table.missions round }
    requires draft { IsDraft round.former draft.old }
    requires within { round.used ≤ rounds }
    ensures turn { IfOk result (LeadsOn round.table.missions round.budget.nodes rounds round.used) }
    ensures former { IfOk result (IsAfter round.table) }
    ensures draft { OnOk result (IsDraft round.table draft.new) }
{
    let Remade { made, draft: left } = remake(
        alloc,
        &round.table,
        round.budget,
        &round.former,
        draft,
    )?;
    *draft = left;
    match made {
        Made::Cert(cert) => Ok(Turn::End(Repair::Done {
            table: round.table,
            cert,
            rounds: round.used,
        })),
        Made::Spent { nodes } => Ok(Turn::End(Repair::Spent {
            table: round.table,
            nodes,
        })),
        Made::Stuck(at) => treat(alloc, round, at, rounds),
    }
}

// The answer: round by round a section more, until a round ends it.
fn answer(
    alloc: Global,
    missions: Missions,
    budget: Budget,
    rounds: u32,
) -> Result<Repair, AllocError>
    ensures { IfOk result (Repairs missions budget.nodes rounds) }
{
    let mut round = first_round(alloc, missions, budget)?;
    let mut draft = Draft::empty(alloc, &round.former)?;
    loop {
        match play(alloc, round, &mut draft, rounds)? {
            Turn::End(repair) => return Ok(repair),
            Turn::Next(next) => round = next,
        }
    }
}

/// The missions with sections that exclude every state that can't be completed, and a certificate of them. Each round
/// forbids the places of a smallest group of trains that are stuck, in a state that the maker finds under a budget of
/// nodes. Without a certificate it ends where the budget is spent, where `rounds` states were treated and another is
/// stuck, or where there is no room for a section.
///
/// The answer is a function of the missions, the budget and the rounds. The only error is that there is no memory; the
/// missions are dropped then.
pub fn repair(
    alloc: Global,
    _layout: &Layout,
    missions: Missions,
    budget: Budget,
    rounds: u32,
) -> Result<Repair, AllocError>
    ensures repairs { IfOk result (Repairs missions budget.nodes rounds) }

    ensures loses_nothing { IfOk result (LosesNothing missions) }
    ensures exact { IfOk result (IsExact missions) }
    ensures dooms { IfOk result (DoomsAlike missions) }
{
    answer(alloc, missions, budget, rounds)
}
