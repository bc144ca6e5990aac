//! Tests of public calls: worked examples through the whole program, on values from outside what the program doesn't
//! reach, and scenes at the shared yard; and of the planner's program, rows of text, each with the words after `planner`,
//! an input, and the answer.
#![tactic(auto)]

#[cfg(test)]
mod alone;
#[cfg(test)]
mod certificates;
#[cfg(test)]
mod devices;
#[cfg(test)]
mod errors;
#[cfg(test)]
mod examples;
#[cfg(test)]
mod held;
#[cfg(test)]
mod orders;
#[cfg(test)]
mod planner_certificates;
#[cfg(test)]
mod planner_documents;
#[cfg(test)]
mod planner_entries;
#[cfg(test)]
mod planner_named;
#[cfg(test)]
mod planner_orders;
#[cfg(test)]
mod planner_plans;
#[cfg(test)]
mod planner_rows;
#[cfg(test)]
mod planner_runs;
#[cfg(test)]
mod played;
#[cfg(test)]
mod players;
#[cfg(test)]
mod refusals;
#[cfg(test)]
mod scenes;
#[cfg(test)]
mod stages;
#[cfg(test)]
mod steps;
#[cfg(test)]
mod yards;
