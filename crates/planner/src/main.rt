//! The program `planner`: its words, the standard streams, the files of `--before`, `--with`, `--plan` and `--journal`, and progress on a
//! terminal, handed to the calls of `planner_run`.
#![tactic(auto)]

mod progress;

use crate::progress::Progress;
use ats_io::{Reading, Writing, read_all};
use planner_run::{MOST_BYTES, PlanFile, Status, Stop, code, end_unread, serve, turn_down};
use planner_words::{Order, words};
use std::fs::File;
use std::io::Read;
use std::process::ExitCode;
use std::{env, io};

// The words after the program's name.
fn line(rt: &HostRuntime) -> io::Result<Vec<String>> {
    let mut line = Vec::new(rt.alloc());
    for word in env::args(rt)?.skip(1) {
        line.push(word)?;
    }
    Ok(line)
}

// What a file holds, if it can be read and isn't too long.
fn content(rt: &HostRuntime, path: &str) -> Option<Vec<u8>> {
    let file = File::open(rt, path).ok()?;
    read_all(rt.alloc(), &mut Reading::new(file), MOST_BYTES).ok()
}

// Answers an order on what a reader has, and on a former document and a plan if there are any.
fn answer<R: Read + Drop>(
    rt: &HostRuntime,
    order: &Order<'_>,
    former: Option<&[u8]>,
    plan: Option<&PlanFile<'_>>,
    input: R,
) -> Status {
    let mut source = Reading::new(input);
    let mut out = Writing::new(rt.stdout());
    let mut err = Writing::new(rt.stderr());
    let progress = Progress::new(rt);
    serve(
        rt.alloc(),
        order,
        former,
        plan,
        &mut source,
        &mut out,
        &mut err,
        &progress,
    )
}

// What is written between a document and the lines of a run.
const JOURNAL: &[u8] = b"\njournal\n";

// Answers an order that names a file with a plan, or none.
fn answer_with_plan(
    rt: &HostRuntime,
    order: &Order<'_>,
    former: Option<&[u8]>,
    path: Option<&str>,
) -> Status {
    let Some(name) = path else {
        return answer(rt, order, former, None, rt.stdin());
    };
    match content(rt, name) {
        Some(text) => {
            let file = PlanFile { name, text: &text };
            answer(rt, order, former, Some(&file), rt.stdin())
        }
        None => end_unread(Stop::Plan, &mut Writing::new(rt.stderr())),
    }
}

// Answers an order that names a file with a former document, or with another run, and one with a plan or none.
fn answer_with_former(
    rt: &HostRuntime,
    order: &Order<'_>,
    path: &str,
    stop: Stop,
    plan: Option<&str>,
) -> Status {
    match content(rt, path) {
        Some(former) => answer_with_plan(rt, order, Some(&former), plan),
        None => end_unread(stop, &mut Writing::new(rt.stderr())),
    }
}

// Answers an order that names a file with the lines of a run: they stand behind the document of standard input.
fn answer_with_journal(rt: &HostRuntime, order: &Order<'_>, path: &str) -> Status {
    match content(rt, path) {
        Some(lines) => {
            let input = rt.stdin().chain(JOURNAL).chain(lines.as_slice());
            answer(rt, order, None, None, input)
        }
        None => end_unread(Stop::Journal, &mut Writing::new(rt.stderr())),
    }
}

// Answers an order, with the files that it names.
fn answer_order(rt: &HostRuntime, order: &Order<'_>) -> Status {
    match *order {
        Order::Lint {
            before: Some(path),
            plan,
        } => answer_with_former(rt, order, path, Stop::Former, plan),
        Order::CompareWith { other, .. } => answer_with_former(rt, order, other, Stop::Other, None),
        Order::Lint { before: None, plan }
        | Order::ExplainState { plan, .. }
        | Order::ExplainLine { plan, .. }
        | Order::Layout { plan, .. } => answer_with_plan(rt, order, None, plan),
        Order::OrderByRun {
            journal: Some(path),
            ..
        }
        | Order::Timetable {
            journal: Some(path),
            ..
        }
        | Order::Graph {
            journal: Some(path),
            ..
        }
        | Order::Report {
            journal: Some(path),
            ..
        } => answer_with_journal(rt, order, path),
        _ => answer(rt, order, None, None, rt.stdin()),
    }
}

// Answers the words of a command line.
fn answer_words(rt: &HostRuntime, line: &[String]) -> Status {
    match words(rt.alloc(), line) {
        Ok(order) => answer_order(rt, &order),
        Err(answered) => turn_down(
            &answered,
            &mut Writing::new(rt.stdout()),
            &mut Writing::new(rt.stderr()),
        ),
    }
}

fn main(rt: HostRuntime) -> ExitCode {
    let status = match line(&rt) {
        Ok(line) => answer_words(&rt, &line),
        Err(_) => end_unread(Stop::Words, &mut Writing::new(rt.stderr())),
    };
    ExitCode::from(code(status))
}
