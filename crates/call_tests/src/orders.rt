// The words of command lines, one space between two words, and the orders that they ask for.
use crate::examples::line;
use ats_words::{Order, WordsRefused, words};
use std::alloc::{AllocError, Global};

// A command line, and its order with three numbers, or that it is refused. The first that is refused has no word.
const LINES: &str = "\
run: Run 0 1000 1
run --: Run 0 1000 1
run --rounds 5: Run 0 5 1
run --rounds=3: Run 0 3 1
run --rounds 1000000 --workers 0: Run 0 1000000 1
run --workers=0 --rounds=0 --: Run 0 0 1
run --workers 16 --block 4: Run 16 1000 4
resume --block=2 --workers 3: Resume 3 1000 2
resume: Resume 0 1000 1
resume --rounds 0: Resume 0 0 1
check: Check 0 0 0
verify: Verify 0 0 0
migrate: Migrate 0 0 0
make: Make 1000000 0 0
make --budget 1: Make 1 0 0
derive: Derive 2 1000000 0
derive --budget 9 --most=8: Derive 8 9 0
repair: Repair 1000000 1000 0
repair --rounds 10000 --budget 1: Repair 1 10000 0
sim: Simulate 0 0 0
gen: Generate 0 2 0
gen --trains 32 --seed 4294967295: Generate 4294967295 32 0
drill --seed 7 --trains=0 --workers 0: Drill 7 0 0
drill --workers 16: Drill 0 2 16
weave: Weave 0 0 0
weave --steps=1000000 --seed 7: Weave 7 1000000 0
: refused
help: refused
--help: refused
-h: refused
--version: refused
-V: refused
run --help: refused
run -h: refused
check --version: refused
help run: refused
run --rounds +3: refused
run --rounds 03: refused
run --rounds -3: refused
run --rounds=-0: refused
run --rounds=: refused
run --rounds : refused
run --rounds 3x: refused
run --rounds 0x3: refused
run --rounds 1e3: refused
run --rounds: refused
run --workers 17: refused
run --rounds 1000001: refused
make --budget 0: refused
make --budget 1000001: refused
make --budget 4294967297: refused
resume --workers 17: refused
run --block 0: refused
run --block 5: refused
resume --block 5: refused
resume --rounds 1000001: refused
run --rounds 3 --rounds 3: refused
run --rounds=3 --rounds 4: refused
run --round 3: refused
run --Rounds 3: refused
run -rounds 3: refused
run -r 3: refused
run --=3: refused
run -: refused
run extra: refused
run run: refused
run check: refused
run -- extra: refused
-- run: refused
--: refused
run --rounds --: refused
--rounds 3 run: refused
check --rounds 3: refused
resume --budget 3: refused
ru: refused
RUN: refused
derive --most 1: refused
derive --most 9: refused
derive --budget 0: refused
derive --rounds 3: refused
repair --rounds 10001: refused
repair --most 2: refused
sim --seed 1: refused
gen --seed 4294967296: refused
gen --trains 33: refused
gen --workers 0: refused
drill --workers 17: refused
drill --block 1: refused
drill --rounds 3: refused
weave --steps 1000001: refused
weave --rounds 3: refused
weave --workers 0: refused
weaves: refused";

// An order with its numbers in the order of its fields.
struct Parts {
    name: &'static str,
    numbers: [u32; 3],
}

fn parts_of(order: Order) -> Parts {
    let (name, numbers) = match order {
        Order::Run {
            workers,
            rounds,
            block,
        } => ("Run", [workers, rounds, block]),
        Order::Resume {
            workers,
            rounds,
            block,
        } => ("Resume", [workers, rounds, block]),
        Order::Check => ("Check", [0, 0, 0]),
        Order::Verify => ("Verify", [0, 0, 0]),
        Order::Migrate => ("Migrate", [0, 0, 0]),
        Order::Make { budget } => ("Make", [budget, 0, 0]),
        Order::Derive { most, budget } => ("Derive", [most, budget, 0]),
        Order::Repair { budget, rounds } => ("Repair", [budget, rounds, 0]),
        Order::Simulate => ("Simulate", [0, 0, 0]),
        Order::Generate { seed, trains } => ("Generate", [seed, trains, 0]),
        Order::Drill {
            seed,
            trains,
            workers,
        } => ("Drill", [seed, trains, workers]),
        Order::Weave { seed, steps } => ("Weave", [seed, steps, 0]),
    };
    Parts { name, numbers }
}

// What is asked for, as text: the order's name and three numbers.
fn text_of(alloc: Global, asked: Result<Order, WordsRefused>) -> Result<String, AllocError> {
    match asked {
        Ok(order) => {
            let Parts {
                name,
                numbers: [a, b, c],
            } = parts_of(order);
            format!(in alloc; "{name} {a} {b} {c}")
        }
        Err(WordsRefused::Words) => String::from_str(alloc, "refused"),
        Err(WordsRefused::Memory) => Err(AllocError),
    }
}

// Whether a command line asks for what its row says.
fn is_asked(alloc: Global, row: &str) -> bool {
    let (asked, order) = row.split_once(": ").unwrap_or((row, ""));
    let Ok(line) = line(alloc, asked) else {
        return false;
    };
    match text_of(alloc, words(alloc, &line)) {
        Ok(text) => text.as_str() == order,
        Err(_) => false,
    }
}

#[test]
fn command_lines_ask_for_orders_or_are_refused(rt: HostRuntime) {
    for row in LINES.split('\n') {
        assert!(rt; is_asked(rt.alloc(), row), "{row}");
    }
    let empty_word = [String::new(rt.alloc())];
    assert!(rt; matches!(words(rt.alloc(), &empty_word), Err(WordsRefused::Words)));
}
