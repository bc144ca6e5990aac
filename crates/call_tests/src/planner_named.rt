// Documents with the plans that they were made of.
use crate::planner_rows::is_answered_beside;
use planner_run::PlanFile;
use std::alloc::Global;

// The plan, which stands in a file.
const YARD: &str = r##"[[train]]
name = "T0"
route = ["A", "M", "N", "B"]

[[train]]
name = "T1"
route = ["C", "N", "M", "D"]

[[section]]
name = "corridor <1>"
limit = 2
points = ["M", "N"]
"##;

// Words, a document and an answer each, beside the plan. The first documents have a section behind the plan's.
const NAMED: &str = r##"explain|--at|1,0|--plan|yard.toml
{"version":3,"points":[["A",0],["M",0],["N",0],["B",0],["C",0],["D",0]],"links":[["A","M"],["M","N"],["N","B"],["C","N"],["M","D"]],"zones":1,"trains":["T0","T1"],"start":[0,0],"tables":[{"missions":[["A","M","N","B"],["C","N","M","D"]],"sections":[{"limit":2,"changes":[[0,1,0,-1],[0,1,0,-1]]},{"limit":1,"changes":[[0,1,0,-1],[0,1,0,-1]]}],"certificate":[]}]}
----
T0 is at M, place 1 of 3, and wants N: it may
T1 is at C, place 0 of 3, and wants N: section "added 1" has no room for 1 more, 1 of 1 are taken; T0 has 1
The state isn't stuck: a train may move.
====
explain|--line|ats: 206 Stuck table=0 at=1,0|--plan|yard.toml
{"version":3,"points":[["A",0],["M",0],["N",0],["B",0],["C",0],["D",0]],"links":[["A","M"],["M","N"],["N","B"],["C","N"],["M","D"]],"zones":1,"trains":["T0","T1"],"start":[0,0],"tables":[{"missions":[["A","M","N","B"],["C","N","M","D"]],"sections":[{"limit":2,"changes":[[0,1,0,-1],[0,1,0,-1]]},{"limit":1,"changes":[[0,1,0,-1],[0,1,0,-1]]}],"certificate":[]}]}
----
T0 is at M, place 1 of 3, and wants N: it may
T1 is at C, place 0 of 3, and wants N: section "added 1" has no room for 1 more, 1 of 1 are taken; T0 has 1
The state isn't stuck: a train may move.
====
layout|--plan|yard.toml
{"version":3,"points":[["A",0],["M",0],["N",0],["B",0],["C",0],["D",0]],"links":[["A","M"],["M","N"],["N","B"],["C","N"],["M","D"]],"zones":1,"trains":["T0","T1"],"start":[0,0],"tables":[{"missions":[["A","M","N","B"],["C","N","M","D"]],"sections":[{"limit":2,"changes":[[0,1,0,-1],[0,1,0,-1]]},{"limit":1,"changes":[[0,1,0,-1],[0,1,0,-1]]}],"certificate":[]}]}
----
a text with >0: section &quot;corridor &lt;1&gt;&quot;, limit 2</text>
====
lint|--plan|yard.toml
{"version":3,"points":[["A",0],["M",0],["N",0],["B",0],["C",0],["D",0]],"links":[["A","M"],["M","N"],["N","B"],["C","N"],["M","D"]],"zones":1,"trains":["T0","T1"],"start":[0,0],"tables":[{"missions":[["A","M","N","B"],["C","N","M","D"]],"sections":[{"limit":1,"changes":[[0,1,0,-1],[0,1,0,-1]]}],"certificate":[]}]}
----
the document isn't this plan's: table 0: section 0 is missing or another
====
lint|--plan|yard.toml
{"version":3,"points":[["A",0],["M",0],["N",0],["B",0],["C",0],["D",0]],"links":[["A","M"],["M","N"],["N","B"],["C","N"],["M","D"]],"zones":1,"trains":["T0","T1"],"start":[0,0],"tables":[{"missions":[["A","M","N","B"],["C","N","M","D"]],"sections":[{"limit":2,"changes":[[0,1,0,-1],[0,1,0,-1]]}],"times":[[1,1,1],[1,2,1]],"certificate":[]}]}
----
the document isn't this plan's: table 0: train "T1" has other times
====
layout|--plan|yard.toml
{"version":3,"points":[["A",0],["M",0],["N",0],["B",0],["C",0],["D",0]],"links":[["A","M"],["M","N"],["N","B"],["C","N"],["M","A"]],"zones":1,"trains":["T0","T1"],"start":[0,0],"tables":[{"missions":[["A","M","N","B"],["C","N","M","A"]],"sections":[{"limit":2,"changes":[[0,1,0,-1],[0,1,0,-1]]}],"certificate":[]}]}
----
the document isn't this plan's: table 0: train "T1" has another route
====
explain|--at|0,0|--plan|yard.toml
{"version":3,"points":[["A",0],["M",0],["N",1],["B",0],["C",0],["D",0]],"links":[["A","M"],["M","N"],["N","B"],["C","N"],["M","D"]],"zones":2,"trains":["T0","T1"],"start":[0,0],"tables":[{"missions":[["A","M","N","B"],["C","N","M","D"]],"sections":[{"limit":2,"changes":[[0,1,0,-1],[0,1,0,-1]]}],"certificate":[]}]}
----
the document isn't this plan's: it has other points, zones or links
====
lint|--plan|yard.toml
{"version":1,"note":"\ud800"}
----
document: ats refuses it: 101 NotJson
====
explain|--at|1,0|--plan|yard.toml
[[train]]
name = "T0"
route = ["A", "B"]
----
with --plan the input is a document, which begins with a brace
"##;

// A plan with a mistake.
const WRONG: &str = r##"[[train]]
name = "T0"
route = ["A", "A"]
"##;

// Whether a row's words are answered as it says, beside the plan.
fn is_right(alloc: Global, row: &str) -> bool {
    let (line, rest) = row.split_once("\n").unwrap_or((row, ""));
    let (input, says) = rest.split_once("----").unwrap_or((rest, "an answer"));
    is_answered(alloc, line, YARD, input, says)
}

// Whether words are answered so on an input, beside a plan.
fn is_answered(alloc: Global, line: &str, plan: &str, input: &str, says: &str) -> bool {
    let file = PlanFile {
        name: "yard.toml",
        text: plan.as_bytes(),
    };
    is_answered_beside(alloc, line, Some(&file), input, says)
}

#[test]
fn documents_beside_their_plan_are_answered_by_its_names(rt: HostRuntime) {
    for row in NAMED.split("\n====\n") {
        assert!(rt; is_right(rt.alloc(), row), "{row}");
    }
}

#[test]
fn mistakes_of_the_plan_have_the_name_of_its_file(rt: HostRuntime) {
    let says = r##"yard.toml: line 3: train "T0": "A" comes twice in a row"##;
    assert!(rt;
        is_answered(
            rt.alloc(),
            "layout|--plan|yard.toml",
            WRONG,
            r##"{"version":3,"points":[["A",0],["B",0]],"links":[["A","B"]],"zones":1,"trains":["T0"],"start":[0],"tables":[{"missions":[["A","B"]]}]}"##,
            says
        )
    );
}
