// Plans, and the documents or the faults that they are answered with.
use crate::planner_rows::is_answered;
use std::alloc::{AllocError, Global};

// Words, a plan and an answer each: a document, with a remark if a point is probably mistyped, or a line for each mistake.
pub(crate) const PLANS: &str = r##"plan
[[train]]
name = "T0"
route = ["A", "X", "B"]

[[train]]
name = "T1"
route = ["C", "Y", "D"]

[[crossing]]
name = "flat"
ways = { east = ["A", "X", "B"], north = ["C", "Y", "D"] }
----
{"links":[["A","X"],["X","B"],["C","Y"],["Y","D"]],"points":[["A",0],["X",0],["B",0],["C",0],["Y",0],["D",0]],"start":[0,0],"tables":[{"after":0,"certificate":[],"connections":[],"exits":[false,false],"missions":[["A","X","B"],["C","Y","D"]],"sections":[{"changes":[[0,1,-1],[0,1,-1]],"limit":1}],"times":[[1,1],[1,1]]}],"trains":["T0","T1"],"version":3,"zones":1}
====
plan
[[train]]
name = "T0"
route = ["A", "Main", "B"]

[[crossing]]
name = "flat"
ways = { east = ["A", "Mian", "B"], north = ["A", "Main", "B"] }
parallel = [["east", "nroth"]]
----
line 7: crossing "flat": no point "Mian"; did you mean "Main"?
line 8: crossing "flat": no way "nroth"; did you mean "north"?
====
plan
[[train]]
name = "T0"
route = ["A", "Main", "B"]

[[train]]
name = "T1"
route = ["C", "Main", "D"]

[[crossing]]
name = "flat"
ways = { east = ["A", "Main", "B"] }
----
line 9: crossing "flat": train "T1" comes to "Main" by no way of it
====
plan
# scissors: two trains go straight at the same time, and one that crosses over has them to itself
[[train]]
name = "Up"
route = ["UW", "UC", "UE"]
exit = true

[[train]]
name = "Down"
route = ["DE", "DC", "DW"]
exit = true

[[train]]
name = "Over"
route = ["U0", "UW", "DC", "DE"]
exit = true

[[scissors]]
tracks = [["UW", "UC", "UE"], ["DW", "DC", "DE"]]

[[section]]
limit = 1
points = ["UE"]

[[table]]
after = 3
section = []
----
{"links":[["UW","UC"],["UC","UE"],["DE","DC"],["DC","DW"],["U0","UW"],["UW","DC"]],"points":[["UW",0],["UC",0],["UE",0],["DE",0],["DC",0],["DW",0],["U0",0]],"start":[0,0,0],"tables":[{"after":0,"certificate":[],"connections":[],"exits":[true,true,true],"missions":[["UW","UC","UE"],["DE","DC","DW"],["U0","UW","DC","DE"]],"sections":[{"changes":[[0,1,-1,0],[0,0,0,0],[0,0,1,-1,0]],"limit":1},{"changes":[[0,0,1,-1],[0,0,0,0],[0,0,0,0,0]],"limit":1}],"times":[[1,1,1],[1,1,1],[1,1,1,1]]},{"after":3,"certificate":[],"connections":[],"exits":[true,true,true],"missions":[["UW","UC","UE"],["DE","DC","DW"],["U0","UW","DC","DE"]],"sections":[{"changes":[[0,1,-1,0],[0,0,0,0],[0,0,1,-1,0]],"limit":1}],"times":[[1,1,1],[1,1,1],[1,1,1,1]]}],"trains":["Up","Down","Over"],"version":3,"zones":1}
====
plan
# a ladder needs no section: its ways have one point
[[train]]
name = "In"
route = ["K", "L", "Short"]

[[train]]
name = "Out"
route = ["Long", "L", "K", "H"]
exit = true

[[ladder]]
name = "L"
leads = ["K"]
roads = ["Short", "Long"]
----
{"links":[["K","L"],["L","Short"],["Long","L"],["K","H"]],"points":[["K",0],["L",0],["Short",0],["Long",0],["H",0]],"start":[0,0],"tables":[{"after":0,"certificate":[],"connections":[],"exits":[false,true],"missions":[["K","L","Short"],["Long","L","K","H"]],"sections":[],"times":[[1,1],[1,1,1,1]]}],"trains":["In","Out"],"version":3,"zones":1}
====
plan
train = [{ name = "T0", route = ["A", "M", "B"] }]
[[crossing]]
ways = { one = ["A", "M", "B"], two = ["A", "B"] }

[[scissors]]
name = "west"
tracks = [["A", "M", "B"], ["A", "B"]]

[[ladder]]
name = "m"
leads = ["A", "C"]
roads = ["B"]
----
line 7: scissors "west": scissors have two tracks of three points
line 10: ladder "m": no point "m"; did you mean "M"?
line 11: ladder "m": no point "C"; the points are A, M, B
====
plan
[[train]]
name = "T0"
route = ["A", "M", "B", "M", "C"]

[[train]]
name = "T1"
route = ["D", "M", "E"]

[[connection]]
train = "T1"
leaves = "D"
after = "T0"
reached = "M"
----
line 13: connection 0: "M" comes more than once on the route of train "T0": write #1, #2 .. behind it
====
plan
# dwell: at points by name, and at all others; in the further table one train has its own, the other that of the first
[[train]]
name = "stops"
route = ["A", "B", "C", "B"]
exit = true
times = { default = 2, "B C" = 5 }
dwell = { default = 1, C = 3 }

[[train]]
name = "alike"
route = ["D", "B", "E"]
dwell = 4

[[table]]
after = 2

[[table.train]]
name = "stops"
dwell = { B = 7 }

[[table.train]]
name = "alike"
route = ["D", "B", "E", "G"]
----
{"links":[["A","B"],["B","C"],["D","B"],["B","E"],["E","G"]],"points":[["A",0],["B",0],["C",0],["D",0],["E",0],["G",0]],"start":[0,0],"tables":[{"after":0,"certificate":[],"connections":[],"exits":[true,false],"missions":[["A","B","C","B"],["D","B","E"]],"sections":[],"times":[[3,8,3,2],[5,5]]},{"after":2,"certificate":[],"connections":[],"exits":[true,false],"missions":[["A","B","C","B"],["D","B","E","G"]],"sections":[],"times":[[9,5,9,2],[5,5,5]]}],"trains":["stops","alike"],"version":3,"zones":1}
====
plan
# a loop that is run twice, zones, times by link, weights and a stretch
lines = [["A", "B", "C", "D", "A"]]

[zones]
"0" = ["A", "B"]
"1" = ["C", "D"]

[[train]]
name = "slow"
route = ["A", "B", "C", "D", "A", "B"]
start = "A#2"
exit = true
times = { default = 3, "B C" = 5 }

[[train]]
name = "fast"
route = ["C", "D", "A"]
times = 2

[[section]]
name = "heavy"
limit = 4
points = ["B", "C"]
weight = { slow = 3 }
only = ["slow"]

[[section]]
name = "order"
limit = 1
from = "C"
to = "A"
weight = 1
only = ["fast"]
----
{"links":[["A","B"],["B","C"],["C","D"],["D","A"]],"points":[["A",0],["B",0],["C",1],["D",1]],"start":[4,0],"tables":[{"after":0,"certificate":[],"connections":[],"exits":[true,false],"missions":[["A","B","C","D","A","B"],["C","D","A"]],"sections":[{"changes":[[0,3,0,-3,0,3,-3],[0,0,0]],"limit":4},{"changes":[[0,0,0,0,0,0,0],[1,0,-1]],"limit":1}],"times":[[3,5,3,3,3,3],[2,2]]}],"trains":["slow","fast"],"version":3,"zones":2}
====
plan
[[train]]
name = "T0"
route = ["W", "L1", "E"]
exit = true

[[train]]
name = "T1"
route = ["E", "L2", "W"]
exit = true

[[section]]
limit = 1
points = ["L1"]

[[table]]
after = 2
[[table.train]]
name = "T0"
exit = false
times = { default = 4, "W L1" = 9 }

[[table.section]]
limit = 2
points = ["L1", "L2"]

[[table]]
after = 3
connection = []
----
{"links":[["W","L1"],["L1","E"],["E","L2"],["L2","W"]],"points":[["W",0],["L1",0],["E",0],["L2",0]],"start":[0,0],"tables":[{"after":0,"certificate":[],"connections":[],"exits":[true,true],"missions":[["W","L1","E"],["E","L2","W"]],"sections":[{"changes":[[0,1,-1,0],[0,0,0,0]],"limit":1}],"times":[[1,1,1],[1,1,1]]},{"after":2,"certificate":[],"connections":[],"exits":[false,true],"missions":[["W","L1","E"],["E","L2","W"]],"sections":[{"changes":[[0,1,-1],[0,1,-1,0]],"limit":2}],"times":[[9,4],[1,1,1]]},{"after":3,"certificate":[],"connections":[],"exits":[true,true],"missions":[["W","L1","E"],["E","L2","W"]],"sections":[{"changes":[[0,1,-1,0],[0,0,0,0]],"limit":1}],"times":[[1,1,1],[1,1,1]]}],"trains":["T0","T1"],"version":3,"zones":1}
====
plan
[[train]]
name = "T0"
route = ["A", "b", "C"]
exit = true

[[train]]
name = "T1"
route = ["C", "b", "A"]
exit = true

[[train]]
name = "T2"
route = ["D", "A", "bb", "C"]
exit = true
----
{"links":[["A","b"],["b","C"],["D","A"],["A","bb"],["bb","C"]],"points":[["A",0],["b",0],["C",0],["D",0],["bb",0]],"start":[0,0,0],"tables":[{"after":0,"certificate":[],"connections":[],"exits":[true,true,true],"missions":[["A","b","C"],["C","b","A"],["D","A","bb","C"]],"sections":[],"times":[[1,1,1],[1,1,1],[1,1,1,1]]}],"trains":["T0","T1","T2"],"version":3,"zones":1}
line 13: remark: train "T2": only this train comes to "bb", and once; did you mean "b"? Lines would say which tracks there are
====
plan
train = [{ name = "T0", route = ["A", "B"] }, { name = "T1", route = ["C", "C"] }]
----
line 1: train "T1": "C" comes twice in a row
====
plan
[[train]]
name = "T0"
route = ["A", "B"
exit = true
----
line 4: no TOML: missing comma between array elements, expected `,` or `]`
====
plan
lines = [["A", "B"]]
----
line 1: there is no train
====
plan
train = "T0"
----
line 1: "train" takes a list of tables, and this is of type string
"##;

// A plan without a mistake.
const CORRIDOR: &str = r##"[[train]]
name = "T0"
route = ["A", "M", "N", "B"]

[[train]]
name = "T1"
route = ["C", "N", "M", "D"]

[[section]]
name = "corridor"
limit = 1
points = ["M", "N"]
"##;

// The corridor with some of its lines changed, by their numbers, and what is answered: a document, or the mistakes that
// are told. ` / ` ends a line, `;` is between two changes, and line 13 is after the last.
const CHANGES: &str =
    r##"13: / [[connection]] / train = "T1" / leaves = "C" / after = "T0" / reached = "N" /  / [[table]] / after = 4 / [[table.train]] / name = "T1" / route = ["C", "N", "M", "A"] => {"links":[["A","M"],["M","N"],["N","B"],["C","N"],["M","D"]],"points":[["A",0],["M",0],["N",0],["B",0],["C",0],["D",0]],"start":[0,0],"tables":[{"after":0,"certificate":[],"connections":[[1,0,0,2]],"exits":[false,false],"missions":[["A","M","N","B"],["C","N","M","D"]],"sections":[{"changes":[[0,1,0,-1],[0,1,0,-1]],"limit":1}],"times":[[1,1,1],[1,1,1]]},{"after":4,"certificate":[],"connections":[[1,0,0,2]],"exits":[false,false],"missions":[["A","M","N","B"],["C","N","M","A"]],"sections":[{"changes":[[0,1,0,-1],[0,1,0,-1]],"limit":1}],"times":[[1,1,1],[1,1,1]]}],"trains":["T0","T1"],"version":3,"zones":1}
7: exits = true / route = ["C", "N", "M", "D"] => line 7: train "T1": no key "exits"; the keys are name, pattern, count, route, start, exit, times, dwell
3: start = "M" / route = ["A", "M", "N", "B"]; 7: start = "N" / route = ["C", "N", "M", "D"] => line 13: section "corridor": at the start 2 of 1 are taken, "T0" 1, "T1" 1
3: start = "M" / route = ["A", "M", "N", "B"]; 6: name = "T\n{}"; 7: start = "N" / route = ["C", "N", "M", "D"] => line 7: train "T?{}": "T?{}" is no name: 1 to 16 of A-Z, a-z, 0-9 and _ / line 13: section "corridor": at the start 2 of 1 are taken, "T0" 1, "T?{}" 1
7: start = "Q7" / route = ["C", "N", "M", "D"] => line 7: train "T1": no point "Q7"; the points are A, M, N, B, C, D
7: times = { default = 2, "C Nn" = 3 } / route = ["C", "N", "M", "D"] => line 7: train "T1": no point "Nn"; did you mean "N"?
6: name = "T-1"; 12: points = ["Mm", "N"] / only = ["T7"] / width = 3 => line 6: train "T-1": "T-1" is no name: 1 to 16 of A-Z, a-z, 0-9 and _ / line 12: section "corridor": no point "Mm"; did you mean "M"? / line 13: section "corridor": no train "T7"; did you mean "T0"? / line 14: section "corridor": no key "width"; the keys are name, limit, points, weight, only, from, to, holds
7: start = "A" / route = ["C", "N", "M", "D"] => line 7: train "T1": "A" is not on the route of train "T1"
7: start = "M#3" / route = ["C", "N", "M", "D"] => line 7: train "T1": "M#3" is not on the route of train "T1"
7: start = "M#01" / route = ["C", "N", "M", "D"] => line 7: train "T1": "M#01" is not on the route of train "T1"
7: times = { "M N" = 3 } / route = ["C", "N", "M", "D"] => line 7: train "T1": "M N" is no step of the route
7: times = { default = 0, "N M" = 1001 } / route = ["C", "N", "M", "D"] => line 7: train "T1": a time is 1 to 1000, and this is 0 / line 7: train "T1": a time is 1 to 1000, and this is 1001
7: dwell = { default = -1, M = 1001, Nn = 2, C = 3 } / route = ["C", "N", "M", "D"] => line 7: train "T1": a dwell is 0 to 1000, and this is -1 / line 7: train "T1": the train doesn't come to "C" / line 7: train "T1": a dwell is 0 to 1000, and this is 1001 / line 7: train "T1": no point "Nn"; did you mean "N"?
7: times = { default = 2, "N M" = 999 } / dwell = { default = 1, M = 2 } / route = ["C", "N", "M", "D"] => line 8: train "T1": the step from "N" to "M" takes 1001 ticks with its dwell: 1000 are the most
7: times = 600 / dwell = 400 / route = ["C", "N", "M", "D"]; 13: / [[table]] / after = 4 / [[table.train]] / name = "T1" / dwell = { D = 401 } => line 20: table 1, train "T1": the step from "M" to "D" takes 1001 ticks with its dwell: 1000 are the most
7: dwell = "3" / route = ["C", "N", "M", "D"] => line 7: train "T1": "dwell" takes a whole number, or a table of them, and this is of type string
7: route = ["C", "@along", "D"] => line 7: train "T1": no way "along": the plan has no "ways"
7: exit = "yes" / route = ["C", "N", "M", "D"] => line 7: train "T1": "exit" takes true or false, and this is of type string
13: / [[table]] / after = 1000001 => line 15: table 1: a table is due after 0 to 1000000 moves, and this is 1000001
3: route = ["A", "M", "N", "platform number 2"] => line 3: train "T0": "platform number 2" is no name: 1 to 16 of A-Z, a-z, 0-9 and _
6: name = "T-1" => line 6: train "T-1": "T-1" is no name: 1 to 16 of A-Z, a-z, 0-9 and _
13: / [[connection]] / train = "T1" / leaves = "D" / after = "T0" / reached = "N" => line 16: connection 0: "D" is never left: the route of the train ends there
13: / [[connection]] / train = "T1" / leaves = "C" / after = "T1" / reached = "N" => line 17: connection 0: a train doesn't wait for itself
7: route = [] => line 7: train "T1": the route is empty
13: / [[connection]] / train = "T1" / leave = "C" / leaves = "C" / after = "T0" / reached = "N" => line 16: connection 0: no key "leave"; the keys are train, leaves, after, reached
13: weights = 2 => line 13: section "corridor": no key "weights"; the keys are name, limit, points, weight, only, from, to, holds
13: / [[table]] / after = 4 / zones = 2 => line 16: table 1: no key "zones"; the keys are after, train, section, connection
13: / [[table]] / after = 4 / [[table.train]] / name = "T1" / start = "C" => line 18: table 1, train "T1": no key "start"; the keys are name, pattern, count, route, exit, times, dwell
9: [[sections]] => line 9: no key "sections"; the keys are lines, open, switches, zones, ways, pattern, train, section, connection, crossing ..
11: limit = 129 => line 11: section "corridor": a limit is 0 to 128, and this is 129
13: / [[table]] / [[table.train]] / name = "T1" / exit = true => line 14: table 1: "after" is missing
13: / [[table]] / after = 4 / [[table.section]] / limit = 1 / points = ["M"] / from = { T0 = "M#02", T1 = "M#2" } => line 19: table 1, section 0: "M#02" is not on the route of train "T0" in table 1
13: / [[connection]] => line 14: connection 0: "train" is missing / line 14: connection 0: "leaves" is missing / line 14: connection 0: "after" is missing / line 14: connection 0: "reached" is missing
11: => line 9: section "corridor": "limit" is missing
6: => line 5: train 1: "name" is missing
12: => line 9: section "corridor": "points" is missing
7: => line 5: train "T1": "route" is missing
13: / [[connection]] / train = "T1" / leaves = "C" / after = "T0" / reached = "Nn" => line 18: connection 0: no point "Nn"; did you mean "N"?
12: points = ["Mm", "N"] => line 12: section "corridor": no point "Mm"; did you mean "M"?
13: / [zones] / "0" = ["A", "B", "C", "D"] / "1" = ["M", "North"] => line 16: no point "North"; the points are A, M, N, B, C, D
7: route = ["C", "N", "N", "M", "D"] => line 7: train "T1": "N" comes twice in a row
7: route = ["C", "N", "M", "B"] => line 7: train "T1": without an exit it ends at "B", as train "T0" does
6: name = "T0" => line 6: train "T0": "T0" is the name of an earlier train too
7: route = ["A", "N", "M", "D"] => line 7: train "T1": starts at "A", as train "T0" does
13: / [[connection]] / train = "X1" / leaves = "C" / after = "T0" / reached = "N" => line 15: connection 0: no train "X1"; did you mean "T1"?
13: only = ["T0", "express"] => line 13: section "corridor": no train "express"; the trains are T0, T1
13: / [[table]] / after = 4 / [[table.train]] / name = "t1" / exit = true => line 17: table 1, train "t1": no train "t1"; did you mean "T1"?
11: limit = 4; 12: points = ["N"]; 13: weight = { default = 2, T1 = 1 } => {"links":[["A","M"],["M","N"],["N","B"],["C","N"],["M","D"]],"points":[["A",0],["M",0],["N",0],["B",0],["C",0],["D",0]],"start":[0,0],"tables":[{"after":0,"certificate":[],"connections":[],"exits":[false,false],"missions":[["A","M","N","B"],["C","N","M","D"]],"sections":[{"changes":[[0,0,2,-2],[0,1,-1,0]],"limit":4}],"times":[[1,1,1],[1,1,1]]}],"trains":["T0","T1"],"version":3,"zones":1}
3: route = ["A", "M", "N", "M", "B"] / exit = true; 11: limit = 4; 12: holds = { T0 = { M = 1 } } => line 13: section "corridor": "M" comes more than once on the route of train "T0": write #1, #2 .. behind it
3: route = ["A", "M", "N", "M", "B"] / exit = true; 11: limit = 8; 12: holds = { T0 = { N = 1, "M#2" = 2, B = 0, "-" = 4 }, T1 = { C = 3, M = 0 } } => {"links":[["A","M"],["M","N"],["M","B"],["C","N"],["M","D"]],"points":[["A",0],["M",0],["N",0],["B",0],["C",0],["D",0]],"start":[0,0],"tables":[{"after":0,"certificate":[],"connections":[],"exits":[true,false],"missions":[["A","M","N","M","B"],["C","N","M","D"]],"sections":[{"changes":[[0,0,1,1,-2,4],[3,0,-3,0]],"limit":8}],"times":[[1,1,1,1,1],[1,1,1]]}],"trains":["T0","T1"],"version":3,"zones":1}
13: holds = { T0 = { M = 1 } } => line 12: section "corridor": "holds" says all of it; leave out "points"
12: holds = { T7 = { M = 1 } } / weight = 2 => line 12: section "corridor": no train "T7"; did you mean "T0"? / line 13: section "corridor": "holds" says all of it; leave out "weight"
12: holds = { T0 = { Mm = 1, C = 1, M = 5, N = -1 } } => line 12: section "corridor": "C" is not on the route of train "T0" / line 12: section "corridor": a share is 0 to 4, and this is 5 / line 12: section "corridor": no point "Mm"; did you mean "M"? / line 12: section "corridor": a share is 0 to 4, and this is -1
12: holds = { T0 = { "-" = 1 } } => line 12: section "corridor": "-" without an exit: train "T0" stays where its route ends
12: holds = { T0 = { M = 1, "M#1" = 1 } } => line 12: section "corridor": "M#1" is a place that has another name here too
12: holds = { T0 = { M = 2 } } => line 11: section "corridor": train "T0" alone takes 2 of 1
12: holds = { T0 = { A = 1 }, T1 = { C = 1 } } => line 11: section "corridor": at the start 2 of 1 are taken, "T0" 1, "T1" 1
12: holds = { T0 = 1 } => line 12: section "corridor": "holds" takes a table of tables of whole numbers, and this is of type integer
12: holds = { T0 = { M = "1" } } => line 12: section "corridor": "holds" takes whole numbers, and this is of type string
11: limit = 4; 12: holds = { T0 = { start = 1, N = 0 }, T1 = { start = 2 } } => {"links":[["A","M"],["M","N"],["N","B"],["C","N"],["M","D"]],"points":[["A",0],["M",0],["N",0],["B",0],["C",0],["D",0]],"start":[0,0],"tables":[{"after":0,"certificate":[],"connections":[],"exits":[false,false],"missions":[["A","M","N","B"],["C","N","M","D"]],"sections":[{"changes":[[1,0,-1,0],[2,0,0,0]],"limit":4}],"times":[[1,1,1],[1,1,1]]}],"trains":["T0","T1"],"version":3,"zones":1}
11: limit = 4; 12: holds = { T0 = { start = 1, A = 2 } } => line 12: section "corridor": "start" is a place that has another name here too
3: route = ["start", "M", "N", "B"]; 12: holds = { T0 = { start = 1 } } => line 12: section "corridor": "start" is for the first place, and is the name of a point too: write #1, #2 .. behind the point
11: limit = 4; 12: holds = { T0 = { A = 1, M = 0 }, T1 = { start = 3, D = 0 } }; 13: / [[table]] / after = 4 / [[table.train]] / name = "T1" / route = ["C", "N", "M", "A"] / exit = true => {"links":[["A","M"],["M","N"],["N","B"],["C","N"],["M","D"]],"points":[["A",0],["M",0],["N",0],["B",0],["C",0],["D",0]],"start":[0,0],"tables":[{"after":0,"certificate":[],"connections":[],"exits":[false,false],"missions":[["A","M","N","B"],["C","N","M","D"]],"sections":[{"changes":[[1,-1,0,0],[3,0,0,-3]],"limit":4}],"times":[[1,1,1],[1,1,1]]},{"after":4,"certificate":[],"connections":[],"exits":[false,true],"missions":[["A","M","N","B"],["C","N","M","A"]],"sections":[{"changes":[[1,-1,0,0],[3,0,0,0,-3]],"limit":4}],"times":[[1,1,1],[1,1,1,1]]}],"trains":["T0","T1"],"version":3,"zones":1}
11: limit = 4; 12: holds = {} => {"links":[["A","M"],["M","N"],["N","B"],["C","N"],["M","D"]],"points":[["A",0],["M",0],["N",0],["B",0],["C",0],["D",0]],"start":[0,0],"tables":[{"after":0,"certificate":[],"connections":[],"exits":[false,false],"missions":[["A","M","N","B"],["C","N","M","D"]],"sections":[{"changes":[[0,0,0,0],[0,0,0,0]],"limit":4}],"times":[[1,1,1],[1,1,1]]}],"trains":["T0","T1"],"version":3,"zones":1}
13: weight = { default = 1, "" = 1 } => line 13: section "corridor": the weight for all others is said twice, as "default" and as ""
6: name = "default"; 13: weight = { default = 1 } => line 13: section "corridor": "default" is for all others, and is the name of a train too: write "" for all others
13: weight = { T9 = 1 } => line 13: section "corridor": no train "T9"; did you mean "T0"?
11: limit = "one" => line 11: section "corridor": "limit" takes a whole number, and this is of type string
7: route = "C N M D" => line 7: train "T1": "route" takes a list of names, and this is of type string
7: route = ["C", "N", 5, "D"] => line 7: train "T1": "route" takes a list of names, and this is of type integer
13: weight = { T1 = "2" } => line 13: section "corridor": "weight" takes whole numbers, and this is of type string
13: weight = { T1 = 2 } => line 11: section "corridor": train "T1" alone takes 2 of 1
13: weight = { T0 = 5, T1 = -1 } => line 13: section "corridor": a weight is 0 to 4, and this is 5 / line 13: section "corridor": a weight is 0 to 4, and this is -1
13: / [zones] / "2" = ["A"] => line 14: zone 1 has no point, and zone 2 has
13: / [zones] / "16" = ["A"] / "west" = ["B"] / "01" = ["C"] / "+1" = ["D"] => line 15: "16" is no zone: they are numbered from 0 to 15 / line 16: "west" is no zone: they are numbered from 0 to 15 / line 17: "01" is no zone: they are numbered from 0 to 15 / line 18: "+1" is no zone: they are numbered from 0 to 15
13: / [zones] / "0" = ["A", "B", "M"] / "1" = ["C", "D", "M"] => line 16: "M" is in a zone already
1: lines = [["A", "M", "N", "B"], ["C", "N", "M", "D"]] / [[train]]; 7: route = ["C", "Nn", "M", "D"] => line 8: train "T1": no point "Nn"; did you mean "N"?
1: lines = [["A", "M", "N", "B"], ["C", "N", "M", "D"]] / [[train]]; 7: route = ["C", "M", "N", "D"] => line 8: train "T1": no line goes from "C" to "M", but to N / line 8: train "T1": no line goes from "N" to "D", but to M, B, C
1: lines = [["A", "M", "N", "B"], ["C", "N", "M", "D"]] / switches = ["M"] / [[train]]; 7: route = ["D", "M", "A"] => line 9: train "T1": no line goes from "D" over "M", a switch, to "A"
1: lines = [["A", "M", "N", "B"], ["C", "N", "M", "D"]] / switches = ["B", "C"] / [[train]] => line 5: train "T0": ends at "B", a switch / line 9: train "T1": starts at "C", a switch
1: lines = [["A", "M", "N", "B"], ["C", "N", "M", "D"]] / switches = ["B"] / [[train]]; 3: exit = true / route = ["A", "M", "N", "B"] => line 6: train "T0": ends at "B", a switch
1: lines = [["A", "M", "N", "B"], ["C", "N", "M", "D"]] / switches = ["C", "N"] / [[train]]; 7: start = "M" / route = ["C", "N", "M", "D"] => line 10: train "T1": its route begins at "C", a switch
1: lines = [["A", "M", "N", "B"], ["C", "N", "M", "D"]] / switches = ["N"] / [[train]]; 7: start = "N" / route = ["C", "N", "M", "D"] => line 9: train "T1": starts at "N", a switch
1: lines = [["A", "M", "N", "B"], ["C", "N", "M", "D"]] / switches = ["N"] / [[train]]; 7: route = ["D", "M", "N", "M", "A"] => line 9: train "T1": no line goes from "M" over "N", a switch, to "M"
1: lines = [["A", "M", "N", "B"], ["C", "N", "M", "D"]] / switches = ["N"] / [[train]]; 13: / [[table]] / after = 4 / [[table.train]] / name = "T1" / route = ["N", "M", "D"] => line 20: table 1, train "T1": its route begins at "N", a switch
1: lines = [["A", "M", "N", "B"], ["C", "N", "M", "D"]] / switches = ["N"] / [[train]]; 7: route = ["C", "N", "Mm", "D"] => line 9: train "T1": no point "Mm"; did you mean "M"?
1: lines = [["A", "M", "N", "B"], ["C", "N", "M", "D"]] / switches = ["m"] / [[train]] => line 2: no point "m"; did you mean "M"?
1: lines = "A" / [[train]] => line 1: "lines" takes a list of lists of points, and this is of type string
1: lines = [["A", "M"]] / open = true / [[train]] => {"links":[["A","M"],["M","N"],["N","B"],["C","N"],["M","D"]],"points":[["A",0],["M",0],["N",0],["B",0],["C",0],["D",0]],"start":[0,0],"tables":[{"after":0,"certificate":[],"connections":[],"exits":[false,false],"missions":[["A","M","N","B"],["C","N","M","D"]],"sections":[{"changes":[[0,1,0,-1],[0,1,0,-1]],"limit":1}],"times":[[1,1,1],[1,1,1]]}],"trains":["T0","T1"],"version":3,"zones":1}
9: [[crossing]]; 11: ; 12: ways = { east = ["A", "M", "N", "B"], west = ["C", "N", "M", "D"] } => {"links":[["A","M"],["M","N"],["N","B"],["C","N"],["M","D"]],"points":[["A",0],["M",0],["N",0],["B",0],["C",0],["D",0]],"start":[0,0],"tables":[{"after":0,"certificate":[],"connections":[],"exits":[false,false],"missions":[["A","M","N","B"],["C","N","M","D"]],"sections":[{"changes":[[0,1,0,-1],[0,1,0,-1]],"limit":1}],"times":[[1,1,1],[1,1,1]]}],"trains":["T0","T1"],"version":3,"zones":1}
13: / [[crossing]] / ways = { one = ["A", "B"] } => line 15: crossing 0: the way "one" has no point between its ends
13: / [[crossing]] / ways = { one = ["A", "M", "N", "B"], two = ["C", "N", "M", "D"] } / parallel = [["one", "two"]] => line 16: crossing 0: the parallel ways "one" and "two" have a point between their ends in common
13: / [[crossing]] / ways = { one = ["A", "M", "N"] } => line 14: crossing 0: train "T1" comes to "M" by no way of it
13: / [[crossing]] / way = {} => line 14: crossing 0: "ways" is missing / line 15: crossing 0: no key "way"; the keys are name, ways, parallel
13: / [[scissors]] / tracks = [["A", "M", "N"], ["N", "M", "D"]] => line 15: scissors 0: the tracks have a point between their ends in common
13: / [[table]] / after = 4 / [[table.train]] / name = "T1" / route = ["C", "K", "D"] / [[crossing]] / ways = { one = ["A", "M", "N", "B"], two = ["C", "N", "M", "D"] } / [[ladder]] / name = "K" / leads = ["C"] / roads = ["B"] => line 21: ladder "K": train "T1" comes to "K" by no way of it in table 1"##;

// What the line of this number becomes, if it is changed.
fn change_at(changes: &str, number: usize) -> Option<&str> {
    for change in changes.split(';') {
        let (at, lines) = change.split_once(':')?;
        if at.trim().parse::<usize>() == Ok(number) {
            return Some(lines);
        }
    }
    None
}

// The corridor with these changes.
fn changed(alloc: Global, changes: &str) -> Result<String, AllocError> {
    let mut plan = String::new(alloc);
    let mut lines = CORRIDOR.split('\n');
    for number in 1..14 {
        let line = lines.next().unwrap_or("");
        plan.push_str(change_at(changes, number).unwrap_or(line))?;
        plan.push('\n')?;
    }
    plan.replace(alloc, " / ", "\n")
}

// Whether the changed corridor is answered as its row says.
fn is_changed(alloc: Global, row: &str) -> bool {
    let (changes, says) = row.split_once(" => ").unwrap_or((row, "an answer"));
    let Ok(plan) = changed(alloc, changes) else {
        return false;
    };
    match says.replace(alloc, " / ", "\n") {
        Ok(says) => is_answered(alloc, "plan", plan.as_str(), says.as_str()),
        Err(_) => false,
    }
}

#[test]
fn changes_of_the_corridor_are_answered(rt: HostRuntime) {
    for row in CHANGES.split('\n') {
        assert!(rt; is_changed(rt.alloc(), row), "{row}");
    }
}
