// Documents that are explained, searched for mistakes, and drawn.
// Words, a document and an answer each.
pub(crate) const DOCUMENTS: &str = r##"explain|--at|1,1
{"version":1,"points":[["A",0],["M",0],["N",0],["B",0],["C",0],["D",0]],"links":[["A","M"],["M","N"],["N","B"],["C","N"],["M","D"]],"zones":1,"trains":["T0","T1"],"start":[0,0],"tables":[{"missions":[["A","M","N","B"],["C","N","M","D"]],"sections":[],"certificate":[]}]}
----
T0 is at M, place 1 of 3, and wants N: T1 is there
T1 is at N, place 1 of 3, and wants M: T0 is there
A circle: T0 waits for T1. T1 waits for T0.
No train can move, so the state is stuck. The sections of table 0 allow it, whether or not trains can come to it from the start.
A section keeps it out: write one that these places overfill, or let planner protect make one.
====
explain|--at|1,1
{"version":1,"points":[["A",0],["M",0],["N",0],["B",0],["C",0],["K",0],["D",0]],"links":[["A","M"],["M","N"],["N","B"],["C","N"],["N","K"],["K","D"]],"zones":1,"trains":["T0","T1"],"start":[0,0],"tables":[{"missions":[["A","M","N","B"],["C","N","K","D"]],"sections":[{"limit":1,"changes":[[0,1,-1,0],[0,0,1,-1]]}],"certificate":[]}]}
----
T0 is at M, place 1 of 3, and wants N: T1 is there
T1 is at N, place 1 of 3, and wants K: section 0 has no room for 1 more, 1 of 1 are taken; T0 has 1
A knot: T0 waits for T1. T1 waits for section 0; T0 has 1. None of them can ever move.
No train can move, so the state is stuck. The sections of table 0 allow it, whether or not trains can come to it from the start.
A section keeps it out: write one that these places overfill, or let planner protect make one.
====
explain|--at|0,1
{"version":1,"points":[["A",0],["B",0],["C",0],["D",0]],"links":[["A","B"],["B","C"],["D","B"]],"zones":1,"trains":["T0","T1"],"start":[0,0],"tables":[{"missions":[["A","B","C"],["D","B"]],"sections":[],"certificate":[]}]}
----
T0 is at A, place 0 of 2, and wants B: T1 is there
T1 is at B, place 1 of 1, and has arrived
A knot: T0 waits for T1. T1 has arrived and stays. None of them can ever move.
No train can move, so the state is stuck. The sections of table 0 allow it, whether or not trains can come to it from the start.
A train of the knot has arrived where it is in the way: it has to come later, or to end elsewhere.
====
explain|--at|1,0
{"version":1,"points":[["A",0],["M",0],["N",0],["B",0],["C",0],["D",0]],"links":[["A","M"],["M","N"],["N","B"],["C","N"],["M","D"]],"zones":1,"trains":["T0","T1"],"start":[0,0],"tables":[{"missions":[["A","M","N","B"],["C","N","M","D"]],"sections":[{"limit":1,"changes":[[0,1,0,-1],[0,1,0,-1]]}],"certificate":[[0,0,0],[0,1,0],[4,0],[0,1,2],[4,1],[4,0],[0,0,2],[0,1,0],[4,0],[0,1,2],[2,0],[4,0],[0,1,2],[4,1],[3]]}]}
----
T0 is at M, place 1 of 3, and wants N: it may
T1 is at C, place 0 of 3, and wants N: section 0 has no room for 1 more, 1 of 1 are taken; T0 has 1
The state isn't stuck: a train may move.
====
explain|--at|0,0
{"version":3,"points":[["A",0],["B",0],["C",0],["D",0]],"links":[["A","B"],["C","D"]],"zones":1,"trains":["T0","T1"],"start":[0,0],"tables":[{"missions":[["A","B"],["C","D"]],"certificate":[[0,0,0],[0,1,0],[4,1],[4,0],[0,1,0],[4,1],[3]],"connections":[[0,0,1,1]]}]}
----
T0 is at A, place 0 of 1, and wants B: connection 0 holds it until T1 has come to place 1, D
T1 is at C, place 0 of 1, and wants D: it may
The state isn't stuck: a train may move.
====
explain|--at|1,1|--run
{"version":1,"points":[["A",0],["M",0],["N",0],["B",0],["C",0],["D",0]],"links":[["A","M"],["M","N"],["N","B"],["C","N"],["M","D"]],"zones":1,"trains":["T0","T1"],"start":[0,0],"tables":[{"missions":[["A","M","N","B"],["C","N","M","D"]],"sections":[],"certificate":[]}]}
----
T0 is at M, place 1 of 3, and wants N: T1 is there
T1 is at N, place 1 of 3, and wants M: T0 is there
A circle: T0 waits for T1. T1 waits for T0.
No train can move, so the state is stuck. The sections of table 0 allow it, whether or not trains can come to it from the start.
A section keeps it out: write one that these places overfill, or let planner protect make one.
A run from the start leads there:
1 move T1 C N
2 move T0 A M
====
explain|--at|2,2|--run
{"version":1,"points":[["W",0],["L",0],["E",0]],"links":[["W","L"],["L","E"]],"zones":1,"trains":["T0","T1"],"start":[0,0],"tables":[{"missions":[["W","L","E"],["E","L","W"]],"sections":[],"certificate":[]}]}
----
T0 is at E, place 2 of 2, and has arrived
T1 is at W, place 2 of 2, and has arrived
All trains have arrived.
No run from the start leads there, since T0 and T1 are never both at these places.
====
explain|--at|3,2|--table|1|--run
{"version":1,"points":[["W",0],["L1",0],["L2",0],["E",0],["S",0]],"links":[["W","L1"],["W","L2"],["L1","E"],["L2","E"],["E","S"]],"zones":1,"trains":["T0","T1"],"start":[0,0],"tables":[{"missions":[["W","L1","E"],["E","L2","W"]],"sections":[],"certificate":[]},{"after":1,"missions":[["W","L1","E","S"],["E","L2","W"]],"sections":[],"certificate":[]}]}
----
T0 is at S, place 3 of 3, and has arrived
T1 is at W, place 2 of 2, and has arrived
All trains have arrived.
A run from the start leads there:
1 move T1 E L2
2 move T0 W L1
3 move T1 L2 W
4 move T0 L1 E
5 table 1
6 move T0 E S
====
explain|--line|ats: 57 MoveRoom table=0 index=4 train=0 section=0
{"version":1,"points":[["A",0],["M",0],["N",0],["B",0],["C",0],["D",0]],"links":[["A","M"],["M","N"],["N","B"],["C","N"],["M","D"]],"zones":1,"trains":["T0","T1"],"start":[0,0],"tables":[{"missions":[["A","M","N","B"],["C","N","M","D"]],"sections":[{"limit":1,"changes":[[0,1,0,-1],[0,1,0,-1]]}],"certificate":[[0,0,0],[0,1,0],[4,0],[0,1,2],[4,1],[4,0],[0,0,2],[0,1,0],[4,0],[0,1,2],[2,0],[4,0],[0,1,2],[4,1],[3]]}]}
----
A node of the certificate says that a train surely has a move, and a section may have no room for it.
Where: table 0, node 4 (T1 has a move), train 0 ("T0"), section 0 (M, N).
The certificate doesn't fit the table, as after an edit: let ats make write a new one.
====
explain|--line|23 Step table=0 section=0 train=0 place=1 value=3
{"version":1,"points":[["A",0],["M",0],["N",0],["B",0],["C",0],["D",0]],"links":[["A","M"],["M","N"],["N","B"],["C","N"],["M","D"]],"zones":1,"trains":["T0","T1"],"start":[0,0],"tables":[{"missions":[["A","M","N","B"],["C","N","M","D"]],"sections":[{"limit":1,"changes":[[0,1,0,-1],[0,1,0,-1]]}],"certificate":[[0,0,0],[0,1,0],[4,0],[0,1,2],[4,1],[4,0],[0,0,2],[0,1,0],[4,0],[0,1,2],[2,0],[4,0],[0,1,2],[4,1],[3]]}]}
----
A change of a section is too large, up or down: -4 to 4, and -1 to 1 in version 1.
Where: table 0, section 0 (M, N), train 0 ("T0"), place 1 ("M"), value 3.
A change is by how much the share rises when the train reaches the place: for the shares 0 1 1 0 write 0, 1, 0, -1.
====
explain|--at|2,1
{"version":1,"points":[["A",0],["M",0],["N",0],["B",0],["C",0],["D",0]],"links":[["A","M"],["M","N"],["N","B"],["C","N"],["M","D"]],"zones":1,"trains":["T0","T1"],"start":[0,0],"tables":[{"missions":[["A","M","N","B"],["C","N","M","D"]],"sections":[{"limit":1,"changes":[[0,1,0,-1],[0,1,0,-1]]}],"certificate":[[0,0,0],[0,1,0],[4,0],[0,1,2],[4,1],[4,0],[0,0,2],[0,1,0],[4,0],[0,1,2],[2,0],[4,0],[0,1,2],[4,1],[3]]}]}
----
These places are no legal state of table 0: T0 and T1 are both at N.
====
explain|--line|hello
{"version":1,"points":[["A",0],["M",0],["N",0],["B",0],["C",0],["D",0]],"links":[["A","M"],["M","N"],["N","B"],["C","N"],["M","D"]],"zones":1,"trains":["T0","T1"],"start":[0,0],"tables":[{"missions":[["A","M","N","B"],["C","N","M","D"]],"sections":[{"limit":1,"changes":[[0,1,0,-1],[0,1,0,-1]]}],"certificate":[[0,0,0],[0,1,0],[4,0],[0,1,2],[4,1],[4,0],[0,0,2],[0,1,0],[4,0],[0,1,2],[2,0],[4,0],[0,1,2],[4,1],[3]]}]}
----
This is no line of ats: "hello". A line of ats is like 206 Stuck table=0 at=1,1.
====
lint
{"links":[["Siding","UpWest"],["UpWest","UpCross"],["UpCross","UpEast"],["DownWest","DownCross"],["DownCross","DownEast"],["UpCross","DownEast"],["DownCross","UpEast"]],"points":[["Siding",0],["UpWest",0],["UpCross",0],["UpEast",0],["DownWest",0],["DownCross",0],["DownEast",0]],"start":[0,0,0],"tables":[{"after":0,"certificate":[[0,0,1],[0,0,0],[0,2,2],[0,2,1],[4,0],[0,1,1],[4,2],[0,1,2],[4,1],[4,2],[4,0],[4,0],[0,0,2],[4,0],[0,1,1],[0,1,0],[0,2,2],[4,2],[4,1],[0,2,2],[4,1],[0,2,3],[4,2],[4,1],[0,1,2],[4,1],[0,2,2],[4,2],[0,2,3],[4,2],[3]],"exits":[true,true,true],"missions":[["UpWest","UpCross","UpEast"],["DownWest","DownCross","DownEast"],["Siding","UpWest","UpCross","DownEast"]],"sections":[{"changes":[[0,1,-1,0],[0,1,-1,0],[0,0,2,-2,0]],"limit":2}],"times":[[1,1,1],[1,1,1],[1,1,1,1]]}],"trains":["Up","Down","Over"],"version":2,"zones":1}
----
links[6]: no mission goes from DownCross to UpEast or back
====
lint
{"version":1,"points":[["A",0],["M",0],["N",0],["B",0],["C",0],["D",0]],"links":[["A","M"],["M","N"],["N","B"],["C","N"],["M","D"]],"zones":1,"trains":["T0","T1"],"start":[0,0],"tables":[{"missions":[["A","M","N","B"],["C","N","M","D"]],"sections":[{"limit":1,"changes":[[0,1,0,-1],[0,1,0,-1]]}],"certificate":[[0,0,0],[0,1,0],[4,0],[0,1,2],[4,1],[4,0],[0,0,2],[0,1,0],[4,0],[0,1,2],[2,0],[4,0],[0,1,2],[4,1],[3]]}]}
----
====
lint
{"version":1,"zones":9,"points":[["A",0],["B",0]],"links":[["A","B"]],"zones":1,"trains":["T0"],"start":[0],"tables":[{"missions":[["A","B"]]}]}
----
zones: given 2 times; the last one counts
====
lint
{"version":1,"note":1e999}
----
document: ats refuses it: 101 NotJson
note: unknown, so it is ignored
====
lint
{"version":1,"note":"\ud800"}
----
document: ats refuses it: 101 NotJson
====
lint
{"version":1,"note":[[[[[[[[[[[[[[[[[[[[[[[[[[[[[[[[[[[[[[[[[[[[[[[[[[[[[[[[[[[[[[[[[[[[[[[[[[[[[[[[[[[[[[[[[[[[[[[[[[[[[[[[[[[[[[[[[[[[[[[[[[[[[[]]]]]]]]]]]]]]]]]]]]]]]]]]]]]]]]]]]]]]]]]]]]]]]]]]]]]]]]]]]]]]]]]]]]]]]]]]]]]]]]]]]]]]]]]]]]]]]]]]]]]]]]]]]]]]]]]]]]]]]]]]]]]]}
----
document: ats refuses it: 102 Shape member=points
note: unknown, so it is ignored
====
lint
{"version":1,"note":[[[[[[[[[[[[[[[[[[[[[[[[[[[[[[[[[[[[[[[[[[[[[[[[[[[[[[[[[[[[[[[[[[[[[[[[[[[[[[[[[[[[[[[[[[[[[[[[[[[[[[[[[[[[[[[[[[[[[[[[[[[[[[[]]]]]]]]]]]]]]]]]]]]]]]]]]]]]]]]]]]]]]]]]]]]]]]]]]]]]]]]]]]]]]]]]]]]]]]]]]]]]]]]]]]]]]]]]]]]]]]]]]]]]]]]]]]]]]]]]]]]]]]]]]]]]]]}
----
document: ats refuses it: 101 NotJson
====
layout|--at|1,1
{"version":1,"points":[["A",0],["M",0],["N",0],["B",0],["C",0],["D",0]],"links":[["A","M"],["M","N"],["N","B"],["C","N"],["M","D"]],"zones":1,"trains":["T0","T1"],"start":[0,0],"tables":[{"missions":[["A","M","N","B"],["C","N","M","D"]],"sections":[{"limit":1,"changes":[[0,1,0,-1],[0,1,0,-1]]}],"certificate":[[0,0,0],[0,1,0],[4,0],[0,1,2],[4,1],[4,0],[0,0,2],[0,1,0],[4,0],[0,1,2],[2,0],[4,0],[0,1,2],[4,1],[3]]}]}
----
section 0 has 2, above its limit 1
====
explain|--at|1,0
# a plan in place of a document
[[train]]
name = "T0"
route = ["A", "M", "N", "B"]

[[train]]
name = "T1"
route = ["C", "N", "M", "D"]

[[section]]
name = "corridor"
limit = 1
points = ["M", "N"]
----
T0 is at M, place 1 of 3, and wants N: it may
T1 is at C, place 0 of 3, and wants N: section "corridor" has no room for 1 more, 1 of 1 are taken; T0 has 1
The state isn't stuck: a train may move.
====
explain|--at|1,0
[[train]]
name = "T0"
route = ["A", "M", "N", "B"]

[[train]]
name = "T1"
route = ["C", "N", "M", "D"]

[[section]]
name = "east"
limit = 2
points = ["N"]

[[crossing]]
ways = { east = ["A", "M", "N", "B"], west = ["C", "N", "M", "D"] }
----
T0 is at M, place 1 of 3, and wants N: it may
T1 is at C, place 0 of 3, and wants N: section "crossing 1" has no room for 1 more, 1 of 1 are taken; T0 has 1
The state isn't stuck: a train may move.
====
lint
[[train]]
name = "T0"
route = ["A", "M", "B", "M", "C"]

[[train]]
name = "T1"
route = ["D", "M", "E"]

[[connection]]
train = "T1"
leaves = "D"
after = "T0"
reached = "M"
----
line 13: connection 0: "M" comes more than once on the route of train "T0": write #1, #2 .. behind it
"##;
