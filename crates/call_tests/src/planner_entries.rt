// Plans with entries for the sections that are added to their documents.
// Words, a plan and an answer each: the plan with entries, or these alone, and the notes on them; or why there are none.
pub(crate) const ENTERED: &str = r##"order|--into
# Two trains, the second behind the first.
[[train]]
name = "T0"
route = ["B", "C"]
exit = true

[[train]]
name = "T1"
route = ["A", "B", "C"]
----
# Two trains, the second behind the first.
[[train]]
name = "T0"
route = ["B", "C"]
exit = true

[[train]]
name = "T1"
route = ["A", "B", "C"]

# Added by planner order:
[[section]]
name = "order 1"
limit = 4
holds = { T0 = { B = 4, C = 3, "-" = 2 }, T1 = { B = 1, C = 2 } }
tables[0].sections[0]: T1 goes behind T0: to B (place 1) after C (place 1), to C (place 2) after its exit (place 2)
====
plan
# Two trains, the second behind the first.
[[train]]
name = "T0"
route = ["B", "C"]
exit = true

[[train]]
name = "T1"
route = ["A", "B", "C"]

# Added by planner order:
[[section]]
name = "order 1"
limit = 4
holds = { T0 = { B = 4, C = 3, "-" = 2 }, T1 = { B = 1, C = 2 } }
----
{"links":[["B","C"],["A","B"]],"points":[["B",0],["C",0],["A",0]],"start":[0,0],"tables":[{"after":0,"certificate":[],"connections":[],"exits":[true,false],"missions":[["B","C"],["A","B","C"]],"sections":[{"changes":[[4,-1,-1],[0,1,1]],"limit":4}],"times":[[1,1],[1,1]]}],"trains":["T0","T1"],"version":3,"zones":1}
====
order|--entries
[[train]]
name = "T0"
route = ["start", "C"]
exit = true

[[train]]
name = "T1"
route = ["A", "start", "C"]

[[section]]
name = "order 7"
limit = 2
points = ["C"]
----
# Added by planner order:
[[section]]
name = "order 8"
limit = 4
holds = { T0 = { "start#1" = 4, C = 3, "-" = 2 }, T1 = { "start#1" = 1, C = 2 } }
tables[0].sections[1]: T1 goes behind T0: to start (place 1) after C (place 1), to C (place 2) after its exit (place 2)
====
order|--of-run|1|--entries
[[train]]
name = "T0"
route = ["A", "M", "B"]

[[train]]
name = "T1"
route = ["C", "M", "D"]
journal
1 move T1 C M
----
# Added by planner order:
[[section]]
name = "order 1"
limit = 4
holds = { T0 = { M = 1 }, T1 = { C = 4, D = 3 } }
tables[0].sections[0]: T0 goes behind T1, in this run: to M (place 1) after D (place 2)
====
protect|--into
[[train]]
name = "T0"
route = ["A", "M", "N", "B"]

[[train]]
name = "T1"
route = ["C", "N", "M", "D"]
----
[[train]]
name = "T0"
route = ["A", "M", "N", "B"]

[[train]]
name = "T1"
route = ["C", "N", "M", "D"]

# Added by planner protect:
[[section]]
name = "guard 1"
limit = 1
holds = { T0 = { M = 1, B = 0 }, T1 = { N = 1, M = 0 } }
tables[0].sections[0]: never all at once: T0 from M to N (places 1 to 2), T1 at N (place 1)
====
order|--into
{"version":2,"points":[["A",0]],"links":[],"zones":1,"trains":[],"start":[],"tables":[{"missions":[],"sections":[],"certificate":[]}]}
----
--into and --entries go with a plan, and the input is a document, which begins with a brace
====
order|--into
[[train]]
name = "T0"
route = ["A", "M", "B"]
exit = true

[[train]]
name = "T1"
route = ["C", "N", "D"]

[[train]]
name = "T2"
route = ["Y", "A", "M", "B"]
exit = true

[[crossing]]
ways = { one = ["A", "M", "B"], two = ["C", "N", "D"] }
----
[[train]]
name = "T0"
route = ["A", "M", "B"]
exit = true

[[train]]
name = "T1"
route = ["C", "N", "D"]

[[train]]
name = "T2"
route = ["Y", "A", "M", "B"]
exit = true

[[crossing]]
ways = { one = ["A", "M", "B"], two = ["C", "N", "D"] }

# Added by planner order:
[[section]]
name = "order 1"
limit = 4
holds = { T0 = { A = 4, M = 3, B = 2, "-" = 1 }, T2 = { A = 1, M = 2, B = 3, "-" = 3 } }
tables[0].sections[1]: T2 goes behind T0: to A (place 1) after M (place 1), to M (place 2) after B (place 2), to B (place 3) after its exit (place 3)
====
order|--into
section = []

[[train]]
name = "T0"
route = ["B", "C"]
exit = true

[[train]]
name = "T1"
route = ["A", "B", "C"]
----
the plan with the added sections: line 13: no TOML: duplicate key
====
order|--entries
[[train]]
name = "T0"
route = ["B", "C"]
exit = true

[[train]]
name = "T1"
route = ["A", "B", "C"]

[[table]]
after = 1

[[table.section]]
limit = 1
points = []
----
entries can't say the added sections: with them, table 1 of the plan has others than the document
====
order|--into
[[train]]
name = "T0"
route = ["A"]
----
[[train]]
name = "T0"
route = ["A"]
"##;
