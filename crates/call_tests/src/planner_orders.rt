// Documents with sections that keep their trains in order.
// Words, a document and an answer each: the text, and the notes on it.
pub(crate) const ORDERED: &str = r##"order
{"version":2,"points":[["A",0],["B",0],["C",0]],"links":[["A","B"],["B","C"]],"zones":1,"trains":["T0","T1"],"start":[0,0],"tables":[{"missions":[["B","C"],["A","B","C"]],"exits":[true,false],"sections":[],"certificate":[]}]}
----
{"links":[["A","B"],["B","C"]],"points":[["A",0],["B",0],["C",0]],"start":[0,0],"tables":[{"after":0,"certificate":[[3]],"exits":[true,false],"missions":[["B","C"],["A","B","C"]],"sections":[{"changes":[[4,-1,-1],[0,1,1]],"limit":4}],"times":[[1,1],[1,1]]}],"trains":["T0","T1"],"version":2,"zones":1}
tables[0].sections[0]: T1 goes behind T0: to B (place 1) after C (place 1), to C (place 2) after its exit (place 2)
====
order
{"version":1,"points":[["A",0]],"links":[],"zones":1,"trains":[],"start":[],"tables":[{"missions":[],"sections":[],"certificate":[]}]}
----
{"links":[],"points":[["A",0]],"start":[],"tables":[{"after":0,"certificate":[[3]],"exits":[],"missions":[],"sections":[],"times":[]}],"trains":[],"version":2,"zones":1}
====
order|--of-run|0
{"version":2,"points":[["A",0],["B",0],["C",0],["D",0],["M",0],["X",0]],"links":[["A","X"],["X","M"],["M","B"],["C","M"],["M","D"]],"zones":1,"trains":["T0","T1"],"start":[0,0],"tables":[{"missions":[["A","X","M","B"],["C","M","D"]],"exits":[false,false],"sections":[],"certificate":[]}]}
----
{"links":[["A","X"],["X","M"],["M","B"],["C","M"],["M","D"]],"points":[["A",0],["B",0],["C",0],["D",0],["M",0],["X",0]],"start":[0,0],"tables":[{"after":0,"certificate":[[3]],"exits":[false,false],"missions":[["A","X","M","B"],["C","M","D"]],"sections":[{"changes":[[0,0,1,0],[4,0,-1]],"limit":4}],"times":[[1,1,1],[1,1]]}],"trains":["T0","T1"],"version":2,"zones":1}
tables[0].sections[0]: T0 goes behind T1, in this run: to M (place 2) after D (place 2)
====
order|--of-run|1
{"version":2,"points":[["A",0],["B",0],["C",0],["D",0],["M",0]],"links":[["A","M"],["M","B"],["C","M"],["M","D"]],"zones":1,"trains":["T0","T1"],"start":[0,0],"tables":[{"missions":[["A","M","B"],["C","M","D"]],"exits":[false,false],"sections":[],"certificate":[]}]}
journal
1 move T1 C M
----
{"links":[["A","M"],["M","B"],["C","M"],["M","D"]],"points":[["A",0],["B",0],["C",0],["D",0],["M",0]],"start":[0,0],"tables":[{"after":0,"certificate":[[3]],"exits":[false,false],"missions":[["A","M","B"],["C","M","D"]],"sections":[{"changes":[[0,1,0],[4,0,-1]],"limit":4}],"times":[[1,1],[1,1]]}],"trains":["T0","T1"],"version":2,"zones":1}
tables[0].sections[0]: T0 goes behind T1, in this run: to M (place 1) after D (place 2)
====
order|--of-run|1
{"version":2,"points":[["A",0],["B",0],["C",0],["D",0],["M",0]],"links":[["A","M"],["M","B"],["C","M"],["M","D"]],"zones":1,"trains":["T0","T1"],"start":[0,0],"tables":[{"missions":[["A","M","B"],["C","M","D"]],"exits":[false,false],"sections":[],"certificate":[]}]}
journal
1 move T1 C M
2 move T0 A M
----
ats refuses the journal: 75 Move line=2 Occupied by=1
"##;
