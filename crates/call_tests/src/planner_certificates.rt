// Documents with certificates that are found by search, and with guards. The last is of six trains of a metro.
// Words, a document and an answer each.
pub(crate) const CERTIFIED: &str = r##"certify
{"version":1,"points":[["A",0],["M",0],["N",0],["B",0],["C",0],["D",0]],"links":[["A","M"],["M","N"],["N","B"],["C","N"],["M","D"]],"zones":1,"trains":["T0","T1"],"start":[0,0],"tables":[{"missions":[["A","M","N","B"],["C","N","M","D"]],"sections":[{"limit":1,"changes":[[0,1,0,-1],[0,1,0,-1]]}],"certificate":[]}]}
----
{"links":[["A","M"],["M","N"],["N","B"],["C","N"],["M","D"]],"points":[["A",0],["M",0],["N",0],["B",0],["C",0],["D",0]],"start":[0,0],"tables":[{"after":0,"certificate":[[0,0,2],[0,1,2],[0,0,0],[4,1],[0,1,0],[4,0],[2,0],[4,0],[0,1,2],[4,1],[3]],"missions":[["A","M","N","B"],["C","N","M","D"]],"sections":[{"changes":[[0,1,0,-1],[0,1,0,-1]],"limit":1}],"times":[[1,1,1],[1,1,1]]}],"trains":["T0","T1"],"version":1,"zones":1}
====
certify|--effort|great|--budget|10
{"version":1,"points":[["A",0],["M",0],["N",0],["B",0],["C",0],["D",0]],"links":[["A","M"],["M","N"],["N","B"],["C","N"],["M","D"]],"zones":1,"trains":["T0","T1"],"start":[0,0],"tables":[{"missions":[["A","M","N","B"],["C","N","M","D"]],"sections":[{"limit":1,"changes":[[0,1,0,-1],[0,1,0,-1]]}],"certificate":[]}]}
----
table 0: gave up after 10 nodes; whether it has a certificate isn't known
====
certify|--budget|1
{"version":1,"points":[["A",0]],"links":[],"zones":1,"trains":[],"start":[],"tables":[{"missions":[],"sections":[],"certificate":[]}]}
----
{"links":[],"points":[["A",0]],"start":[],"tables":[{"after":0,"certificate":[[3]],"missions":[],"sections":[],"times":[]}],"trains":[],"version":1,"zones":1}
====
certify
{"version":1,"points":[["A",0],["M",0],["N",0],["B",0],["C",0],["D",0]],"links":[["A","M"],["M","N"],["N","B"],["C","N"],["M","D"]],"zones":1,"trains":["T0","T1"],"start":[0,0],"tables":[{"missions":[["A","M","N","B"],["C","N","M","D"]],"sections":[],"certificate":[]}]}
----
206 Stuck table=0 at=1,1
A run from the start leads there:
1 move T1 C N
2 move T0 A M
====
protect
{"version":1,"points":[["A",0],["M",0],["N",0],["B",0],["C",0],["D",0]],"links":[["A","M"],["M","N"],["N","B"],["C","N"],["M","D"]],"zones":1,"trains":["T0","T1"],"start":[0,0],"tables":[{"missions":[["A","M","N","B"],["C","N","M","D"]],"sections":[],"certificate":[]}]}
----
{"links":[["A","M"],["M","N"],["N","B"],["C","N"],["M","D"]],"points":[["A",0],["M",0],["N",0],["B",0],["C",0],["D",0]],"start":[0,0],"tables":[{"after":0,"certificate":[[0,0,2],[0,1,2],[0,1,1],[0,0,0],[4,1],[0,1,0],[4,0],[2,0],[4,1],[4,0],[0,1,2],[4,1],[3]],"exits":[false,false],"missions":[["A","M","N","B"],["C","N","M","D"]],"sections":[{"changes":[[0,1,0,-1],[0,1,-1,0]],"limit":1}],"times":[[1,1,1],[1,1,1]]}],"trains":["T0","T1"],"version":2,"zones":1}
tables[0].sections[0]: never all at once: T0 from M to N (places 1 to 2), T1 at N (place 1)
====
protect|--rounds|0
{"version":1,"points":[["A",0],["M",0],["N",0],["B",0],["C",0],["D",0]],"links":[["A","M"],["M","N"],["N","B"],["C","N"],["M","D"]],"zones":1,"trains":["T0","T1"],"start":[0,0],"tables":[{"missions":[["A","M","N","B"],["C","N","M","D"]],"sections":[],"certificate":[]}]}
----
with these sections: 206 Stuck table=0 at=1,1; no more rounds are made
try `planner order` first, or a greater --budget or --rounds; or write a section where these trains meet, or give an exit to a train that ends in the way of others
====
certify
{"links":[["West1","West"],["West","Quay_E"],["Quay_E","Market_E"],["Market_E","Museum_E"],["Museum_E","Park_E"],["Park_E","Stadium_E"],["Stadium_E","Airport_E"],["Airport_E","East"],["East","East1"],["East2","East"],["East","Airport_W"],["Airport_W","Stadium_W"],["Stadium_W","Park_W"],["Park_W","Museum_W"],["Museum_W","Market_W"],["Market_W","Quay_W"],["Quay_W","West"],["West","West2"]],"points":[["West1",0],["West",0],["Quay_E",0],["Market_E",0],["Museum_E",0],["Park_E",0],["Stadium_E",0],["Airport_E",0],["East",0],["East1",0],["East2",0],["Airport_W",0],["Stadium_W",0],["Park_W",0],["Museum_W",0],["Market_W",0],["Quay_W",0],["West2",0]],"start":[0,0,0,0,0,0],"tables":[{"after":0,"certificate":[],"connections":[],"exits":[true,true,true,true,true,true],"missions":[["West1","West","Quay_E","Market_E","Museum_E","Park_E","Stadium_E","Airport_E","East","East1","East","Airport_W","Stadium_W","Park_W","Museum_W","Market_W","Quay_W","West","West1"],["West2","West","Quay_E","Market_E","Museum_E","Park_E","Stadium_E","Airport_E","East","East2","East","Airport_W","Stadium_W","Park_W","Museum_W","Market_W","Quay_W","West","West2"],["East1","East","Airport_W","Stadium_W","Park_W","Museum_W","Market_W","Quay_W","West","West1","West","Quay_E","Market_E","Museum_E","Park_E","Stadium_E","Airport_E","East","East1"],["East2","East","Airport_W","Stadium_W","Park_W","Museum_W","Market_W","Quay_W","West","West2","West","Quay_E","Market_E","Museum_E","Park_E","Stadium_E","Airport_E","East","East2"],["Museum_E","Park_E","Stadium_E","Airport_E","East","East1","East","Airport_W","Stadium_W","Park_W","Museum_W","Market_W","Quay_W","West","West1"],["Park_W","Museum_W","Market_W","Quay_W","West","West2","West","Quay_E","Market_E","Museum_E","Park_E","Stadium_E","Airport_E","East","East2"]],"sections":[{"changes":[[1,0,-1,0,0,0,0,0,0,0,0,0,0,0,0,0,0,1,0,-1],[0,0,0,0,0,0,0,0,0,0,0,0,0,0,0,0,0,0,0,0],[0,0,0,0,0,0,0,0,1,0,0,-1,0,0,0,0,0,0,0,0],[0,0,0,0,0,0,0,0,0,0,0,0,0,0,0,0,0,0,0,0],[0,0,0,0,0,0,0,0,0,0,0,0,0,1,0,-1],[0,0,0,0,0,0,0,0,0,0,0,0,0,0,0,0]],"limit":1},{"changes":[[0,0,0,0,0,0,0,0,0,0,0,0,0,0,0,0,0,0,0,0],[1,0,-1,0,0,0,0,0,0,0,0,0,0,0,0,0,0,1,0,-1],[0,0,0,0,0,0,0,0,0,0,0,0,0,0,0,0,0,0,0,0],[0,0,0,0,0,0,0,0,1,0,0,-1,0,0,0,0,0,0,0,0],[0,0,0,0,0,0,0,0,0,0,0,0,0,0,0,0],[0,0,0,0,1,0,0,-1,0,0,0,0,0,0,0,0]],"limit":1},{"changes":[[0,0,0,0,0,0,0,0,1,0,0,-1,0,0,0,0,0,0,0,0],[0,0,0,0,0,0,0,0,0,0,0,0,0,0,0,0,0,0,0,0],[1,0,-1,0,0,0,0,0,0,0,0,0,0,0,0,0,0,1,0,-1],[0,0,0,0,0,0,0,0,0,0,0,0,0,0,0,0,0,0,0,0],[0,0,0,0,1,0,0,-1,0,0,0,0,0,0,0,0],[0,0,0,0,0,0,0,0,0,0,0,0,0,0,0,0]],"limit":1},{"changes":[[0,0,0,0,0,0,0,0,0,0,0,0,0,0,0,0,0,0,0,0],[0,0,0,0,0,0,0,0,1,0,0,-1,0,0,0,0,0,0,0,0],[0,0,0,0,0,0,0,0,0,0,0,0,0,0,0,0,0,0,0,0],[1,0,-1,0,0,0,0,0,0,0,0,0,0,0,0,0,0,1,0,-1],[0,0,0,0,0,0,0,0,0,0,0,0,0,0,0,0],[0,0,0,0,0,0,0,0,0,0,0,0,0,1,0,-1]],"limit":1}],"times":[[3,3,3,3,3,3,3,3,8,3,3,3,3,3,3,3,3,8,3],[3,3,3,3,3,3,3,3,8,3,3,3,3,3,3,3,3,8,3],[3,3,3,3,3,3,3,3,8,3,3,3,3,3,3,3,3,8,3],[3,3,3,3,3,3,3,3,8,3,3,3,3,3,3,3,3,8,3],[3,3,3,3,8,3,3,3,3,3,3,3,3,8,3],[3,3,3,3,8,3,3,3,3,3,3,3,3,8,3]]}],"trains":["T1","T2","T3","T4","T5","T6"],"version":3,"zones":1}
----
its certificate's nodes are at most 14400
"##;
