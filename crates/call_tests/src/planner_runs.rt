// Timed runs: a document, a line `journal`, and what `ats sim` writes of it.
// Words, a timed run and an answer each.
pub(crate) const RUNS: &str = r##"timetable
[[train]]
name = "T0"
route = ["W", "L1", "E"]

[[train]]
name = "T1"
route = ["E", "L2", "W"]

journal
0 move T0 W L1
0 move T1 E L2
1 move T0 L1 E
1 move T1 L2 W
end moves=4 tables=0 last=1
----
train  point  arrives  leaves  waits
T0     W            -       0      0
T0     L1           1       1      0
T0     E            2       -      -
T1     E            -       0      0
T1     L2           1       1      0
T1     W            2       -      -
T0 ends at 2, and waits 0 in all
T1 ends at 2, and waits 0 in all
end of the last step: 2
====
timetable
{"version":1,"points":[["W",0],["L1",0],["E",0],["L2",0]],"links":[["W","L1"],["L1","E"],["E","L2"],["L2","W"]],"zones":1,"trains":["T0","T1"],"start":[0,0],"tables":[{"missions":[["W","L1","E"],["E","L2","W"]],"certificate":[[0,0,0],[4,0],[0,1,0],[0,0,1],[4,1],[1,0,1],[0,0,1],[4,0],[0,1,1],[4,1],[3]]}]}

journal
0 move T0 W L1
0 move T1 E L2
1 move T0 L1 E
1 move T1 L2 W
end moves=4 tables=0 last=1
----
train  point  arrives  leaves  waits
T0     W            -       0      0
T0     L1           1       1      0
T0     E            2       -      -
T1     E            -       0      0
T1     L2           1       1      0
T1     W            2       -      -
T0 ends at 2, and waits 0 in all
T1 ends at 2, and waits 0 in all
end of the last step: 2
====
timetable
{"links":[["Wa","W"],["Wb","W"],["W","P1"],["W","P2"],["P1","E"],["P2","E"]],"points":[["Wa",0],["W",0],["Wb",0],["P1",0],["P2",0],["E",0]],"start":[0,0],"tables":[{"after":0,"certificate":[[0,0,2],[0,0,1],[0,0,0],[0,1,2],[4,1],[4,0],[0,1,2],[0,1,1],[4,0],[4,1],[4,0],[0,1,2],[4,0],[0,1,3],[4,1],[4,0],[0,0,3],[4,0],[0,1,2],[4,1],[0,1,3],[4,1],[3]],"exits":[true,true],"missions":[["Wa","W","P1","E"],["Wb","W","P1","E"]],"sections":[],"times":[[1,31,1,1],[1,31,1,1]]},{"after":2,"certificate":[[0,0,2],[0,0,1],[0,0,0],[0,1,2],[4,1],[4,0],[4,0],[0,1,2],[4,0],[0,1,3],[4,1],[4,0],[0,0,3],[4,0],[0,1,2],[4,1],[0,1,3],[4,1],[3]],"exits":[true,true],"missions":[["Wa","W","P1","E"],["Wb","W","P2","E"]],"sections":[],"times":[[1,31,1,1],[1,31,1,1]]}],"trains":["T0","T1"],"version":2,"zones":1}

journal
0 move T0 Wa W
1 move T0 W P1
1 table 1
1 move T1 Wb W
2 move T1 W P2
32 move T0 P1 E
33 move T0 E -
33 move T1 P2 E
34 move T1 E -
end moves=8 tables=1 last=34
----
train  point  arrives  leaves  waits
T0     Wa           -       0      0
T0     W            1       1      0
T0     P1          32      32      0
T0     E           33      33      0
T0     -           34       -      -
T1     Wb           -       1      1
T1     W            2       2      0
T1     P2          33      33      0
T1     E           34      34      0
T1     -           35       -      -
table 1 takes over at 1
T0 ends at 34, and waits 0 in all
T1 ends at 35, and waits 1 in all
end of the last step: 35
====
timetable|--csv|--journal|run
{"version":1,"points":[["A",0],["M",0],["N",0],["B",0],["C",0],["D",0]],"links":[["A","M"],["M","N"],["N","B"],["C","N"],["M","D"]],"zones":1,"trains":["T0","T1"],"start":[0,0],"tables":[{"missions":[["A","M","N","B"],["C","N","M","D"]],"sections":[{"limit":1,"changes":[[0,1,0,-1],[0,1,0,-1]]}],"certificate":[[0,0,0],[0,1,0],[4,0],[0,1,2],[4,1],[4,0],[0,0,2],[0,1,0],[4,0],[0,1,2],[2,0],[4,0],[0,1,2],[4,1],[3]]}]}

journal
0 move T0 A M
1 move T0 M N
2 move T0 N B
2 move T1 C N
3 move T1 N M
4 move T1 M D
end moves=6 tables=0 last=4
----
train,point,arrives,leaves,waits
T0,A,,0,0
T0,M,1,1,0
T0,N,2,2,0
T0,B,3,,
T1,C,,2,2
T1,N,3,3,0
T1,M,4,4,0
T1,D,5,,
====
graph|--blocks|--train|T9
{"version":1,"points":[["A",0],["M",0],["N",0],["B",0],["C",0],["D",0]],"links":[["A","M"],["M","N"],["N","B"],["C","N"],["M","D"]],"zones":1,"trains":["T0","T1"],"start":[0,0],"tables":[{"missions":[["A","M","N","B"],["C","N","M","D"]],"sections":[{"limit":1,"changes":[[0,1,0,-1],[0,1,0,-1]]}],"certificate":[[0,0,0],[0,1,0],[4,0],[0,1,2],[4,1],[4,0],[0,0,2],[0,1,0],[4,0],[0,1,2],[2,0],[4,0],[0,1,2],[4,1],[3]]}]}

journal
0 move T0 A M
1 move T0 M N
2 move T0 N B
2 move T1 C N
3 move T1 N M
4 move T1 M D
end moves=6 tables=0 last=4
----
there is no train "T9"
====
report|--title|A & B
{"version":1,"points":[["A",0],["M",0],["N",0],["B",0],["C",0],["D",0]],"links":[["A","M"],["M","N"],["N","B"],["C","N"],["M","D"]],"zones":1,"trains":["T0","T1"],"start":[0,0],"tables":[{"missions":[["A","M","N","B"],["C","N","M","D"]],"sections":[{"limit":1,"changes":[[0,1,0,-1],[0,1,0,-1]]}],"certificate":[[0,0,0],[0,1,0],[4,0],[0,1,2],[4,1],[4,0],[0,0,2],[0,1,0],[4,0],[0,1,2],[2,0],[4,0],[0,1,2],[4,1],[3]]}]}

journal
0 move T0 A M
1 move T0 M N
2 move T0 N B
2 move T1 C N
3 move T1 N M
4 move T1 M D
end moves=6 tables=0 last=4
----
a text with <tbody>
<tr><td>T0</td><td>A</td><td></td><td>0</td><td>0</td><td></td></tr>
<tr><td>T0</td><td>M</td><td>1</td><td>1</td><td>0</td><td></td></tr>
<tr><td>T0</td><td>N</td><td>2</td><td>2</td><td>0</td><td></td></tr>
<tr><td>T0</td><td>B</td><td>3</td><td></td><td></td><td></td></tr>
<tr><td>T1</td><td>C</td><td></td><td>2</td><td>2</td><td>for T0 at N</td></tr>
<tr><td>T1</td><td>N</td><td>3</td><td>3</td><td>0</td><td></td></tr>
<tr><td>T1</td><td>M</td><td>4</td><td>4</td><td>0</td><td></td></tr>
<tr><td>T1</td><td>D</td><td>5</td><td></td><td></td><td></td></tr>
</tbody>
====
report|--title|A & B
{"version":1,"points":[["A",0],["M",0],["N",0],["B",0],["C",0],["D",0]],"links":[["A","M"],["M","N"],["N","B"],["C","N"],["M","D"]],"zones":1,"trains":["T0","T1"],"start":[0,0],"tables":[{"missions":[["A","M","N","B"],["C","N","M","D"]],"sections":[{"limit":1,"changes":[[0,1,0,-1],[0,1,0,-1]]}],"certificate":[[0,0,0],[0,1,0],[4,0],[0,1,2],[4,1],[4,0],[0,0,2],[0,1,0],[4,0],[0,1,2],[2,0],[4,0],[0,1,2],[4,1],[3]]}]}

journal
0 move T0 A M
1 move T0 M N
2 move T0 N B
2 move T1 C N
3 move T1 N M
4 move T1 M D
end moves=6 tables=0 last=4
----
a text with <h1>A &amp; B</h1>
<section id="verdict" class="certified">
====
compare|--delay|T0=M+5
{"version":1,"points":[["A",0],["M",0],["N",0],["B",0],["C",0],["D",0]],"links":[["A","M"],["M","N"],["N","B"],["C","N"],["M","D"]],"zones":1,"trains":["T0","T1"],"start":[0,0],"tables":[{"missions":[["A","M","N","B"],["C","N","M","D"]],"sections":[{"limit":1,"changes":[[0,1,0,-1],[0,1,0,-1]]}],"certificate":[[0,0,0],[0,1,0],[4,0],[0,1,2],[4,1],[4,0],[0,0,2],[0,1,0],[4,0],[0,1,2],[2,0],[4,0],[0,1,2],[4,1],[3]]}]}
----
train  ends  then  later  waits  then  longer
T0        3     8     +5      0     0       0
T1        5    10     +5      2     7      +5
all       5    10     +5      2     7      +5
====
compare|--csv|--delay|T0=M+5
{"version":1,"points":[["A",0],["M",0],["N",0],["B",0],["C",0],["D",0]],"links":[["A","M"],["M","N"],["N","B"],["C","N"],["M","D"]],"zones":1,"trains":["T0","T1"],"start":[0,0],"tables":[{"missions":[["A","M","N","B"],["C","N","M","D"]],"sections":[{"limit":1,"changes":[[0,1,0,-1],[0,1,0,-1]]}],"certificate":[[0,0,0],[0,1,0],[4,0],[0,1,2],[4,1],[4,0],[0,0,2],[0,1,0],[4,0],[0,1,2],[2,0],[4,0],[0,1,2],[4,1],[3]]}]}
----
train,point,arrives,arrives then,later,waits,waits then,longer
T0,A,,,,0,0,0
T0,M,1,6,5,0,0,0
T0,N,2,7,5,0,0,0
T0,B,3,8,5,,,
T1,C,,,,2,7,5
T1,N,3,8,5,0,0,0
T1,M,4,9,5,0,0,0
T1,D,5,10,5,,,
====
timetable|--csv|--delay|T1=N+7
{"version":1,"points":[["A",0],["M",0],["N",0],["B",0],["C",0],["D",0]],"links":[["A","M"],["M","N"],["N","B"],["C","N"],["M","D"]],"zones":1,"trains":["T0","T1"],"start":[0,0],"tables":[{"missions":[["A","M","N","B"],["C","N","M","D"]],"sections":[{"limit":1,"changes":[[0,1,0,-1],[0,1,0,-1]]}],"certificate":[[0,0,0],[0,1,0],[4,0],[0,1,2],[4,1],[4,0],[0,0,2],[0,1,0],[4,0],[0,1,2],[2,0],[4,0],[0,1,2],[4,1],[3]]}]}
----
train,point,arrives,leaves,waits
T0,A,,0,0
T0,M,1,1,0
T0,N,2,2,0
T0,B,3,,
T1,C,,2,2
T1,N,10,10,0
T1,M,11,11,0
T1,D,12,,
====
compare|--delay|T9=M+5
{"version":1,"points":[["A",0],["M",0],["N",0],["B",0],["C",0],["D",0]],"links":[["A","M"],["M","N"],["N","B"],["C","N"],["M","D"]],"zones":1,"trains":["T0","T1"],"start":[0,0],"tables":[{"missions":[["A","M","N","B"],["C","N","M","D"]],"sections":[{"limit":1,"changes":[[0,1,0,-1],[0,1,0,-1]]}],"certificate":[[0,0,0],[0,1,0],[4,0],[0,1,2],[4,1],[4,0],[0,0,2],[0,1,0],[4,0],[0,1,2],[2,0],[4,0],[0,1,2],[4,1],[3]]}]}
----
--delay: there is no train "T9"
====
graph|--delay|T0=C+5
{"version":1,"points":[["A",0],["M",0],["N",0],["B",0],["C",0],["D",0]],"links":[["A","M"],["M","N"],["N","B"],["C","N"],["M","D"]],"zones":1,"trains":["T0","T1"],"start":[0,0],"tables":[{"missions":[["A","M","N","B"],["C","N","M","D"]],"sections":[{"limit":1,"changes":[[0,1,0,-1],[0,1,0,-1]]}],"certificate":[[0,0,0],[0,1,0],[4,0],[0,1,2],[4,1],[4,0],[0,0,2],[0,1,0],[4,0],[0,1,2],[2,0],[4,0],[0,1,2],[4,1],[3]]}]}
----
--delay: the way of T0 leads to no point "C"
====
report|--delay|T0=M+1000
{"version":1,"points":[["A",0],["M",0],["N",0],["B",0],["C",0],["D",0]],"links":[["A","M"],["M","N"],["N","B"],["C","N"],["M","D"]],"zones":1,"trains":["T0","T1"],"start":[0,0],"tables":[{"missions":[["A","M","N","B"],["C","N","M","D"]],"sections":[{"limit":1,"changes":[[0,1,0,-1],[0,1,0,-1]]}],"certificate":[[0,0,0],[0,1,0],[4,0],[0,1,2],[4,1],[4,0],[0,0,2],[0,1,0],[4,0],[0,1,2],[2,0],[4,0],[0,1,2],[4,1],[3]]}]}
----
--delay: the step of T0 to M takes 1 ticks, and with the delay more than 1000
====
report|--title|Knot
# A train waits for another one, which waits for a section that the first one has: a knot, and no circle by points.
[[train]]
name = "T0"
route = ["A", "M", "N", "B"]

[[train]]
name = "T1"
route = ["C", "N", "K", "D"]

[[section]]
name = "crossing"
limit = 1
points = ["M", "K"]
----
a text with <h2>Not certified: a state is stuck</h2>
<pre>T0 is at M, place 1 of 3, and wants N: T1 is there
====
report
{"version":1,"points":[["A",0],["M",0],["N",0],["B",0],["C",0],["D",0]],"links":[["A","M"],["M","N"],["N","B"],["C","N"],["M","D"]],"zones":1,"trains":["T0","T1"],"start":[0,0],"tables":[{"missions":[["A","M","N","B"],["C","N","M","D"]],"sections":[{"limit":1,"changes":[[0,1,0,-1],[0,1,0,-1]]}],"certificate":[[0,0,0],[0,1,0],[4,0],[0,1,2],[4,1],[4,0],[0,0,2],[0,1,0],[4,0],[0,1,2],[2,0],[4,0],[0,1,2],[4,1],[3]]}]}
----
a text with <tr><td>section 0</td><td>1</td><td><div><b>T0</b> M N</div><div><b>T1</b> N M</div></td></tr>
"##;
