// What is printed for documents and journals that are refused. Each row is a part of an input, and the exit code and
// the words for it.
use crate::examples::documents::document_called;
use crate::examples::{is_answered, joined};
use ats_io::NoGate;
use std::alloc::{AllocError, Global};
use std::sync::Wait;
use std::thread::Threads;

// Members after those of the first path, in whose place they come.
const MEMBERS: &str = r#""version":9 => 3 103 Version value=9
"version":"1" => 3 102 Shape member=version
"start":7 => 3 102 Shape member=start
"start":[] => 3 111 StartLength count=0
"start":[3] => 3 112 StartIllegal 32 Range train=0
"points":[["A",0],["A",0],["C",0]] => 3 2 DoubleName first=0 second=1
"points":[["A",0],["B",1],["C",0]] => 3 5 ZoneRange point=1
"points":[["A",0],["B ",0],["C",0]] => 3 7 Name point=1
"zones":0 => 3 8 NoZone
"zones":2 => 3 6 ZoneEmpty zone=1
"links":[["A","A"],["A","D"]] => 3 3 UnknownPoint link=1
"links":[["A","B"],["C","C"]] => 3 4 SelfLink link=1
"trains":["T0","T1","T0"] => 3 15 DoubleName first=0 second=2
"trains":["T0","T 1","T0"] => 3 17 Name train=1
"tables":[] => 3 115 Tables count=0
"tables":[{"missions":[["A","B","D"]]}] => 3 13 UnknownPoint table=0 train=0 place=2
"tables":[{"missions":[["A","C","D"]]}] => 3 14 NotLinked table=0 train=0 place=1
"tables":[{"missions":[[]]}] => 3 12 Length table=0 train=0 count=0
"tables":[{"missions":[]}] => 3 16 Lists table=0 count=0
"tables":[{"missions":[["A","B","C"]],"sections":[{"limit":1,"changes":[[1,1,0]]}]}] => 3 24 Share table=0 section=0 train=0 place=1 value=2
"tables":[{"missions":[["A","B","C"]],"sections":[{"limit":1,"changes":[[0,-1,0]]}]}] => 3 24 Share table=0 section=0 train=0 place=1 value=-1
"tables":[{"missions":[["A","B","C"]],"sections":[{"limit":1,"changes":[[0,0]]}]}] => 3 22 Count table=0 section=0 train=0
"tables":[{"missions":[["A","B","C"]],"sections":[{"limit":33,"changes":[[0,0]]}]}] => 3 25 Limit table=0 section=0 value=33
"version":2,"tables":[{"missions":[["A","B","C"]],"sections":[{"limit":33,"changes":[[0,5,0]]}]}] => 3 23 Step table=0 section=0 train=0 place=1 value=5
"tables":[{"missions":[["A","B","C"]],"sections":[{"limit":0,"changes":[[1,0,0]]}]}] => 3 112 StartIllegal 34 Over section=0 count=1 limit=0
"version":3,"tables":[{"missions":[["A","B","C"]],"connections":[[0,0,2,1]]}] => 3 27 ConnectionTrain table=0 connection=0
"tables":[{"missions":[["A","B","C"]],"times":[[1,0]]}] => 3 114 TimesValue table=0 train=0 place=1 value=0"#;

// Members after those of one point. A member that no document has changes nothing.
const MEMBERS_OF_ONE_POINT: &str =
    r#""zones": 1 , "start" : [ 0, 4294967295 ] => 3 111 StartLength count=2
"start":[],"start":[7] => 3 112 StartIllegal 32 Range train=0
"start":[7,"x"],"start":[7] => 3 112 StartIllegal 32 Range train=0
"st\u0061rt":[7],"\u006cinks":[["\u0041","\ud83d\ude00"]] => 3 3 UnknownPoint link=0
"zones":1e0 => 3 102 Shape member=zones
"zones":1.0 => 3 102 Shape member=zones
"zones":-0 => 3 102 Shape member=zones
"zones":4294967296 => 3 102 Shape member=zones
"start":[01] => 3 101 NotJson
"start":[1,] => 3 101 NotJson
"zones":1e999 => 3 101 NotJson
"tables":[{"missions":[["A"]],"exits":[true,false],"connections":[[0,1,2,3]],"after":0}] => 3 18 Exits table=0 count=2
"tables":[{"missions":[["A"]],"connections":[[0,1,2]]}] => 3 102 Shape table=0 member=connections
"tables":[{"missions":[["A"]],"certificate":[[0,1,2],[1,3,4],[2,5],[3],[4,6]],"times":[[1,2],[],[3]]}] => 3 113 TimesLength table=0 train=1 count=3
"tables":[{"missions":[["A"]],"certificate":[[0,1,2,3]]}] => 3 102 Shape table=0 member=certificate
"tables":[{"missions":[["A"]],"certificate":[[]]}] => 3 102 Shape table=0 member=certificate
"tables":[{"missions":[["A"]],"certificate":[[5,6]]}] => 3 102 Shape table=0 member=certificate
"tables":[{"missions":[["A"]],"sections":[{"limit":3,"changes":[[1,-1,-2147483648,2147483647],[]]}]}] => 3 22 Count table=0 section=0 train=0
"tables":[{"missions":[["A"]],"sections":[{"limit":3,"changes":[[-0]]}]}] => 3 102 Shape table=0 member=sections
"tables":[{"missions":[["A"]],"sections":[{"limit":3,"changes":[[-2147483649]]}]}] => 3 102 Shape table=0 member=sections
"tables":[{"missions":[["A"]],"sections":[{"limit":3}]}] => 3 102 Shape table=0 member=sections
"tables":[{"certificate":[[3]]}] => 3 102 Shape table=0 member=missions
"tables":[7] => 3 102 Shape member=tables
"start":[[[[[[[[[7]]]]]]]]] => 3 102 Shape member=start
"start":[],"more":{"a":{"b":{"c":{"d":{"e":{"f":{"g":{"h":-1e-5}}}}}}}} => 3 111 StartLength count=0
"start":[],"more":[[[[[[[[1e999]]]]]]]] => 3 101 NotJson
"start":[],"more":[[[[[[[[1,]]]]]]]] => 3 101 NotJson"#;

// Lists that nest 126 levels deep: with the document around them as deep as a text may nest.
const OPEN_LISTS: &str =
    r#","more":[[[[[[[[[[[[[[[[[[[[[[[[[[[[[[[[[[[[[[[[[[[[[[[[[[[[[[[[[[[[[[[[[[[[[[[[[[[[[[[[[[[[[[[[[[[[[[[[[[[[[[[[[[[[[[[[[[[[[[[[[[[[[["#;

const OPEN_LISTS_OF_VERSION_9: &str =
    r#","version":9,"more":[[[[[[[[[[[[[[[[[[[[[[[[[[[[[[[[[[[[[[[[[[[[[[[[[[[[[[[[[[[[[[[[[[[[[[[[[[[[[[[[[[[[[[[[[[[[[[[[[[[[[[[[[[[[[[[[[[[[[[[[[[[[[["#;

const CLOSED: &str =
    "]]]]]]]]]]]]]]]]]]]]]]]]]]]]]]]]]]]]]]]]]]]]]]]]]]]]]]]]]]]]]]]]]]]]]]]]]]]]]]]]]]]]]]]]]]]]]]]]]]]]]]]]]]]]]]]]]]]]]]]]]]]]]]}";

// Certificates of the passing loop, whose table ends with them.
const NODES: &str = "\
[0,0,0] => 3 41 Short table=0 missing=2
 => 3 41 Short table=0 missing=1
[0,0,0],[4,0] => 3 41 Short table=0 missing=1
[0,0,0],[4,0],[4,0],[4,0] => 3 42 Over table=0 used=3
[0,0,2],[4,0],[3] => 4 51 Split table=0 index=0
[1,0,0] => 4 52 Clash table=0 index=0
[1,0,2] => 4 58 Name table=0 index=0
[2,0] => 4 58 Name table=0 index=0
[3] => 4 54 Arrived table=0 index=0 train=0
[4,1] => 4 55 MoveEnd table=0 index=0 train=1
[0,0,0],[4,0],[0,1,0],[0,0,1],[4,0],[1,0,1],[0,0,1],[4,0],[0,1,1],[4,1],[3] => 4 56 MovePoint table=0 index=4 train=0 other=1";

const TABLE_OF_THE_LOOP: &str =
    r#","tables":[{"missions":[["W","L1","E"],["E","L2","W"]],"certificate":["#;

// Certificates of two trains, one of which enters a section where the other stays.
const NODES_IN_A_SECTION: &str = "\
[0,0,0],[4,0],[0,1,0],[4,1],[3] => 4 57 MoveRoom table=0 index=1 train=0 section=0
[2,0] => 4 53 Overfull table=0 index=0 section=0 least=1";

const TABLE_WITH_A_SECTION: &str =
    r#","tables":[{"missions":[["A","B"],["C","D"]],"sections":[{"limit":1,"changes":[[0,1],[1,0]]}],"certificate":["#;

// Journals of the first path with a second table after its first move; `/` ends a line.
const JOURNALS: &str = "\
1 move T0 A B/ => 9 73 NoEnd
 => 9 73 NoEnd
1 move T0 A B => 9 71 Line line=1
01 move T0 A B/ => 9 71 Line line=1
4294967296 move T0 A B/ => 9 71 Line line=1
1 move T0 - A/ => 9 71 Line line=1
1 table  1/ => 9 71 Line line=1
1 table 1/end moves=0 tables=1 => 9 71 Line line=2
end moves=00 tables=0/ => 9 71 Line line=1
2 move T0 A B/ => 9 72 Number line=1
0 table 1/ => 9 72 Number line=1
end moves=0 tables=0// => 9 74 After
1 move T0 A B/2 table 1/3 move T0 B C/end moves=3 tables=1/ => 9 78 Counts
1 move T0 A B/2 move T0 B C/3 move T0 C -/end moves=3 tables=0/ => 9 75 Move line=3 Arrived
1 move T0 B C/end moves=1 tables=0/ => 9 79 Place line=1
1 table 1/end moves=0 tables=1/ => 9 76 Table line=1
1 move T0 A B/end moves=1 tables=0/ => 9 77 Unfinished train=0
1 move T0 A B/2 move T0 B C/end moves=2 tables=0/ => 9 80 Open table=1";

const TWO_TABLES_AND_A_JOURNAL: &str =
    r#","tables":[{"missions":[["A","B","C"]],"certificate":[[0,0,1],[4,0],[3]]},{"missions":[["A","B","C"]],"certificate":[[0,0,1],[4,0],[3]],"after":1}]}/journal/"#;

// Words, a document that goes on after its members with a text before the part that a row has and one after it, and
// the rows.
#[derive(Clone, Copy)]
struct Frame {
    words: &'static str,
    document: &'static str,
    before: &'static str,
    after: &'static str,
    rows: &'static str,
}

const FRAMES: [Frame; 8] = [
    Frame {
        words: "check",
        document: "first-path",
        before: ",",
        after: "}",
        rows: MEMBERS,
    },
    Frame {
        words: "migrate",
        document: "one-point",
        before: ",",
        after: "}",
        rows: MEMBERS_OF_ONE_POINT,
    },
    Frame {
        words: "migrate",
        document: "one-point",
        before: ",",
        after: r#","more":[{}]}"#,
        rows: MEMBERS_OF_ONE_POINT,
    },
    Frame {
        words: "check",
        document: "first-path",
        before: OPEN_LISTS,
        after: CLOSED,
        rows: " => 0 accepted tables=1 nodes=3",
    },
    Frame {
        words: "check",
        document: "first-path",
        before: OPEN_LISTS_OF_VERSION_9,
        after: CLOSED,
        rows: " => 3 103 Version value=9\n[] => 3 101 NotJson",
    },
    Frame {
        words: "check",
        document: "passing-loop",
        before: TABLE_OF_THE_LOOP,
        after: "]}]}",
        rows: NODES,
    },
    Frame {
        words: "check",
        document: "two-tracks",
        before: TABLE_WITH_A_SECTION,
        after: "]}]}",
        rows: NODES_IN_A_SECTION,
    },
    Frame {
        words: "verify",
        document: "first-path",
        before: TWO_TABLES_AND_A_JOURNAL,
        after: "",
        rows: JOURNALS,
    },
];

// Whether a call on a row's part ends as the row says.
fn is_refused(
    rt: &(impl Threads + Wait + Sync),
    alloc: Global,
    frame: &Frame,
    row: &str,
) -> Result<bool, AllocError> {
    let (part, answer) = row.split_once(" => ").unwrap_or((row, ""));
    let document = document_called(frame.document).unwrap_or("");
    let members = document.strip_suffix('}').unwrap_or("");
    let input = joined(alloc, members, frame.before, part, frame.after)?;
    is_answered(rt, alloc, &NoGate, frame.words, input, answer)
}

#[test]
fn documents_and_journals_are_refused_as_their_rows_say(rt: HostRuntime) {
    for frame in &FRAMES {
        for row in frame.rows.split('\n') {
            assert!(rt;
                matches!(is_refused(&rt, rt.alloc(), frame, row), Ok(true)),
                "{row}"
            );
        }
    }
}
