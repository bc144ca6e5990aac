// What each refusal of `ats` means, and what to do about it.

/// What a refusal of `ats` means, and what to do about it.
#[derive(Clone, Copy)]
pub(crate) struct Refusal {
    pub meaning: &'static str,
    pub advice: &'static str,
}

// The words of each refusal without fields, what it means, and what to do about it: a line each.
const REFUSALS: &str = "\
1 TooMany|The document has more points, links or zones than are allowed: 512 points, 2,048 links, 16 zones.|Leave out points where no train waits or meets another, or make two documents of parts that share no point.
2 DoubleName|Two points have the same name.|Rename one of them, or leave the second one out if both are the same point.
3 UnknownPoint|A link names a point that isn't in points.|Add the point to points, or correct the name; capital letters matter.
4 SelfLink|A link joins a point to itself.|Leave the link out, or correct one of its two names.
5 ZoneRange|A point's zone isn't below the number of zones.|Give the point a zone below zones. With zones 1, each point has zone 0.
6 ZoneEmpty|A zone has no point.|Put a point into the zone, or lower zones. With zones 1, each point has zone 0.
7 Name|A point's name isn't one: a name has 1 to 16 of A-Z, a-z, 0-9 and _.|Rename the point wherever it stands: in points, links and missions.
8 NoZone|The number of zones is 0.|Set zones to 1, and give each point zone 0.
11 TooMany|There are more than 32 trains.|Leave trains out, or make two documents of parts that share no point.
12 Length|A mission has no point or too many: 1 to 128, and at most 127 if the train leaves the layout after the last one.|Leave out points where the train neither waits nor meets another.
13 UnknownPoint|A mission names a point that isn't in points.|Add the point to points, or correct the name; capital letters matter.
14 NotLinked|No link joins this point of a mission to the one before it.|Add the link to links, or correct the mission.
15 DoubleName|Two trains have the same name.|Rename one of them.
16 Lists|The table has another number of missions than there are trains.|Write one mission for each train, in the order of trains.
17 Name|A train's name isn't one: a name has 1 to 16 of A-Z, a-z, 0-9 and _.|Rename the train in trains.
18 Exits|The table has another number of exits than there are trains.|Write true or false for each train, in the order of trains; or leave exits out if no train leaves the layout.
21 TooMany|The table has more than 64 sections.|Write one section in place of many, such as one that lets all but one of the trains into an area.
22 Count|A section hasn't one change for each place of a train; or, if the train is the number of trains, it has one list too many.|Write one list for each train, with a change for each of its places, the one after an exit too.
23 Step|A change of a section is too large, up or down: -4 to 4, and -1 to 1 in version 1.|A change is by how much the share rises when the train reaches the place: for the shares 0 1 1 0 write 0, 1, 0, -1.
24 Share|A train's share of a section is below 0 or too large: 0 to 4, and 0 or 1 in version 1.|The share at a place is the sum of the changes up to it: for the shares 0 1 1 0 write 0, 1, 0, -1.
25 Limit|A section's limit is too large: at most 128, and 32 in version 1.|Lower the limit. A limit that all shares together don't reach has no effect.
26 Connections|The table has more than 32 connections.|Leave out connections that follow from others.
27 ConnectionTrain|A connection doesn't name two different trains.|Write [train, place, other, reached] with the numbers of two trains, counted from 0.
28 ConnectionPlace|A connection names a place that its train can't leave, or one that the other train can't reach.|Places are counted from 0 along a train's mission, and no train leaves its last place.
41 Short|The nodes of a certificate don't form one whole tree: nodes are missing. A table without a certificate lacks one node.|Let ats make write the certificate.
42 Over|The nodes of a certificate don't form one whole tree: nodes are left over.|Let ats make write the certificate.
43 TooMany|A certificate has more than 1,000,000 nodes.|Let fewer trains into one area at a time by a section, and then let ats make write the certificate.
51 Split|A node of the certificate splits a range of places where it can't be split.|The certificate doesn't fit the table, as after an edit: let ats make write a new one.
52 Clash|A node of the certificate says that two trains are always at the same point, and they needn't be.|The certificate doesn't fit the table, as after an edit: let ats make write a new one.
53 Overfull|A node of the certificate says that a section is overfull, and the least shares don't pass its limit.|The certificate doesn't fit the table, as after an edit: let ats make write a new one.
54 Arrived|A node of the certificate says that all trains have arrived, and a train may be elsewhere.|The certificate doesn't fit the table, as after an edit: let ats make write a new one.
55 MoveEnd|A node of the certificate says that a train surely has a move, and it may be at its last place.|The certificate doesn't fit the table, as after an edit: let ats make write a new one.
56 MovePoint|A node of the certificate says that a train surely has a move, and another train may be at its next point.|The certificate doesn't fit the table, as after an edit: let ats make write a new one.
57 MoveRoom|A node of the certificate says that a train surely has a move, and a section may have no room for it.|The certificate doesn't fit the table, as after an edit: let ats make write a new one.
58 Name|A node of the certificate names a train or a section that doesn't exist.|The certificate doesn't fit the table, as after an edit: let ats make write a new one.
59 MoveWait|A node of the certificate says that a train surely has a move, and a connection may hold it.|The certificate doesn't fit the table, as after an edit: let ats make write a new one.
70 NoJournal|The input has no line journal between the document and the journal.|Put a line with this one word between the two. The document has to end with a newline.
71 Line|This isn't a line of a journal.|A line is as ats run prints it: words with one space between them, names of the document, and a newline at its end.
72 Number|A line of the journal has the wrong number.|Lines are numbered from 1. A line before this one is missing, is there twice, or is out of order.
73 NoEnd|The journal has no end line.|Add the lines that are missing; ats resume goes on from the ones that are there.
74 After|Something follows the end line of the journal.|The end line has to be the last one: leave out what follows it.
75 Move Arrived|The train can't make the move of this line: it has arrived.|The dispatcher let the train go too early, or a line before this one is missing.
75 Move Occupied|The train can't make the move of this line: another train is at its next point.|The dispatcher let the train go too early, or a line before this one is missing.
75 Move Full|The train can't make the move of this line: a section has no room for it.|The dispatcher let the train go too early, or a line before this one is missing.
75 Move Waits|The train can't make the move of this line: a connection holds it.|The dispatcher let the train go too early, or a line before this one is missing.
76 Table|The line isn't the answer of the next table: the table is another one, it isn't due yet, or the answer is wrong.|Each table is tried once, in the order of tables, when its after says, or once all trains have arrived.
77 Unfinished|The journal ends before this train has arrived.|Add the moves that are missing; ats resume makes them.
78 Counts|The end line of the journal has a wrong count.|It counts the lines with a move, and those with a table that took over.
79 Place|The move of this line isn't from the train's point to its next one.|The train's name or a point is wrong, or a line before this one is missing.
80 Open|The journal ends before this table has an answer.|Each table is tried once: add its line table or kept; ats resume makes it.
101 NotJson|The document isn't JSON.|Look for a comma, a quotation mark or a bracket that is missing or too many. JSON has no comments.
102 Shape|A member of the document is missing, or isn't of the shape that it has to be.|Write it in this shape. A member whose name is misspelt counts as missing.
103 Version|The document's version isn't 1, 2 or 3.|Set version to 3.
104 TooLong|The input is too long.|Leave the certificates out and let ats make write them, or leave trains out.
105 After|A table is due too late: table 0 at once, each other table after at most 1,000,000 moves.|Leave after out in table 0, and lower it in the others.
111 StartLength|Start hasn't one position for each train.|Write one place for each train, in the order of trains, counted from 0 along its mission.
112 StartIllegal 31 Length|The start isn't legal: it hasn't one position for each train.|Write one place for each train, in the order of trains.
112 StartIllegal 32 Range|The start isn't legal: a train is past its last place.|A position is a place, counted from 0 along the train's mission.
112 StartIllegal 33 Clash|The start isn't legal: two trains are at the same point.|Put one of them elsewhere, or change its mission.
112 StartIllegal 34 Over|The start isn't legal: the trains' shares of a section add up to more than its limit.|Put fewer trains into the section, or raise its limit. After derive and repair the section is one that they made.
113 TimesLength|A table's times haven't one time for each step of a train; or, if the train is the number of trains, not one list for each train.|Write one list for each train, with a time for each step: a train that doesn't leave the layout has one step fewer than points.
114 TimesValue|A travel time isn't 1 to 1,000 ticks.|Correct the time, or choose a longer tick.
115 Tables|The document has no table, or more than 16.|Write one table for the routes and rules of the beginning, and one for each time at which they change.
121 Many|The table would have more than 64 sections.|Put fewer trains into one document, or write one section by hand in place of many and let ats make write the certificate.
201 Words|The command line isn't one that ats takes.|Give one command, and then its options with a whole number each, as in ats make --budget 1000.
202 Memory|Out of memory.|Try again with more memory, or with fewer trains.
205 Spent|The certificate needs more nodes than the budget.|Raise --budget, at most to 1,000,000, or let fewer trains into one area at a time by a section, and then let ats make write the certificate.
207 ReadFault|Standard input couldn't be read to its end.|Try again; look at what writes the input.
208 WriteFault|Standard output couldn't be written. What was written is the beginning of the text.|Try again; look at what reads the output, and at the room on the disk.
210 Connected|The table has connections, and ats repair takes no such table.|Let ats derive make sections, or write sections by hand and let ats make write the certificate.\
";

/// The refusal with these words.
pub(crate) fn refusal_of(words: &str) -> Option<Refusal> {
    for line in REFUSALS.split('\n') {
        if let Some((known, sentences)) = line.split_once('|') {
            if known == words {
                let (meaning, advice) = sentences.split_once('|')?;
                return Some(Refusal { meaning, advice });
            }
        }
    }
    None
}
