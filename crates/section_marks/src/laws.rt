// What it means that sections and connections are taken.
ghost use Rattle.std.specs.Prelude.{◌≡◌, ◌↔◌, List, [], Ok};
ghost use Rattle.rail_model.specs.Table.{Table, Mission, Section, Connection, AreMissions, IsTable};
ghost use Rattle.section_marks.specs.declared.marks.Marks.{Marks as MarksValue};
ghost use Rattle.section_marks.specs.Connecting.{connected};
ghost use Rattle.section_marks.specs.Keeping.{KeepsTo};
ghost use Rattle.section_marks.specs.Marking.{table_from};

/// Sections are taken exactly where they make a table with the missions: where each has one change per train and place, and no limit
/// and no share is out of range. What is taken has the missions and the sections that were given, and no connection.
pub fn exactly_sections_of_the_missions_are_taken()
    ensures { (marks : MarksValue) (missions : List Mission) (sections : List Section) (T : Table) → AreMissions missions
        → (table_from marks missions sections ≡ Ok T)
        ↔ ((T ≡ record { missions = missions; sections = sections; connections = [] }) × IsTable T × KeepsTo marks T) }
{}

/// Connections are taken exactly where the table with them in place of its own is one: where each is of two different trains, the one
/// can leave its place and the other can reach its. What is taken is that table.
pub fn exactly_connections_of_the_table_are_taken()
    ensures { (T made : Table) (list : List Connection) → IsTable T
        → (connected T list ≡ Ok made) ↔ ((made ≡ record T { connections = list }) × IsTable made) }
{}
