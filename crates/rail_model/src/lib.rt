//! The plain types of a dispatcher, and the definitions that every contract cites.
#![tactic(auto)]

mod checked;
mod copies;
mod laws;
mod layout;
mod lists;
mod names;
mod naming;
mod offers;
mod plain;
mod same;
mod table;
mod times;
mod types;

pub use copies::{TryCopy, copy_all, copy_missions, copy_table};
pub use laws::{
    accepted_is_live, accepted_or_one_first_bad, each_ask_has_one_answer,
    each_block_has_one_answer, each_box_is_tested, each_history_has_its_journal,
    each_mission_is_tested, each_name_is_tested, each_state_is_tested,
    each_step_goes_to_another_point, each_table_has_one_answer, each_turn_has_one_answer,
    histories_are_joined, live_completes, missions_of_a_layout_are_missions,
    moves_raise_the_positions,
};
pub use layout::{Layout, Link, Point, are_linked, home_of, points_of, zone_of, zones_of};
pub use lists::{Changes, Mission, Missions, Nodes, State};
pub use names::Names;
pub use naming::{first_bad_name, is_name};
pub use offers::HasTable;
pub use plain::{PlainState, Standing};
pub use table::{
    Connection, Section, Table, change_at, connection_of, connections_of, has_point, last_of,
    limit_of, point_of, sections_of, share_at, trains_of,
};
pub use times::{TableTimes, Times, TrainTimes};
pub use types::{Ask, Bad, BlockAsk, Entry, Line, Node, Reply, Tried};
