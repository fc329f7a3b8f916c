//! What a pair of captures went through: how often each side met each row of the rule tables of the station and of the links, while the judge
//! makes their records. It judges nothing by itself, takes no memory for what it counts, and touches no file, clock or thread.
#![tactic(auto)]

mod counts;
mod cover;
mod covering;
mod half;
mod hints;
mod link_rows;
mod missing;
mod order;
mod row;
mod row_names;
mod setups;
mod station_rows;
mod text;
mod tracker;

pub use counts::{Counts, ROWS};
pub use cover::Cover;
pub use covering::judge_covered;
pub use hints::{Hint, STATION_ROWS, Setup, all_hints, station_hints};
pub use missing::missing_text;
pub use order::{ORDER, rows_stand_at_their_places};
pub use row::{
    AstrtArrival, Damage, LinkAct, Loss, MessageKind, Row, RunningArrival, Sending, UnitKind,
};
pub use setups::all_setups;
pub use text::table;
