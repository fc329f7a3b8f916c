//! The ladder of two captures: what both sides made, row by row, and its text of 80 columns or its picture. It is told records one by one,
//! and keeps a few of them with the units that may still come. It judges nothing, and touches no file, clock or thread.
#![tactic(auto)]

mod cell;
mod drawn;
mod given;
mod half;
mod ladder;
mod laws;
mod note;
mod order;
mod reading;
mod row;
mod row_words;
mod rows;
mod said;
mod sides;
mod state;
mod svg;
mod svg_arrivals;
mod svg_arrows;
mod svg_columns;
mod svg_key;
mod svg_labels;
mod svg_marks;
mod svg_parts;
mod svg_places;
mod svg_style;
mod svg_words;
mod text;
mod told;
mod under_way;
mod xml;
mod xml_names;

pub use cell::{Cell, End};
pub use dna_station::State;
pub use drawn::Drawn;
pub use ladder::Ladder;
pub use laws::{
    arrow_is_by_the_hint, order_keeps_sides, records_stand_once_in_order, rows_have_no_gap,
};
pub use note::Note;
pub use reading::said_by;
pub use row::{Fate, Receipt, Row};
pub use rows::Keep;
pub use said::{Content, Link, Said};
pub use svg::{Caption, Marked};
pub use told::{Sending, Told, What};
