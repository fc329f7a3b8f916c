//! What passed on a line, and the two captures that it stands for.
//!
//! The crate reads the text of what passed piece by piece, has the units of each direction found in it (`framer`) and each of them placed
//! (`placing`), and writes both captures. It decides nothing of what it writes: that is judged by `pair_judge`. It also finds units that no right
//! node sent (`accusing`, `accusing_links`, `accusing_segments`).
#![tactic(auto)]

mod accusation;
mod accused;
mod accusers;
mod addressed;
mod begun;
mod direction;
mod evidence;
mod exception;
mod fault;
mod format;
mod laws;
mod outlet;
mod shown;
mod side_tap;
mod sifting;
mod stop;
mod suspects;
mod tapped;
mod tapping;
mod told;

pub use accusation::{Accusation, Accused, Broken, Exception};
pub use accused::find_accused;
pub use fault::TapFault;
pub use laws::what_passed_of_a_side_are_its_units;
pub use tapped::{Asked, Ending, Passed, Skipped, Tapped, Units};
pub use tapping::tap;
