//! Small edits of a capture: a text with changes of its lines, as it is read, and the edits that undo a recorder's mistakes.
//!
//! The crate decides which bytes a changed text has, and which changes are worth a try near a refused record. It never touches a file or a
//! clock, and judges nothing.
#![tactic(auto)]

mod ahead;
mod change;
mod edits;
mod line_changes;
mod lines;
mod mistake;
mod near;
mod reader;
mod row;
mod spelling;

pub use change::Change;
pub use edits::{Edit, Edits, MAX_EDITS};
pub use mistake::{Mistake, MistakeOf};
pub use near::candidates;
pub use reader::EditedReader;
pub use row::{Damage, Due, Refused, Row, Stretch};
pub use spelling::with_bytes;
