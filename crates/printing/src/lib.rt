//! What is printed of an answer of the judge, by `check` and `alone`, and what is told of a fault: the texts, the objects of JSON and the status; and
//! how the files are opened that the words name. It judges by the judge alone, and says nothing of why.
#![tactic(auto)]

pub mod alone;
pub mod answers;
pub mod check;
pub mod end_text;
pub mod fault_told;
pub mod files;
pub mod how;
pub mod layers;
pub mod objects;
pub mod pair_files;
pub mod path_text;
pub mod text;
pub mod written;
