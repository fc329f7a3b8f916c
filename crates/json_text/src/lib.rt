//! A JSON text that is well-formed by its types, whatever its words are: the members of an object and the elements of an array, written one after
//! the other. It remembers whether memory was refused, and says so once, at its end. It knows no key, and touches no file.
#![tactic(auto)]

mod elements;
mod members;
mod spelled;
mod text;
mod value;

pub use elements::Elements;
pub use members::Members;
