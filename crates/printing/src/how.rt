//! How captures are judged, and how the answer is printed.

use crate::layers::Layers;

/// How the answer is printed.
#[derive(Clone, Copy, PartialEq, Eq)]
pub enum Form {
    /// In rows, to be read.
    Rows,
    /// As JSON objects, one a line.
    Json,
}

/// Which refusals are told.
#[derive(Clone, Copy, PartialEq, Eq)]
pub enum Refusals {
    /// The first one, which ends the judgement.
    First,
    /// All: what is refused is left out, and the rest is judged on.
    All,
}

/// How captures are judged, and how the answer is printed.
#[derive(Clone, Copy)]
pub struct How {
    pub form: Form,
    pub layers: Layers,
    pub refusals: Refusals,
}
