//! How what is said is put down.

/// As JSON objects with their keys, or in rows of text.
#[derive(Clone, Copy)]
pub enum Form {
    Object,
    Rows,
}
