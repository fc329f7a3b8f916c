//! A value, as it is to be spelled.

use crate::text::Text;

#[derive(Clone, Copy)]
pub enum Value<'a> {
    Null,
    Flag(bool),
    Number(u128),
    String(&'a str),
    /// Of these members.
    Object(&'a Text),
    /// Of these elements.
    Array(&'a Text),
}
