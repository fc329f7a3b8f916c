//! A text of members or of elements, with what is remembered of refused memory.

ghost use Rattle.std.specs.Prelude.{◌≡◌, [], Some};
ghost use Rattle.json_text.specs.Written.{Says, with_element, with_member};
ghost use Rattle.json_text.specs.inner.Written.{value_text, written};

use crate::spelled::{put_element, put_member};
use crate::value::Value;
use std::alloc::Global;

/// What was written so far.
#[derive(Drop)]
pub struct Text {
    pub alloc: Global,
    pub bytes: Vec<u8>,
    /// Whether memory was refused, so that it is not whole.
    pub is_short: bool,
}

impl Text {
    /// Nothing.
    pub fn new(alloc: Global) -> Text
        ensures { written result ≡ Some [] }
    {
        Text {
            alloc,
            bytes: Vec::new(alloc),
            is_short: false,
        }
    }

    /// A member more.
    pub fn member(&mut self, key: &str, value: Value<'_>)
        ensures { Says (written self.new) (with_member key.now (value_text value.entry) (written self.old)) }
    {
        if put_member(self.alloc, &mut self.bytes, key, value).is_err() {
            self.is_short = true;
        }
    }

    /// An element more.
    pub fn element(&mut self, value: Value<'_>)
        ensures { Says (written self.new) (with_element (value_text value.entry) (written self.old)) }
    {
        if put_element(self.alloc, &mut self.bytes, value).is_err() {
            self.is_short = true;
        }
    }
}
