//! Which byte of a header has a value that it may not have, in words (DDCMP 4.1, message formats).

use std::fmt::{self, Formatter, Write};

// A byte of a header that has one right value.
#[derive(Clone, Copy)]
struct Field {
    place: usize,
    name: &'static str,
    due: u8,
}

const RESP: Field = Field {
    place: 3,
    name: "RESP",
    due: 0,
};

const NUM: Field = Field {
    place: 4,
    name: "NUM",
    due: 0,
};

const ADDR: Field = Field {
    place: 5,
    name: "ADDR",
    due: 1,
};

/// Writes which byte of a header is not what it must be, the first of them: `malformed 5: byte 5 (ADDR) is 0, must be 1`. Bytes are counted from 0.
pub fn write_wrong_field<W: Write>(f: &mut Formatter<W>, bytes: &[u8]) -> fmt::Result {
    f.write_str("malformed 5: ")?;
    for field in [RESP, NUM, ADDR] {
        if let Some(seen) = bytes.get(field.place).copied() {
            if is_fixed(field, bytes) && seen != field.due {
                let place = field.place;
                let name = field.name;
                let due = field.due;
                return write!(f, "byte {place} ({name}) is {seen}, must be {due}");
            }
        }
    }
    f.write_str("a byte of the header is not what it must be")
}

// Whether the field has one right value in the message that begins so: RESP in a REP, a STRT and a STACK, NUM in each control message but a REP.
fn is_fixed(field: Field, bytes: &[u8]) -> bool {
    match (field.name, bytes) {
        ("ADDR", _) => true,
        ("RESP", [5, 3, ..]) | ("RESP", [5, 6, ..]) | ("RESP", [5, 7, ..]) => true,
        ("NUM", [5, 3, ..]) => false,
        ("NUM", [5, ..]) => true,
        _ => false,
    }
}
