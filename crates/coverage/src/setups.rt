//! What the names in hints stand for.

use crate::hints::Setup;

static SETUPS: [Setup; 11] = [
    Setup("strt", "a start, b start, a send, b deliver"),
    Setup(
        "both",
        "a start, b start, a send, b send, a deliver, b deliver",
    ),
    Setup("stack", "strt, b send, a deliver"),
    Setup("early", "stack, a open, a send, b lose"),
    Setup("run", "stack, a send, b deliver"),
    Setup("lost", "run, a open, a send, b lose"),
    Setup("again", "run, a halt, a start"),
    Setup("call", "run, a open, a send, b deliver"),
    Setup("back", "call, b halt, b start"),
    Setup(
        "link",
        "call, b accept 1, b send, a deliver, a send, b deliver",
    ),
    Setup("closed", "link, a close 1, a send, b deliver"),
];

/// What the names in hints stand for.
pub fn all_setups() -> &'static [Setup] {
    &SETUPS
}
