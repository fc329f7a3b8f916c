//! What a text lists, an item a line.

ghost use Rattle.std.specs.Prelude.{◌≡◌, ℕ, ◌<◌, ◌≤◌, ◌^◌, List, length, take, IfOk, IfErr};
ghost use Rattle.capture.specs.declared.limit.TheConstants.{MAX_LINE};
ghost use Rattle.capture.specs.Listed.{ListForm};
ghost use Rattle.capture.specs.ListLines.{AreLinesOf};
ghost use Rattle.capture.specs.ListReader.{IsLineOf};

use crate::fault::Departure;

/// What a text lists, an item a line: how its head begins, how many items it may have, and how a line is read. An item is read in two parts: its
/// bytes, which lie in a room for the most that one may have, and an entry, which says the rest.
pub trait ListItem {
    type Entry: Copy;

    // The item of an entry and of its bytes.
    ghost Item: { Type 0 };

    ghost item: { Self.Entry → List ℕ → Item };

    // How such a text is spelled.
    ghost form: { ListForm Item };

    // The most bytes of an item.
    ghost ROOM: { ℕ };

    const ROOM: usize;

    /// The first words of the head.
    fn first_words() -> &'static [u8]
        ensures { result.now ≡ form.first_words };

    /// The most items of a text.
    fn most() -> u64
        ensures most { result ≡ form.most }
        ensures few { result < 2 ^ 63 };

    /// Reads the line's item: its entry, and its bytes, which are written to the front of the room, with how many they are; or how the line
    /// departs. The line is given without its LF. Takes no memory.
    fn read(line: &[u8], room: &mut [u8]) -> Result<(Self::Entry, usize), Departure>
        requires line { length line.now ≤ MAX_LINE }
        requires room { length room.old ≡ ROOM }
        ensures item { IfOk result (λ read. IsLineOf form line.now (item read.0 (take read.1 room.new))) }
        ensures departs { IfErr result (λ kind. form.WordsDepart kind line.now) }
        ensures len { IfOk result (λ read. read.1 ≤ ROOM) }
        ensures room { length room.new ≡ ROOM };

    /// What its lines keep, so that a text of them is read in one way alone, as a function that does nothing.
    fn lines_are_apart()
        ensures { AreLinesOf form };
}
