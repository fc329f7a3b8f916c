//! On which line of a text the unit begins that a framer holds.

ghost use Rattle.std.specs.Prelude.{◌≡◌, ◌+◌, ◌-◌, ◌<◌, ◌≤◌, ◌^◌, ◌⊎◌, ℕ};
ghost use Rattle.wire_tap.specs.inner.Accused.{IsOnLine, KeepsLines};

/// The lines of the first bytes that a framer holds. While it holds fewer than eight, the first of them may turn out to belong to no unit, and then
/// one of the others begins one; a whole header that is held begins a unit.
#[derive(Clone, Copy)]
pub(crate) struct Begun {
    pub(crate) lines: [u64; 8],
}

impl Begun {
    /// Nothing is held.
    pub(crate) const NOTHING: Begun = Begun { lines: [0; 8] };

    /// The line of the byte at this place of some bytes, one of the first eight or a later one than are held: so many are held, and a piece of so
    /// many on this line follows them.
    pub(crate) fn line_at(&self, held: usize, place: usize, line: u64) -> u64
        ensures { (lines : ℕ → ℕ) (at more : ℕ) → KeepsLines lines at held self.now → IsOnLine lines at held more line
            → place < held + more → (place < 8) ⊎ (held ≤ place) → result ≡ lines (at + place) }
    {
        if place >= held {
            return line;
        }
        if place < 8 {
            return self.lines[place];
        }
        self.lines[0]
    }

    /// Of the bytes that were held and a piece of so many on this line, so many are held now: the last ones.
    pub(crate) fn hold(&mut self, held: usize, piece: usize, line: u64, now: usize)
        ensures { (lines : ℕ → ℕ) (at : ℕ) → KeepsLines lines at held self.old → IsOnLine lines at held piece line
            → held + piece < 2 ^ 64 → now ≤ held + piece → (held < 8) ⊎ (now ≡ held + piece)
            → KeepsLines lines (at + (held + piece - now)) now self.new }
    {
        let dropped = held.saturating_add(piece).saturating_sub(now);
        let old = *self;
        for place in 0..8usize {
            self.lines[place] = old.line_at(held, dropped.saturating_add(place), line);
        }
    }
}

/// The place of a unit in so many bytes that are held and a piece, where so many follow it.
pub(crate) fn first_place(held: usize, piece: usize, unit: usize, rest: usize) -> usize
    ensures { held + piece < 2 ^ 64 → result ≡ held + piece - (unit + rest) }
{
    held.saturating_add(piece)
        .saturating_sub(rest)
        .saturating_sub(unit)
}
