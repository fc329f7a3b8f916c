//! What is known of segments.

ghost use Rattle.std.specs.Prelude.{◌≡◌, ◌||◌, ℕ, false, OnOk};
ghost use Rattle.accusing_segments.specs.History.{has, is_this};

use std::alloc::{AllocError, Global};
use std::collections::BTreeSet;
use std::marker::Model;

/// What is known of the segments of links: by the own link, the far one, a number, and what is known of that. It takes memory for each once.
#[derive(Drop)]
pub struct Kept {
    known: BTreeSet<(u16, u16, u16, u16)>,
}

impl Model for Kept {
    ghost use Rattle.std.specs.Prelude.{ℕ, List};

    ghost Value = { List (ℕ × ℕ × ℕ × ℕ) };

    ghost view = { λ s. s.known.keys };
}

impl Kept {
    /// Nothing. It takes no memory.
    pub fn nothing(alloc: Global) -> Kept
        ensures { (own far number what : ℕ) → has result own far number what ≡ false }
    {
        Kept {
            known: BTreeSet::new(alloc),
        }
    }

    /// Whether this is known.
    pub fn has(&self, own: u16, far: u16, number: u16, what: u16) -> bool
        ensures { result ≡ has self.now own far number what }
    {
        self.known.contains(&(own, far, number, what))
    }

    /// This is known from now on.
    pub fn keep(&mut self, own: u16, far: u16, number: u16, what: u16) -> Result<(), AllocError>
        ensures { (o f n w : ℕ) → OnOk result (has self.new o f n w ≡ (is_this (own, far, number, what) o f n w || has self.old o f n w)) }
    {
        self.known.insert((own, far, number, what))?;
        Ok(())
    }
}
