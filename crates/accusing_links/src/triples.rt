//! What a side showed by messages that passed, three numbers for each thing.

ghost use Rattle.std.specs.Prelude.{◌≡◌, ◌||◌, ℕ, [], ◌∷◌, false, OnOk, OnErr};
ghost use Rattle.accusing_links.specs.Back.{words_shown};
ghost use Rattle.accusing_links.specs.Segments.{has, is_this};

use dna_packet::{AckQualifier, AckWord};
use std::alloc::{AllocError, Global};
use std::collections::BTreeSet;
use std::marker::Model;

/// What a side showed by messages that passed, three numbers for each thing: a data segment by the link that it is for, the one that it is from, and
/// its number; a CI, a CC or a message of RUN by its MSGFLG and both links. It takes memory for each once, and so for at most 4,096 segments of two
/// links.
#[derive(Drop)]
pub struct Triples {
    shown: BTreeSet<(u16, u16, u16)>,
}

impl Model for Triples {
    ghost use Rattle.std.specs.Prelude.{ℕ, List};

    ghost Value = { List (ℕ × ℕ × ℕ) };

    ghost view = { λ s. s.shown.keys };
}

impl Triples {
    /// None. It takes no memory.
    pub fn none(alloc: Global) -> Triples
        ensures { (first second third : ℕ) → has result first second third ≡ false }
    {
        Triples {
            shown: BTreeSet::new(alloc),
        }
    }

    /// Whether these were shown.
    pub fn has(&self, first: u16, second: u16, third: u16) -> bool
        ensures { result ≡ has self.now first second third }
    {
        self.shown.contains(&(first, second, third))
    }

    /// These are shown. Where memory is refused, nothing changes.
    pub fn show(&mut self, first: u16, second: u16, third: u16) -> Result<(), AllocError>
        ensures ok { (a b c : ℕ) → OnOk result (has self.new a b c ≡ (is_this (first, second, third) a b c || has self.old a b c)) }
        ensures err { (a b c : ℕ) → OnErr result (has self.new a b c ≡ has self.old a b c) }
    {
        self.shown.insert((first, second, third))?;
        Ok(())
    }

    /// The number of each word that acknowledges data segments is shown behind these two. Where memory is refused, some may be shown.
    pub fn show_words(
        &mut self,
        first: u16,
        second: u16,
        words: &[AckWord],
    ) -> Result<(), AllocError>
        ensures { (a b c : ℕ) → OnOk result (has self.new a b c ≡ (words_shown first second words.now a b c || has self.old a b c)) }
    {
        for word in words {
            self.show_word(first, second, *word)?;
        }
        Ok(())
    }

    fn show_word(&mut self, first: u16, second: u16, word: AckWord) -> Result<(), AllocError>
        ensures { (a b c : ℕ) → OnOk result (has self.new a b c ≡ (words_shown first second (word ∷ []) a b c || has self.old a b c)) }
    {
        match word.qualifier {
            AckQualifier::OtherAck | AckQualifier::OtherNak => Ok(()),
            AckQualifier::Ack | AckQualifier::Nak => self.show(first, second, word.number),
        }
    }

    /// These are shown here, and those in `other`. Where memory is refused, nothing changes in either.
    pub fn show_beside(
        &mut self,
        these: (u16, u16, u16),
        other: &mut Triples,
        those: (u16, u16, u16),
    ) -> Result<(), AllocError>
        ensures ok { (a b c : ℕ) → OnOk result (has self.new a b c ≡ (is_this these a b c || has self.old a b c)) }
        ensures other_ok { (a b c : ℕ) → OnOk result (has other.new a b c ≡ (is_this those a b c || has other.old a b c)) }
        ensures err { (a b c : ℕ) → OnErr result (has self.new a b c ≡ has self.old a b c) }
        ensures other_err { (a b c : ℕ) → OnErr result (has other.new a b c ≡ has other.old a b c) }
    {
        let is_new = self.shown.insert(these)?;
        let Err(error) = other.show(those.0, those.1, those.2) else {
            return Ok(());
        };
        if is_new {
            self.shown.remove(&these);
            return Err(error);
        }
        Err(error)
    }
}
