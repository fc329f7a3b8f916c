//! A DC that is owed.

ghost use Rattle.std.specs.Prelude.{◌≡◌};
ghost use Rattle.player_end.specs.inner.Owing.{confirm_view};

use crate::choice::EndConfirm;
use std::marker::Model;

/// A DC that an end owes. A contract sees its two addresses and its reason.
#[derive(Drop)]
pub struct OwedConfirm {
    confirm: EndConfirm,
}

impl Model for OwedConfirm {
    ghost use Rattle.dna_play.specs.LinkOwed.{EndConfirm};
    ghost use Rattle.player_end.specs.inner.Owing.{confirm_view};

    ghost Value = { EndConfirm };

    ghost view = { λ c. confirm_view c.confirm };
}

impl OwedConfirm {
    /// This one.
    pub fn new(confirm: EndConfirm) -> OwedConfirm
        ensures { result ≡ confirm_view confirm }
    {
        OwedConfirm { confirm }
    }

    /// What it says.
    pub fn get(&self) -> EndConfirm
        ensures { confirm_view result ≡ self.now }
    {
        self.confirm
    }
}
