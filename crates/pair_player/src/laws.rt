//! The law of a script that is played whole, as a function that does nothing.

ghost use Rattle.std.specs.Prelude.{◌≡◌, ℕ, [], List, Result, Some, Ok};
ghost use Rattle.dna_play.specs.StoredPlayed.{StoredPlayed, stored_play};
ghost use Rattle.dna_play.specs.Script.{Script};
ghost use Rattle.dna_play.specs.ScriptText.{IsScriptText};
ghost use Rattle.pair_player.specs.declared.fault.PlayFault.{PlayFault};
ghost use Rattle.pair_player.specs.declared.played.Played.{Played};
ghost use Rattle.pair_player.specs.Playing.{AnswersWhole, Held, Plays, reached};

/// What is answered of the text of a script that is played whole: its steps are counted and both captures are written, or a device or
/// the memory failed.
pub fn played_whole()
    ensures { (bytes : List ℕ) (script : Script) (played : StoredPlayed) (old new : Held) (answer : Result Played PlayFault) →
        IsScriptText script bytes → stored_play script ≡ Ok played → Plays (Some bytes) old new answer →
        AnswersWhole (reached script played (Some [])) old new answer }
{}
