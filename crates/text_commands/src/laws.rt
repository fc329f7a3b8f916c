//! Laws of the program's two halves, as functions that do nothing: what `play` writes are two texts to `check`, whatever the script; and of one
//! that starts each side at most once it accepts them.

ghost use Rattle.std.specs.Prelude.{ℕ, List, Option, Result, Some, Ok};
ghost use Rattle.dna_play.specs.PlayRun.{StartsOnce};
ghost use Rattle.dna_play.specs.Script.{Script};
ghost use Rattle.dna_play.specs.ScriptText.{IsScriptText};
ghost use Rattle.pair_judge.specs.declared.reason.Reason.{Reason as Why};
ghost use Rattle.pair_judge.specs.declared.verdict.Verdict.TheVariants.{Refused};
ghost use Rattle.dna_node.specs.Kind.{both_layers};
ghost use Rattle.pair_judge.specs.Judged.{AcceptsOrFails, Answer, IsAnswer};
ghost use Rattle.pair_player.specs.declared.fault.PlayFault.{PlayFault};
ghost use Rattle.pair_player.specs.declared.played.Played.{Played};
ghost use Rattle.pair_player.specs.Playing.{HasPlayed, HasWritten, Held, Plays, Reached};
ghost use Rattle.pair_player.specs.Runs.{StartsOnceThroughout};
ghost use Rattle.text_commands.specs.Accepting.{HasCaptures, IsAcceptedStatus, NamesNoText, PlaysThenChecks, empty_captures};
ghost use Rattle.printing.specs.Printed.{Moved};
ghost use Rattle.wire_base.specs.declared.side.Side.{Side as OfSide};

use pair_player::starts_once_throughout;

/// Of what is played into two empty captures, whatever the steps, the judge names no line as one that departs from the format. So it is of all
/// that the player answers after the head of a script, where no device and no memory failed.
pub fn played_texts_stand()
    ensures reached { (text : Option (List ℕ)) (r : Reached) (written : Held) (answer : Answer) → HasPlayed text r →
        HasWritten empty_captures written r → IsAnswer both_layers written.a written.b answer → NamesNoText answer }
    ensures answered { (text : Option (List ℕ)) (written : Held) (played : Result Played PlayFault) (answer : Answer) →
        Plays text empty_captures written played → HasCaptures played → IsAnswer both_layers written.a written.b answer → NamesNoText answer }
{}

/// What is played into two empty captures, of steps that start each side at most once, the judge accepts, where neither memory nor a read fails
/// it. So it is of all that the player answers after the head of a script, where no device and no memory failed; and of the program: where
/// `play` ends with status 0, `check` of what it wrote ends with 0, or with 3 for want of memory or a failed device.
pub fn played_is_accepted()
    ensures reached { (text : Option (List ℕ)) (r : Reached) (written : Held) (answer : Answer) →
        HasPlayed text r → StartsOnce r.script.steps →
        HasWritten empty_captures written r → IsAnswer both_layers written.a written.b answer → AcceptsOrFails answer }
    ensures answered { (text : Option (List ℕ)) (written : Held) (played : Result Played PlayFault) (answer : Answer) →
        Plays text empty_captures written played → HasCaptures played → StartsOnceThroughout text →
        IsAnswer both_layers written.a written.b answer → AcceptsOrFails answer }
    ensures printed { (script : Moved) (captures played_to checked_to : Moved × Moved) (status : ℕ) →
        PlaysThenChecks script captures played_to checked_to status → StartsOnceThroughout script.old.bytes →
        IsAcceptedStatus status }
{}

/// So no record of a script that was played whole, which starts each side at most once, is one that the judge names.
pub fn what_was_played_whole_is_not_refused()
    ensures { (bytes : List ℕ) (script : Script) (written : Held) (played : Played) (side : OfSide) (place : ℕ) (reason : Why) →
        IsScriptText script bytes → StartsOnce script.steps → Plays (Some bytes) empty_captures written (Ok played) →
        IsAnswer both_layers written.a written.b (Ok (Refused side place reason)) → ⊥ }
{
    starts_once_throughout();
    played_is_accepted();
}
