//! What the refusal of two texts says of them, by the clause `answer` of `judge` and the laws on it.

ghost use Rattle.std.specs.Prelude.{◌≡◌, ℕ, List, IfSome, Some, Ok};
ghost use Rattle.capture.specs.Range.{IsText};
ghost use Rattle.pair_judge.specs.declared.verdict.Verdict.{Verdict as Judgement};
ghost use Rattle.pair_judge.specs.declared.verdict.Verdict.TheVariants as verdicts;
ghost use Rattle.dna_node.specs.Kind.{both_layers};
ghost use Rattle.pair_judge.specs.Judged.{IsAnswer};
ghost use Rattle.pair_judge.specs.Refusal.{AreRefused, AreTexts, WholeCapture};

use pair_judge::{Layers, Nobody, Reason, Verdict, judge, judged_in_any_format, refused_captures};
use std::alloc::Global;
use wire_base::{Side, Tally};

/// The refusal of two texts. Where they are the texts of two captures, the law on whole captures tells what it says of them, and each verdict on
/// texts of these in another format is the same refusal.
pub fn refusal_of(alloc: Global, text_a: &[u8], text_b: &[u8]) -> Option<(Side, u64, Reason)>
    ensures told { (a b : WholeCapture) → IsText a.head.own a.head.peer a.records text_a.now →
        IsText b.head.own b.head.peer b.records text_b.now →
        IfSome result (λ named. AreRefused both_layers a b named.0 named.1 named.2) }
    ensures any_format { (a b : WholeCapture) (other_a other_b : List ℕ) (other : Judgement) → AreTexts a b text_a.now text_b.now →
        AreTexts a b other_a other_b → IsAnswer both_layers (Some other_a) (Some other_b) (Ok other) →
        IfSome result (λ named. verdicts.Refused named.0 named.1 named.2 ≡ other) }
{
    refused_captures();
    judged_in_any_format();
    let mut a = Tally::new(text_a);
    let mut b = Tally::new(text_b);
    let Ok(watched) = judge(alloc, Layers::Both.of_period(), &mut a, &mut b, Nobody) else {
        return None;
    };
    match watched.ends.verdict() {
        Verdict::Refused {
            side,
            place,
            reason,
        } => Some((side, place, reason)),
        Verdict::Accepted(_) => None,
    }
}
