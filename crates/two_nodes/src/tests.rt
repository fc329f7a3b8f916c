ghost use Rattle.std.specs.Prelude.{◌≡◌, ◌≤◌, ◌+◌, ℕ, List, [], ◌∷◌, ◌++◌, length, take};
ghost use Rattle.two_nodes.specs.Cutting.{ComesOf, cut_world};
ghost use Rattle.two_nodes.specs.Endings.{LacksUnit, IsStuck};
ghost use Rattle.two_nodes.specs.inner.Example.{Event, Fault, SentWithin, counter, counters, counters_tell};
ghost use Rattle.two_nodes.specs.inner.Example.Event.{Count, Tell, Hear};
ghost use Rattle.two_nodes.specs.inner.Example.Fault.{Misheard, NothingToTell};
ghost use Rattle.two_nodes.specs.inner.Keeping.{Keeper, any_world, counts_of, keepers, new_keeper};
ghost use Rattle.two_nodes.specs.Nodes.{World, Half, Run, IsRun, advance, exchanged, exchanged_world, start_world};
ghost use Rattle.two_nodes.specs.Nodes.Outcome.{Waits};
ghost use Rattle.two_nodes.specs.Past.{Offends};

use crate::cutting::SeenNodes;
use crate::kept::always;
use crate::nodes::TwoNodes;
use crate::{
    any_order, both_waiting, closed_beginnings, exchanged_sides, missing_unit, offender,
    one_waiting, reading_on, refused_record, simulation, units_sent,
};
use std::marker::Brand;

// Two counters. The laws are called at this type.
struct Counters;

impl TwoNodes for Counters {
    ghost State = { ℕ };

    ghost Record = { Event };

    ghost Sent = { ℕ };

    ghost Reason = { Fault };

    ghost nodes = { counters };

    ghost tells = { counters_tell };
}

// A run as a term: a counts and tells 1, and b hears it.
fn one_is_told_and_heard()
    ensures { Run counters (start_world 0 0) (Count ∷ Tell ∷ []) (Hear 0 1 ∷ [])
        (record { a = record { state = 1; sent = 1 ∷ [] }; b = record { state = 1; sent = [] } }) }
{}

fn what_is_left_can_be_made_in_any_order()
    ensures rest { (mid end : World ℕ ℕ)
        → Run counters (start_world 0 0) (Count ∷ []) [] mid
        → Run counters (start_world 0 0) (Count ∷ Tell ∷ []) (Hear 0 1 ∷ []) end
        → Run counters mid (Tell ∷ []) (Hear 0 1 ∷ []) end }
    ensures one_end { (end other : World ℕ ℕ) (xs ys : List Event)
        → Run counters (start_world 0 0) xs ys end → Run counters (start_world 0 0) xs ys other → end ≡ other }
{
    any_order::<Counters>();
}

fn a_count_can_follow_any_run()
    ensures { (start w : World ℕ ℕ) (xs ys : List Event)
        → Run counters start xs ys w
        → Run counters start (xs ++ Count ∷ []) ys (record { a = record { state = w.a.state + 1; sent = w.a.sent }; b = w.b }) }
{
    reading_on::<Counters>();
}

fn sides_can_be_exchanged()
    ensures { (start end : World ℕ ℕ) (xs ys : List Event)
        → Run counters start xs ys end → Run (exchanged counters) (exchanged_world start) ys xs (exchanged_world end) }
{
    exchanged_sides::<Counters>();
}

// The nodes picked for the call.
fn two_tellings_are_two_units()
    ensures { (w : World ℕ ℕ) → Run counters (start_world 0 0) (Count ∷ Tell ∷ Tell ∷ []) [] w → length w.a.sent ≡ 2 }
{
    units_sent::<Brand>();
}

fn one_telling_is_one_unit()
    ensures { (w : World ℕ ℕ) → Run counters (start_world 0 0) (Count ∷ Tell ∷ Count ∷ []) [] w → length w.a.sent ≡ 1 }
{
    units_sent::<Counters>();
}

fn hearing_waits_for_its_unit()
    ensures { (own other : Half ℕ ℕ) → length other.sent ≤ 3 → advance counter own other (Hear 3 7) ≡ Waits }
{
    missing_unit::<Counters>();
}

fn what_names_nothing_is_a_run_alone()
    ensures { IsRun counters (start_world 0 0) (Count ∷ Tell ∷ Hear 0 1 ∷ []) (Hear 0 1 ∷ Tell ∷ [])
        → IsRun counters (start_world 0 0) (Count ∷ Tell ∷ []) [] }
{
    closed_beginnings::<Counters>();
}

fn a_misheard_unit_offends()
    ensures offends { Offends (exchanged counters) (start_world 0 0) (Hear 0 2 ∷ []) (Count ∷ Tell ∷ []) 0 Misheard }
    ensures no_run { ¬ IsRun counters (start_world 0 0) (Count ∷ Tell ∷ []) (Hear 0 2 ∷ []) }
{
    one_is_told_and_heard();
    refused_record::<Counters>();
}

fn where_a_record_offends_there_is_no_run()
    ensures { (xs ys : List Event) (n : ℕ)
        → Offends counters (start_world 0 0) xs ys n NothingToTell → ¬ IsRun counters (start_world 0 0) xs ys }
{
    offender::<Counters>();
}

fn two_that_wait_for_each_other_are_stuck()
    ensures stuck { IsStuck counters (start_world 0 0) (Hear 0 1 ∷ []) (Hear 0 1 ∷ Count ∷ []) 0 0 }
    ensures no_run { ¬ IsRun counters (start_world 0 0) (Hear 0 1 ∷ []) (Hear 0 1 ∷ Count ∷ []) }
{
    both_waiting::<Counters>();
}

fn one_that_waits_for_nothing_lacks_its_unit()
    ensures lacks { LacksUnit counters (start_world 0 0) (Hear 0 1 ∷ []) [] 0 }
    ensures no_run { ¬ IsRun counters (start_world 0 0) (Hear 0 1 ∷ []) [] }
{
    one_waiting::<Counters>();
}

fn no_side_sends_more_units_than_it_makes_records()
    ensures { (end : World ℕ ℕ) (xs ys : List Event)
        → Run counters (start_world 0 0) xs ys end → SentWithin end xs ys }
{
    always::<Brand>();
}

// Two keepers, seen as two counters.
struct Keepers;

impl SeenNodes for Keepers {
    ghost State = { Keeper };

    ghost SeenState = { ℕ };

    ghost Record = { Event };

    ghost Sent = { ℕ };

    ghost SeenUnit = { ℕ };

    ghost Reason = { Fault };

    ghost nodes = { keepers };

    ghost others = { counters };

    ghost cut = { counts_of };

    ghost holds = { any_world };
}

fn what_keepers_make_is_seen_as_counting()
    ensures seen { (end : World Keeper ℕ) (xs ys : List Event)
        → Run keepers (start_world new_keeper new_keeper) xs ys end
        → Run counters (start_world 0 0) xs ys (cut_world counts_of end) }
    ensures comes_of { (seen : World ℕ ℕ) (xs ys : List Event)
        → Run counters (start_world 0 0) xs ys seen
        → ComesOf keepers counts_of any_world (start_world new_keeper new_keeper) [] [] xs ys seen }
{
    simulation::<Keepers>();
}

#[test]
fn laws_hold_of_two_counters() {
    one_is_told_and_heard();
    what_is_left_can_be_made_in_any_order();
    a_count_can_follow_any_run();
    sides_can_be_exchanged();
    two_tellings_are_two_units();
    one_telling_is_one_unit();
    hearing_waits_for_its_unit();
    what_names_nothing_is_a_run_alone();
    a_misheard_unit_offends();
    where_a_record_offends_there_is_no_run();
    two_that_wait_for_each_other_are_stuck();
    one_that_waits_for_nothing_lacks_its_unit();
    no_side_sends_more_units_than_it_makes_records();
    what_keepers_make_is_seen_as_counting();
}
