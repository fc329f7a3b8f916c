//! Laws of a text that lists items, as functions that do nothing: how what was read of it grows, and that it is read in one way alone.

ghost use Rattle.std.specs.Prelude.{◌≡◌, ℕ, ◌<◌, [], length, List, Option, Some, Ok};
ghost use Rattle.std.specs.Io.KnownBytes.{Consumes, IsAtEnd};
ghost use Rattle.capture.specs.declared.fault.Departure.{Departure as Kind};
ghost use Rattle.capture.specs.Lines.{to_come};
ghost use Rattle.capture.specs.Listed.{BeginsWithList, IsBeginningOf, IsListSoFar, ItemDeparts, ListHeadDeparts, Listed};
ghost use Rattle.capture.specs.Listed.{item_line, no_items, with_item};
ghost use Rattle.capture.specs.ListReader.{ListState, Opens};

use crate::list_item::ListItem;

/// How what was read of a text grows: a reader that opened has read the head, and then each item that it gives is one more.
pub fn list_read_on<I: ListItem>()
    ensures opened { (text left : Option (List ℕ)) (state : ListState) → Opens I.form.first_words text left (Ok state) →
        IsListSoFar I.form text (no_items state.node_a state.node_b) (to_come state.unread left) }
    ensures one_more { (text before after : Option (List ℕ)) (list : Listed I.Item) (item : I.Item) →
        IsListSoFar I.form text list before → length list.items < I.form.most → I.form.HasLine item →
        Consumes before after (item_line I.form item) → IsListSoFar I.form text (with_item list item) after }
{}

/// What was read of known bytes: they begin with these items, and to their end they are their text.
pub fn known_list<I: ListItem>()
    ensures begins { (bytes rest : List ℕ) (list : Listed I.Item) →
        IsListSoFar I.form (Some bytes) list (Some rest) → BeginsWithList I.form bytes list rest }
    ensures whole { (bytes : List ℕ) (come : Option (List ℕ)) (list : Listed I.Item) →
        IsListSoFar I.form (Some bytes) list come → IsAtEnd come → BeginsWithList I.form bytes list [] }
{}

/// A text has one list of items. What it begins with is a beginning of them, after which no line departs; nor does the head of any text that
/// begins with some.
pub fn one_list<I: ListItem>()
    ensures same { (bytes : List ℕ) (list other : Listed I.Item) →
        BeginsWithList I.form bytes list [] → BeginsWithList I.form bytes other [] → list ≡ other }
    ensures begun { (bytes rest : List ℕ) (begun all : Listed I.Item) →
        BeginsWithList I.form bytes all [] → BeginsWithList I.form bytes begun rest → IsBeginningOf begun all }
    ensures departs_nowhere { (bytes rest : List ℕ) (begun all : Listed I.Item) (kind : Kind) →
        BeginsWithList I.form bytes all [] → BeginsWithList I.form bytes begun rest →
        ¬ (ItemDeparts I.form (length begun.items) kind rest) }
    ensures head_stands { (bytes rest : List ℕ) (begun : Listed I.Item) (kind : Kind) →
        BeginsWithList I.form bytes begun rest → ¬ (ListHeadDeparts I.form.first_words kind bytes) }
{
    I::lines_are_apart();
}

/// A line departs in one way at most, and so does the first line of a text from a head; and a text departs after one list of items alone, of
/// which everything that it begins with is a beginning.
pub fn one_list_departure<I: ListItem>()
    ensures item { (items : ℕ) (bytes : List ℕ) (a b : Kind) →
        ItemDeparts I.form items a bytes → ItemDeparts I.form items b bytes → a ≡ b }
    ensures first { (bytes rest rest' : List ℕ) (list begun : Listed I.Item) (kind : Kind) →
        BeginsWithList I.form bytes list rest → ItemDeparts I.form (length list.items) kind rest → BeginsWithList I.form bytes begun rest' →
        IsBeginningOf begun list }
    ensures head { (bytes : List ℕ) (a b : Kind) →
        ListHeadDeparts I.form.first_words a bytes → ListHeadDeparts I.form.first_words b bytes → a ≡ b }
{
    I::lines_are_apart();
}
