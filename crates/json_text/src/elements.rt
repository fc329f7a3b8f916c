//! An array of JSON, element by element.

ghost use Rattle.std.specs.Prelude.{◌≡◌, [], Some};
ghost use Rattle.std.specs.Option.{option_map};
ghost use Rattle.json_text.specs.Spelled as spec;
ghost use Rattle.json_text.specs.inner.Written.{written};
ghost use Rattle.json_text.specs.Json.Part.{InBrackets};
ghost use Rattle.json_text.specs.Written.{IsWhole, Says, with_element};

use crate::members::Members;
use crate::text::Text;
use crate::value::Value;
use std::alloc::Global;
use std::marker::Model;

/// The elements of an array, in the order in which they are written. A contract sees their text, or `None` where memory for it was refused. The
/// object that they go into tells that.
#[derive(Drop)]
pub struct Elements {
    text: Text,
}

impl Model for Elements {
    ghost use Rattle.std.specs.Prelude.{List, ℕ, Option};
    ghost use Rattle.json_text.specs.Json.Part.{InBrackets};
    ghost use Rattle.json_text.specs.Written.{IsWhole};
    ghost use Rattle.json_text.specs.inner.Written.{written};

    ghost Value = { Option (List ℕ) };

    ghost view = { λ elements. written elements.text };

    ghost invariant = { λ elements. IsWhole InBrackets (written elements.text) };
}

impl Elements {
    /// None. Takes no memory.
    #[tactic(auto, using(crate::proofs::Texts::no_element))]
    pub fn new(alloc: Global) -> Elements
        ensures { result ≡ Some [] }
    {
        Elements {
            text: Text::new(alloc),
        }
    }

    /// An element more, a string of these words.
    #[tactic(auto, using(crate::proofs::Texts::string_element))]
    pub fn text(&mut self, words: &str)
        ensures { Says self.new (with_element (Some (spec.string_text words.now)) self.old) }
    {
        self.text.element(Value::String(words));
    }

    /// An element more, the object of these members.
    #[tactic(auto, using(crate::proofs::Texts::object_element))]
    pub fn object(&mut self, members: &Members)
        ensures { Says self.new (with_element (option_map spec.object_text members.now) self.old) }
    {
        self.text.element(Value::Object(members.parts()));
    }

    /// Their text, for the array of them.
    pub(crate) fn parts(&self) -> &Text
        ensures seen { written result.now ≡ self.now }
        ensures whole { IsWhole InBrackets self.now }
    {
        &self.text
    }
}
