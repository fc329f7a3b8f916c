//! An object of JSON, member by member.

ghost use Rattle.std.specs.Prelude.{◌≡◌, [], codes, Some, IfOk, IfSome};
ghost use Rattle.std.specs.Option.{option_map};
ghost use Rattle.std.specs.Fmt.{decimal};
ghost use Rattle.json_text.specs.Json.{Is, IsLine};
ghost use Rattle.json_text.specs.Json.Part.{AnyValue, InBraces};
ghost use Rattle.json_text.specs.Spelled as spec;
ghost use Rattle.json_text.specs.inner.Written.{written};
ghost use Rattle.json_text.specs.Written.{IsWhole, Says, with_member};

use crate::elements::Elements;
use crate::spelled::put_between;
use crate::text::Text;
use crate::value::Value;
use std::alloc::{AllocError, Global};
use std::fmt;
use std::marker::Model;

/// The members of an object, in the order in which they are written. A contract sees their text, or `None` where memory for it was refused. That is
/// told once, by `into_object` and `into_line`; until then each call does what it can.
#[derive(Drop)]
pub struct Members {
    text: Text,
}

impl Model for Members {
    ghost use Rattle.std.specs.Prelude.{List, ℕ, Option};
    ghost use Rattle.json_text.specs.Json.Part.{InBraces};
    ghost use Rattle.json_text.specs.Written.{IsWhole};
    ghost use Rattle.json_text.specs.inner.Written.{written};

    ghost Value = { Option (List ℕ) };

    ghost view = { λ members. written members.text };

    ghost invariant = { λ members. IsWhole InBraces (written members.text) };
}

impl Members {
    /// None. Takes no memory.
    #[tactic(auto, using(crate::proofs::Texts::no_member))]
    pub fn new(alloc: Global) -> Members
        ensures { result ≡ Some [] }
    {
        Members {
            text: Text::new(alloc),
        }
    }

    /// A member more, whose value is a string of these words.
    #[tactic(auto, using(crate::proofs::Texts::string_member))]
    pub fn text(&mut self, key: &str, words: &str)
        ensures { Says self.new (with_member key.now (Some (spec.string_text words.now)) self.old) }
    {
        self.text.member(key, Value::String(words));
    }

    /// A member more, whose value is a string of what `{}` prints of this.
    pub fn shown<T: fmt::Display>(&mut self, key: &str, value: &T)
        ensures { IfSome (T.output value.now) (λ words. Says self.new (with_member key.now (Some (spec.string_text words)) self.old)) }
    {
        match format!(in self.text.alloc; "{value}") {
            Ok(words) => self.text(key, words.as_str()),
            Err(_) => self.text.is_short = true,
        }
    }

    /// A member more, whose value is a number.
    #[tactic(auto, using(crate::proofs::Texts::number_member))]
    pub fn number(&mut self, key: &str, number: u64)
        ensures { Says self.new (with_member key.now (Some (decimal number)) self.old) }
    {
        self.text.member(key, Value::Number(u128::from(number)));
    }

    /// The same of a number that may be greater.
    #[tactic(auto, using(crate::proofs::Texts::number_member))]
    pub fn wide_number(&mut self, key: &str, number: u128)
        ensures { Says self.new (with_member key.now (Some (decimal number)) self.old) }
    {
        self.text.member(key, Value::Number(number));
    }

    /// A member more, whose value is `true` or `false`.
    #[tactic(auto, using(crate::proofs::Texts::flag_member))]
    pub fn flag(&mut self, key: &str, flag: bool)
        ensures { Says self.new (with_member key.now (Some (spec.flag_text flag)) self.old) }
    {
        self.text.member(key, Value::Flag(flag));
    }

    /// A member more, whose value is `null`.
    #[tactic(auto, using(crate::proofs::Texts::null_member))]
    pub fn null(&mut self, key: &str)
        ensures { Says self.new (with_member key.now (Some (codes "null")) self.old) }
    {
        self.text.member(key, Value::Null);
    }

    /// A member more, whose value is the object of these members.
    #[tactic(auto, using(crate::proofs::Texts::object_member))]
    pub fn object(&mut self, key: &str, members: &Members)
        ensures { Says self.new (with_member key.now (option_map spec.object_text members.now) self.old) }
    {
        self.text.member(key, Value::Object(&members.text));
    }

    /// A member more, whose value is the array of these elements.
    #[tactic(auto, using(crate::proofs::Texts::array_member))]
    pub fn array(&mut self, key: &str, elements: &Elements)
        ensures { Says self.new (with_member key.now (option_map spec.array_text elements.now) self.old) }
    {
        self.text.member(key, Value::Array(elements.parts()));
    }

    /// Their text, for the object of them.
    pub(crate) fn parts(&self) -> &Text
        ensures seen { written result.now ≡ self.now }
        ensures whole { IsWhole InBraces self.now }
    {
        &self.text
    }

    /// The object of all of them. `AllocError`: memory was refused, for it or for one of them.
    pub fn into_object(self) -> Result<Vec<u8>, AllocError>
        ensures spelled { IfOk result (λ text. option_map spec.object_text self ≡ Some text.items) }
        ensures well_formed { IfOk result (λ text. Is AnyValue text.items) }
    {
        let mut object = Vec::new(self.text.alloc);
        put_between(&mut object, b"{", &self.text, b"}")?;
        Ok(object)
    }

    /// The same, with an LF.
    pub fn into_line(self) -> Result<Vec<u8>, AllocError>
        ensures spelled { IfOk result (λ text. option_map spec.line_text self ≡ Some text.items) }
        ensures well_formed { IfOk result (λ text. IsLine text.items) }
    {
        let mut line = self.into_object()?;
        line.push(b'\n')?;
        Ok(line)
    }
}
