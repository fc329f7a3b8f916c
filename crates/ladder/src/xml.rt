//! A text of elements that is well-formed XML, whatever its words are (XML 1.0).

ghost use Rattle.std.specs.Prelude.{◌≡◌, ◌++◌, IfOk, OnOk};
ghost use Rattle.ladder.specs.Xml as spec;

use crate::xml_names::{Attribute, Tag};
use std::alloc::{AllocError, Global};
use std::marker::Model;

/// What stands for a character that has a meaning of its own in XML (XML 1.0, 4.6).
#[derive(Clone, Copy)]
pub enum Reference {
    Less,
    Greater,
    Ampersand,
    Apostrophe,
}

impl Reference {
    fn text(self) -> &'static str
        ensures { result.now ≡ spec.reference_text self }
    {
        match self {
            Reference::Less => "&lt;",
            Reference::Greater => "&gt;",
            Reference::Ampersand => "&amp;",
            Reference::Apostrophe => "&apos;",
        }
    }
}

/// Words in an element or in an attribute: line feeds and printable ASCII, with `<`, `>`, `&` and `'` as references.
#[derive(Drop)]
pub struct Words {
    text: Vec<u8>,
}

impl Model for Words {
    ghost use Rattle.std.specs.Prelude.{List, ℕ};
    ghost use Rattle.ladder.specs.Xml.{IsWords};

    ghost Value = { List ℕ };

    ghost view = { λ words. words.text.items };

    ghost invariant = { λ words. IsWords words.text.items };
}

impl Words {
    /// None. Takes no memory.
    #[tactic(auto, using(crate::proofs::XmlTexts::no_words))]
    pub fn new(alloc: Global) -> Words {
        Words {
            text: Vec::new(alloc),
        }
    }

    /// These, and a text after them, with `?` in the place of a character that is neither a line feed nor printable ASCII. `AllocError` where
    /// there is no memory for it, as of each below.
    pub fn with(self, text: &str) -> Result<Words, AllocError> {
        let mut words = self;
        for byte in text.as_bytes() {
            words = words.with_byte(*byte)?;
        }
        Ok(words)
    }

    // A character of more than one byte is told by its first one.
    #[tactic(auto, using(crate::proofs::XmlWords::line_feed, crate::proofs::XmlWords::equals))]
    fn with_byte(self, byte: u8) -> Result<Words, AllocError> {
        match byte {
            b'<' => self.with_reference(Reference::Less),
            b'>' => self.with_reference(Reference::Greater),
            b'&' => self.with_reference(Reference::Ampersand),
            b'\'' => self.with_reference(Reference::Apostrophe),
            b'\n' => self.with_plain(byte),
            b'=' => self.with_plain(byte),
            0x80..=0xbf => Ok(self),
            _ => self.with_other(byte),
        }
    }

    // Those between the characters that have a meaning of their own.
    #[tactic(auto, using(crate::proofs::XmlWords::below_ampersand, crate::proofs::XmlWords::below_less, crate::proofs::XmlWords::above_greater))]
    fn with_other(self, byte: u8) -> Result<Words, AllocError> {
        match byte {
            b' '..=b'%' => self.with_plain(byte),
            b'('..=b';' => self.with_plain(byte),
            b'?'..=b'~' => self.with_plain(byte),
            _ => self.with_plain(b'?'),
        }
    }

    #[tactic(auto, using(crate::proofs::XmlTexts::plain_more))]
    fn with_plain(self, character: u8) -> Result<Words, AllocError>
        requires { spec.IsPlain character }
    {
        let Words { mut text } = self;
        text.push(character)?;
        Ok(Words { text })
    }

    #[tactic(auto, using(crate::proofs::XmlTexts::referred_more))]
    fn with_reference(self, reference: Reference) -> Result<Words, AllocError> {
        let Words { mut text } = self;
        text.extend_from_slice(reference.text().as_bytes())?;
        Ok(Words { text })
    }
}

/// The attributes of an element.
#[derive(Drop)]
pub struct Attributes {
    alloc: Global,
    text: Vec<u8>,
    // All of them have lower places than this.
    end: u8,
}

impl Model for Attributes {
    ghost use Rattle.std.specs.Prelude.{List, ℕ};
    ghost use Rattle.ladder.specs.Xml.{AreAttributes};

    ghost Value = { List ℕ };

    ghost view = { λ attributes. attributes.text.items };

    ghost invariant = { λ attributes. AreAttributes attributes.end attributes.text.items };
}

impl Attributes {
    /// None. Takes no memory.
    #[tactic(auto, using(crate::proofs::XmlTexts::no_attributes))]
    pub fn new(alloc: Global) -> Attributes {
        Attributes {
            alloc,
            text: Vec::new(alloc),
            end: 0,
        }
    }

    /// These, and this one with a value after them. It is left out where it, or one after it in the order of [`Attribute`], is there already.
    #[tactic(auto, using(crate::proofs::XmlTexts::attribute_more))]
    pub fn with(self, name: Attribute, value: &str) -> Result<Attributes, AllocError> {
        let Attributes {
            alloc,
            mut text,
            end,
        } = self;
        let place = name.place();
        if place < end {
            return Ok(Attributes { alloc, text, end });
        }
        let words = Words::new(alloc).with(value)?;
        put_attribute(&mut text, name, &words)?;
        Ok(Attributes {
            alloc,
            text,
            end: place.saturating_add(1),
        })
    }

    /// The same with all of these.
    pub fn with_all(self, values: &[(Attribute, &str)]) -> Result<Attributes, AllocError> {
        let mut attributes = self;
        for (name, value) in values {
            attributes = attributes.with(*name, *value)?;
        }
        Ok(attributes)
    }

    /// The same with numbers.
    pub fn with_numbers(self, values: &[(Attribute, usize)]) -> Result<Attributes, AllocError> {
        let mut attributes = self;
        for (name, value) in values {
            attributes = attributes.with_number(*name, *value)?;
        }
        Ok(attributes)
    }

    fn with_number(self, name: Attribute, value: usize) -> Result<Attributes, AllocError> {
        let digits = format!(in self.alloc; "{value}")?;
        self.with(name, digits.as_str())
    }
}

// An attribute goes after the others.
fn put_attribute(text: &mut Vec<u8>, name: Attribute, words: &Words) -> Result<(), AllocError>
    ensures { OnOk result (text.new.items ≡ text.old.items ++ spec.attribute_text name words.now) }
{
    text.extend_from_slice(b" ")?;
    text.extend_from_slice(name.name().as_bytes())?;
    text.extend_from_slice(b"='")?;
    text.extend_from_slice(words.text.as_slice())?;
    text.extend_from_slice(b"'")?;
    Ok(())
}

/// What is in an element: elements and words, one after the other.
#[derive(Drop)]
pub struct Content {
    alloc: Global,
    text: Vec<u8>,
}

impl Model for Content {
    ghost use Rattle.std.specs.Prelude.{List, ℕ};
    ghost use Rattle.ladder.specs.Xml.{IsContent};

    ghost Value = { List ℕ };

    ghost view = { λ content. content.text.items };

    ghost invariant = { λ content. IsContent content.text.items };
}

impl Content {
    /// Nothing. Takes no memory.
    #[tactic(auto, using(crate::proofs::XmlTexts::no_content))]
    pub fn new(alloc: Global) -> Content {
        Content {
            alloc,
            text: Vec::new(alloc),
        }
    }

    /// This, and words after it, as [`Words::with`] writes them.
    #[tactic(auto, using(crate::proofs::XmlTexts::words_more))]
    pub fn with_words(self, text: &str) -> Result<Content, AllocError> {
        let Content {
            alloc,
            text: mut all,
        } = self;
        let words = Words::new(alloc).with(text)?;
        all.extend_from_slice(words.text.as_slice())?;
        Ok(Content { alloc, text: all })
    }

    /// This, and an element of that content after it.
    #[tactic(auto, using(crate::proofs::XmlTexts::element_more))]
    pub fn with(
        self,
        name: Tag,
        attributes: Attributes,
        content: Content,
    ) -> Result<Content, AllocError> {
        let Content { alloc, mut text } = self;
        put_element(&mut text, name, &attributes, &content)?;
        Ok(Content { alloc, text })
    }

    /// This, and an element without content after it.
    #[tactic(auto, using(crate::proofs::XmlTexts::empty_more))]
    pub fn with_empty(self, name: Tag, attributes: Attributes) -> Result<Content, AllocError> {
        let Content { alloc, mut text } = self;
        put_empty(&mut text, name, &attributes)?;
        Ok(Content { alloc, text })
    }

    /// The document whose one element has this content.
    #[tactic(auto, using(crate::proofs::XmlTexts::document_of))]
    pub fn document(self, name: Tag, attributes: Attributes) -> Result<Vec<u8>, AllocError>
        ensures { IfOk result (λ text. spec.IsDocument text.items) }
    {
        let mut text = Vec::new(self.alloc);
        put_element(&mut text, name, &attributes, &self)?;
        text.extend_from_slice(b"\n")?;
        Ok(text)
    }
}

// An element goes after what was there.
fn put_element(
    text: &mut Vec<u8>,
    name: Tag,
    attributes: &Attributes,
    content: &Content,
) -> Result<(), AllocError>
    ensures { OnOk result (text.new.items ≡ text.old.items ++ spec.element_text name attributes.now content.now) }
{
    text.extend_from_slice(b"<")?;
    text.extend_from_slice(name.name().as_bytes())?;
    text.extend_from_slice(attributes.text.as_slice())?;
    text.extend_from_slice(b">")?;
    text.extend_from_slice(content.text.as_slice())?;
    text.extend_from_slice(b"</")?;
    text.extend_from_slice(name.name().as_bytes())?;
    text.extend_from_slice(b">")?;
    Ok(())
}

// An element without content likewise.
fn put_empty(text: &mut Vec<u8>, name: Tag, attributes: &Attributes) -> Result<(), AllocError>
    ensures { OnOk result (text.new.items ≡ text.old.items ++ spec.empty_text name attributes.now) }
{
    text.extend_from_slice(b"<")?;
    text.extend_from_slice(name.name().as_bytes())?;
    text.extend_from_slice(attributes.text.as_slice())?;
    text.extend_from_slice(b"/>")?;
    Ok(())
}
