//! The parts of the picture of a ladder.

use crate::xml::{Attributes, Content};
use crate::xml_names::{Attribute, Tag};
use std::alloc::{AllocError, Global};

/// How wide a picture is.
pub const WIDTH: usize = 860;

/// Where the first record is drawn, and how far below it the next one is.
pub const TOP: usize = 70;

pub const STEP: usize = 19;

/// How far from the edges of a picture words begin.
pub const MARGIN: usize = 16;

/// A place in a picture: so far from its left edge, and from its upper edge.
pub type At = (usize, usize);

/// Where a record so many steps below the first one is drawn.
pub fn y_of(level: usize) -> usize {
    TOP.saturating_add(level.saturating_mul(STEP))
}

// The attributes of a form of these classes.
fn form(
    alloc: Global,
    class: &str,
    numbers: &[(Attribute, usize)],
) -> Result<Attributes, AllocError> {
    Attributes::new(alloc)
        .with(Attribute::Class, class)?
        .with_numbers(numbers)
}

/// These words of these classes, in a line of their own.
pub fn with_text(
    svg: Content,
    alloc: Global,
    class: &str,
    (x, y): At,
    words: &str,
) -> Result<Content, AllocError> {
    let place = form(alloc, class, &[(Attribute::X, x), (Attribute::Y, y)])?;
    let content = Content::new(alloc).with_words(words)?;
    svg.with(Tag::Text, place, content)?.with_words("\n")
}

/// A rectangle of these classes, from one corner to the other.
pub fn with_rect(
    svg: Content,
    alloc: Global,
    class: &str,
    (x, y): At,
    (width, height): At,
) -> Result<Content, AllocError> {
    let sides = [
        (Attribute::X, x),
        (Attribute::Y, y),
        (Attribute::Width, width),
        (Attribute::Height, height),
    ];
    let form = form(alloc, class, &sides)?;
    svg.with_empty(Tag::Rect, form)?.with_words("\n")
}

/// A line of these classes, from one place to the other.
pub fn with_line(
    svg: Content,
    alloc: Global,
    class: &str,
    (x1, y1): At,
    (x2, y2): At,
) -> Result<Content, AllocError> {
    let ends = [
        (Attribute::X1, x1),
        (Attribute::Y1, y1),
        (Attribute::X2, x2),
        (Attribute::Y2, y2),
    ];
    let form = form(alloc, class, &ends)?;
    svg.with_empty(Tag::Line, form)
}

/// A dot of these classes.
pub fn with_dot(
    svg: Content,
    alloc: Global,
    class: &str,
    (x, y): At,
) -> Result<Content, AllocError> {
    let round = [
        (Attribute::CenterX, x),
        (Attribute::CenterY, y),
        (Attribute::Radius, 3),
    ];
    let form = form(alloc, class, &round)?;
    svg.with_empty(Tag::Circle, form)?.with_words("\n")
}
