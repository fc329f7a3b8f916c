//! The ladder as a picture: one SVG file that stands alone.

ghost use Rattle.std.specs.Prelude.{IfOk};
ghost use Rattle.ladder.specs.Xml.{IsDocument};

use crate::drawn::Drawn;
use crate::svg_arrows::{arrow_of, with_stroke};
use crate::svg_columns::Columns;
use crate::svg_key::{key_height, with_key};
use crate::svg_labels::{Label, columns_of, labels_of, with_label};
use crate::svg_marks::{with_bands, with_caption, with_check, with_marks, with_user};
use crate::svg_parts::{MARGIN, WIDTH, with_text, y_of};
use crate::svg_places::{Places, places_of};
use crate::svg_style::with_style;
use crate::text::fitted;
use crate::xml::{Attributes, Content};
use crate::xml_names::{Attribute, Tag};
use std::alloc::{AllocError, Global};
use wire_base::Side;

/// What is written around the rows of a picture.
#[derive(Clone, Copy)]
pub struct Caption<'t> {
    /// Of what it is: the names of both captures.
    pub title: &'t str,
    /// What is answered of them.
    pub verdict: &'t str,
    /// What is seen in the refused record.
    pub seen: &'t str,
    /// What is allowed there.
    pub allowed: &'t str,
    /// Records that get a box as well.
    pub marked: &'t [Marked],
}

/// A record that is marked, by its side and its line.
#[derive(Clone, Copy, PartialEq, Eq)]
pub struct Marked {
    /// Whose capture has it.
    pub side: Side,
    /// Which line of that capture it is on.
    pub line: u64,
}

impl Drawn {
    /// The rows as a picture: an SVG file that needs no other file, in light and dark, with this caption.
    ///
    /// It is well-formed XML whatever the rows and the caption are. A record is below the one before it on its side, and below the sending of
    /// what came by it. Each arrow has a `<title>`, whose first line tells both ends as `a line 5 to b line 6`, where both are known. Of the
    /// caption what is neither a line feed nor printable ASCII is written as `?`. `AllocError` where there is no memory for it.
    pub fn svg(&self, alloc: Global, caption: Caption<'_>) -> Result<Vec<u8>, AllocError>
        ensures { IfOk result (λ text. IsDocument text.items) }
    {
        let places = places_of(alloc, self)?;
        let labels = labels_of(alloc, self, &places)?;
        let columns = columns_of(&labels);
        let height = places.bottom().saturating_add(key_height(self));
        let svg = Content::new(alloc).with_words("\n")?;
        let svg = with_style(svg, alloc, height)?;
        let svg = with_head(svg, alloc, columns, caption)?;
        let svg = with_bands(svg, alloc, self, &places, columns, Side::A)?;
        let svg = with_bands(svg, alloc, self, &places, columns, Side::B)?;
        let svg = self.with_rows(svg, alloc, &places, columns, caption)?;
        let svg = with_labels(svg, alloc, columns, &labels)?;
        let svg = with_key(svg, alloc, self, places.bottom())?;
        svg.document(Tag::Svg, size_of(alloc, height)?)
    }

    // All that is between the columns, and the box of the refused record.
    fn with_rows(
        &self,
        svg: Content,
        alloc: Global,
        places: &Places,
        columns: Columns,
        caption: Caption<'_>,
    ) -> Result<Content, AllocError> {
        let mut svg = svg;
        for index in 0..self.len() {
            if let Some(arrow) = arrow_of(alloc, self, places, columns, index)? {
                svg = with_stroke(svg, alloc, &arrow)?;
            }
            if let Some(row) = self.row(index) {
                let y = y_of(places.of(index).told);
                svg = with_user(svg, alloc, columns, row, y)?;
                svg = with_check(svg, alloc, caption, row, y)?;
                svg = with_marks(svg, alloc, caption.marked, row, places.of(index))?;
            }
        }
        Ok(svg)
    }
}

fn with_labels(
    svg: Content,
    alloc: Global,
    columns: Columns,
    labels: &Vec<Label>,
) -> Result<Content, AllocError> {
    let mut svg = svg;
    for label in labels {
        svg = with_label(svg, alloc, columns, label)?;
    }
    Ok(svg)
}

fn size_of(alloc: Global, height: usize) -> Result<Attributes, AllocError> {
    let view = format!(in alloc; "0 0 {WIDTH} {height}")?;
    Attributes::new(alloc)
        .with(Attribute::Xmlns, "http://www.w3.org/2000/svg")?
        .with_numbers(&[(Attribute::Width, WIDTH), (Attribute::Height, height)])?
        .with_all(&[
            (Attribute::ViewBox, view.as_str()),
            (Attribute::Space, "preserve"),
        ])
}

// How many letters of a title have room.
const TITLE: usize = 104;

// What is above the rows.
fn with_head(
    svg: Content,
    alloc: Global,
    columns: Columns,
    caption: Caption<'_>,
) -> Result<Content, AllocError> {
    let title = fitted(alloc, caption.title, TITLE)?;
    let svg = with_text(svg, alloc, "title", (MARGIN, 20), title.as_str())?;
    let answer = match caption.seen.is_empty() {
        true => "answer",
        false => "verdict",
    };
    let mut svg = with_caption(svg, alloc, answer, 38, caption.verdict)?;
    for side in [Side::A, Side::B] {
        let name = format!(in alloc; "{side}")?;
        svg = with_text(
            svg,
            alloc,
            "side",
            (columns.time_line(side), 54),
            name.as_str(),
        )?;
    }
    Ok(svg)
}
