//! The names of XML that a picture uses.

ghost use Rattle.std.specs.Prelude.{◌≡◌};
ghost use Rattle.ladder.specs.Xml as spec;

/// An element of SVG.
#[derive(Clone, Copy)]
pub enum Tag {
    Svg,
    Style,
    Defs,
    Marker,
    Path,
    Group,
    Title,
    Text,
    Line,
    Rect,
    Circle,
}

impl Tag {
    /// Its name.
    pub fn name(self) -> &'static str
        ensures { result.now ≡ spec.tag_name self }
    {
        match self {
            Tag::Svg => "svg",
            Tag::Style => "style",
            Tag::Defs => "defs",
            Tag::Marker => "marker",
            Tag::Path => "path",
            Tag::Group => "g",
            Tag::Title => "title",
            Tag::Text => "text",
            Tag::Line => "line",
            Tag::Rect => "rect",
            Tag::Circle => "circle",
        }
    }
}

/// An attribute of SVG. Those of an element come in this order.
#[derive(Clone, Copy)]
pub enum Attribute {
    Xmlns,
    Id,
    Class,
    X,
    Y,
    X1,
    Y1,
    X2,
    Y2,
    CenterX,
    CenterY,
    Radius,
    Width,
    Height,
    ViewBox,
    Space,
    ReferenceX,
    ReferenceY,
    MarkerWidth,
    MarkerHeight,
    MarkerUnits,
    Orient,
    Drawn,
}

impl Attribute {
    /// Its name.
    pub fn name(self) -> &'static str
        ensures { result.now ≡ spec.attribute_name self }
    {
        match self {
            Attribute::Xmlns => "xmlns",
            Attribute::Id => "id",
            Attribute::Class => "class",
            Attribute::X => "x",
            Attribute::Y => "y",
            Attribute::X1 => "x1",
            Attribute::Y1 => "y1",
            Attribute::X2 => "x2",
            Attribute::Y2 => "y2",
            Attribute::CenterX => "cx",
            Attribute::CenterY => "cy",
            Attribute::Radius => "r",
            Attribute::Width => "width",
            Attribute::Height => "height",
            Attribute::ViewBox => "viewBox",
            Attribute::Space => "xml:space",
            Attribute::ReferenceX => "refX",
            Attribute::ReferenceY => "refY",
            Attribute::MarkerWidth => "markerWidth",
            Attribute::MarkerHeight => "markerHeight",
            Attribute::MarkerUnits => "markerUnits",
            Attribute::Orient => "orient",
            Attribute::Drawn => "d",
        }
    }

    /// Its place in the order.
    pub fn place(self) -> u8
        ensures { result ≡ spec.place_of self }
    {
        match self {
            Attribute::Xmlns => 0,
            Attribute::Id => 1,
            Attribute::Class => 2,
            Attribute::X => 3,
            Attribute::Y => 4,
            Attribute::X1 => 5,
            Attribute::Y1 => 6,
            Attribute::X2 => 7,
            Attribute::Y2 => 8,
            Attribute::CenterX => 9,
            Attribute::CenterY => 10,
            Attribute::Radius => 11,
            Attribute::Width => 12,
            Attribute::Height => 13,
            Attribute::ViewBox => 14,
            Attribute::Space => 15,
            Attribute::ReferenceX => 16,
            Attribute::ReferenceY => 17,
            Attribute::MarkerWidth => 18,
            Attribute::MarkerHeight => 19,
            Attribute::MarkerUnits => 20,
            Attribute::Orient => 21,
            Attribute::Drawn => 22,
        }
    }
}
