//! How the picture of a ladder looks.

use crate::svg_parts::{WIDTH, with_rect};
use crate::xml::{Attributes, Content};
use crate::xml_names::{Attribute, Tag};
use std::alloc::{AllocError, Global};

// Light, and dark where the reader's screen asks for that. What the colours tell is in words and strokes too: what came damaged is dashed, what has
// an end that is not drawn is dotted, what was not kept has a hollow head, what was lost above a cross after its head, and what is never sent a bar.
const STYLE: &str = "
text { fill: #24292f; font: 11px 'DejaVu Sans Mono', monospace; white-space: pre; }
text.title { font-size: 13px; font-weight: bold; }
text.side { font-size: 13px; font-weight: bold; text-anchor: middle; }
text.answer { font-weight: bold; }
text.verdict, text.seen { fill: #cf222e; font-weight: bold; }
text.line { fill: #6e7781; font-size: 9px; }
text.end { text-anchor: end; }
text.key { font-size: 10px; }
line { stroke-width: 1.5; marker-end: url(#head); }
line.data { stroke: #0969da; }
line.again { stroke: #bc6c00; }
line.ack { stroke: #57606a; }
line.nak, line.bad { stroke: #cf222e; }
line.rep { stroke: #8250df; }
line.start { stroke: #1a7f37; }
line.bad { stroke-dasharray: 6 3; }
line.open, line.outside { stroke-dasharray: 2 3; }
line.hollow { marker-end: url(#hollow); }
line.open { marker-end: none; }
line.lost { marker-end: url(#cross); }
line.dropped { marker-end: url(#dropped); }
line.unsent { marker-end: url(#bar); }
line.key { stroke-width: 3; marker-end: none; }
line.sign { stroke: #57606a; }
text.data { fill: #0969da; }
text.again { fill: #bc6c00; }
text.ack { fill: #57606a; }
text.nak, text.bad { fill: #cf222e; }
text.rep { fill: #8250df; }
text.start { fill: #1a7f37; }
rect.paper { fill: #ffffff; }
rect.refused { fill: none; stroke: #cf222e; stroke-width: 2; }
rect.HALTED { fill: #d0d7de; }
rect.ISTRT, rect.ASTRT { fill: #f4d58d; }
rect.RUNNING { fill: #9bd4a4; }
circle, path.head { fill: #24292f; }
path.hollow { fill: #ffffff; stroke: #24292f; }
path.cross { fill: none; stroke: #cf222e; stroke-width: 2; }
path.dropped, path.bar { fill: #24292f; stroke: #24292f; }
@media (prefers-color-scheme: dark) {
text { fill: #e6edf3; }
text.verdict, text.seen, text.nak, text.bad { fill: #ff7b72; }
text.line { fill: #8b949e; }
line.data { stroke: #79c0ff; }
line.again { stroke: #f0a030; }
line.ack, line.sign { stroke: #9aa4af; }
line.nak, line.bad { stroke: #ff7b72; }
line.rep { stroke: #d2a8ff; }
line.start { stroke: #7ee787; }
text.data { fill: #79c0ff; }
text.again { fill: #f0a030; }
text.ack { fill: #9aa4af; }
text.rep { fill: #d2a8ff; }
text.start { fill: #7ee787; }
rect.paper { fill: #0d1117; }
rect.refused { stroke: #ff7b72; }
rect.HALTED { fill: #484f58; }
rect.ISTRT, rect.ASTRT { fill: #9e7a1f; }
rect.RUNNING { fill: #2f7d3b; }
circle, path.head { fill: #e6edf3; }
path.hollow { fill: #0d1117; stroke: #e6edf3; }
path.cross { stroke: #ff7b72; }
path.dropped, path.bar { fill: #e6edf3; stroke: #e6edf3; }
}
";

// A head of an arrow: its name and its class, the box that its lines are in, where its point is in that, its width and height, and its lines.
struct Head {
    name: &'static str,
    view: &'static str,
    point: (&'static str, &'static str),
    size: (&'static str, &'static str),
    lines: &'static str,
}

static HEADS: [Head; 5] = [
    Head {
        name: "head",
        view: "0 0 8 6",
        point: ("8", "3"),
        size: ("8", "6"),
        lines: "M0 0 L8 3 L0 6 Z",
    },
    Head {
        name: "hollow",
        view: "0 0 9 7",
        point: ("8.5", "3.5"),
        size: ("9", "7"),
        lines: "M0.5 0.7 L8 3.5 L0.5 6.3 Z",
    },
    Head {
        name: "cross",
        view: "0 0 10 10",
        point: ("5", "5"),
        size: ("10", "10"),
        lines: "M1 1 L9 9 M1 9 L9 1",
    },
    Head {
        name: "dropped",
        view: "0 0 14 6",
        point: ("14", "3"),
        size: ("14", "6"),
        lines: "M0 0.5 L7 3 L0 5.5 Z M9 1 L13 5 M9 5 L13 1",
    },
    Head {
        name: "bar",
        view: "0 0 2 10",
        point: ("1", "5"),
        size: ("2", "10"),
        lines: "M1 0 L1 10",
    },
];

/// How all looks, with the heads of arrows, on a ground of this height.
pub fn with_style(svg: Content, alloc: Global, height: usize) -> Result<Content, AllocError> {
    let style = Content::new(alloc).with_words(STYLE)?;
    let mut heads = Content::new(alloc).with_words("\n")?;
    for head in &HEADS {
        heads = with_head(heads, alloc, head)?;
    }
    let svg = svg
        .with(Tag::Style, Attributes::new(alloc), style)?
        .with_words("\n")?
        .with(Tag::Defs, Attributes::new(alloc), heads)?
        .with_words("\n")?;
    with_rect(svg, alloc, "paper", (0, 0), (WIDTH, height))
}

fn with_head(heads: Content, alloc: Global, head: &Head) -> Result<Content, AllocError> {
    let (point_x, point_y) = head.point;
    let (width, height) = head.size;
    let form = Attributes::new(alloc).with_all(&[
        (Attribute::Id, head.name),
        (Attribute::ViewBox, head.view),
        (Attribute::ReferenceX, point_x),
        (Attribute::ReferenceY, point_y),
        (Attribute::MarkerWidth, width),
        (Attribute::MarkerHeight, height),
        (Attribute::MarkerUnits, "userSpaceOnUse"),
        (Attribute::Orient, "auto"),
    ])?;
    let lines = Attributes::new(alloc).with_all(&[
        (Attribute::Class, head.name),
        (Attribute::Drawn, head.lines),
    ])?;
    let content = Content::new(alloc).with_empty(Tag::Path, lines)?;
    heads.with(Tag::Marker, form, content)?.with_words("\n")
}
