//! From the text of what passed to two captures.

ghost use Rattle.std.specs.Prelude.{◌≡◌, ◌+◌, ◌<◌, [], List, ℕ, Option, Ok, None, Some, false, OnOk, IfOk};
ghost use Rattle.std.specs.Io.KnownBytes.{Appends};
ghost use Rattle.wire_base.specs.Tally.{tally_faults, tally_lent};
ghost use Rattle.wire_base.specs.declared.side.Side.TheVariants as of_side;
ghost use Rattle.capture.specs.declared.phase.Phase.TheVariants as Phase;
ghost use Rattle.capture.specs.declared.format.Format.{Format};
ghost use Rattle.capture.specs.Faulty.{CountsReads};
ghost use Rattle.capture.specs.Lines.{to_come};
ghost use Rattle.capture.specs.Text.{head_line};
ghost use Rattle.capture.specs.ListReader.{Advances, ListState};
ghost use Rattle.wire_text.specs.WireText.{piece, wire_form};
ghost use Rattle.wire_text.specs.declared.limit.TheConstants.{MAX_PIECES};
ghost use Rattle.wire_tap.specs.Tapping.{CountsReadsOf, CountsWritesOf, Held, Taps, format_of, held};
ghost use Rattle.wire_tap.specs.inner.Side.{IsNew, side_state};
ghost use Rattle.wire_tap.specs.inner.Moving.{IsLineUnderWay, PassesPiece, PutsAll, Stops, Turns, is_failed_reading, is_failed_turn, line_state};

use crate::fault::{TapFault, reading_fault};
use crate::format::format_of;
use crate::outlet::{write_both, write_full, write_heads};
use crate::side_tap::{At, SideTap};
use crate::stop::Stop;
use crate::tapped::{Asked, Ending, Tapped};
use capture::{Format, put_head_line};
use placing::{Explained, Search, Turn};
use std::alloc::{AllocError, Global};
use std::io::{Read, Write};
use wire_base::{Side, Tally};
use wire_text::{MAX_PIECES, WireReader};

// Both sides, and what may have happened between their units.
#[derive(Drop)]
struct Sides {
    a: SideTap,
    b: SideTap,
    search: Search,
}

/// Reads the text of what passed to its end, places the units of both sides, and writes both captures: in format 1, or in format 3 where it is
/// assumed that a node boots or gives a call up. With a `last` unit they end with it, and with `line_alone` no packet is read.
///
/// Each unit that was sent has passed here, and before the first of them neither side was started. Where a unit has no placing, or there are too
/// many states to try, both captures end with it: the side's own has it as its last unit, and the other's what passed before it. Where each side is
/// explained by itself, each capture is one of a node alone, and both need not go together. `turns` are what is assumed besides. Each receipt of a
/// capture has the bytes of the unit of the other side that its hint numbers, among those that were read, and that one had passed before the side's
/// next unit in the capture passed; hints rise.
///
/// Faults: `Departs` at the first line that departs from the format (`WireReader::open` and `advance` say how), and `Read` where a call of the text's
/// reader failed: both writers then took the captures of all lines before, and nothing where there was no head. `Write`, a call of the writer of that
/// side failed, and `OutOfMemory`, memory was refused: each writer took a beginning of its capture.
pub fn tap<W: Read, A: Write, B: Write>(
    alloc: Global,
    wire: &mut Tally<W>,
    a: &mut Tally<A>,
    b: &mut Tally<B>,
    asked: Asked,
    turns: &[Turn],
) -> Result<Tapped, TapFault>
    ensures taps { Taps asked.last (format_of turns.now) (W.remaining (tally_lent wire.old))
        (held (A.contents (tally_lent a.old)) (B.contents (tally_lent b.old)))
        (held (A.contents (tally_lent a.new)) (B.contents (tally_lent b.new))) result }
    ensures reads { CountsReadsOf result (tally_faults wire.old) (tally_faults wire.new) }
    ensures writes_a { CountsWritesOf of_side.A result (tally_faults a.old) (tally_faults a.new) }
    ensures writes_b { CountsWritesOf of_side.B result (tally_faults b.old) (tally_faults b.new) }
{
    let mut reader = match WireReader::open(alloc, wire) {
        Ok(reader) => reader,
        Err(fault) => return Err(reading_fault(fault)),
    };
    let Ok(mut sides) = Sides::new(alloc, asked, turns) else {
        return Err(TapFault::OutOfMemory);
    };
    let format = format_of(turns);
    let Ok((head_a, head_b)) = heads(alloc, format, reader.node_a(), reader.node_b()) else {
        return Err(TapFault::OutOfMemory);
    };
    if let Err(side) = write_heads(head_a.as_slice(), head_b.as_slice(), a, b) {
        return Err(TapFault::Write { side });
    }
    tap_rest(&mut reader, wire, &mut sides, asked.last, a, b)
}

// A search to which nothing passed yet.
fn search_with(alloc: Global, explained: Explained, turns: &[Turn]) -> Result<Search, AllocError> {
    let mut search = Search::new(alloc, explained)?;
    for turn in turns {
        search.turn(*turn)?;
    }
    Ok(search)
}

// The heads of both captures.
fn heads(
    alloc: Global,
    format: Format,
    node_a: u16,
    node_b: u16,
) -> Result<(Vec<u8>, Vec<u8>), AllocError>
    ensures { IfOk result (λ heads. (heads.0.items ≡ head_line format node_a node_b) × (heads.1.items ≡ head_line format node_b node_a)) }
{
    let mut of_a = Vec::new(alloc);
    put_head_line(&mut of_a, format, node_a, node_b)?;
    let mut of_b = Vec::new(alloc);
    put_head_line(&mut of_b, format, node_b, node_a)?;
    Ok((of_a, of_b))
}

impl Sides {
    // Nothing passed yet.
    fn new(alloc: Global, asked: Asked, turns: &[Turn]) -> Result<Sides, AllocError>
        ensures a { IfOk result (λ sides. IsNew sides.a) }
        ensures b { IfOk result (λ sides. IsNew sides.b) }
    {
        let a = SideTap::new(alloc, asked.line_alone, Side::A, turns)?;
        let b = SideTap::new(alloc, asked.line_alone, Side::B, turns)?;
        let search = search_with(alloc, asked.explained, turns)?;
        Ok(Sides { a, b, search })
    }

    // Puts all lines that are left.
    fn finish(&mut self) -> Result<(), AllocError>
        ensures a { OnOk result (PutsAll self.old.a.units.placing self.new.a.units.placing) }
        ensures b { OnOk result (PutsAll self.old.b.units.placing self.new.b.units.placing) }
        ensures count_a { self.new.a.units.count ≡ self.old.a.units.count }
        ensures count_b { self.new.b.units.count ≡ self.old.b.units.count }
    {
        self.a.units.placing.finish(&mut self.search, Side::A)?;
        self.b.units.placing.finish(&mut self.search, Side::B)
    }

    // What was found, where what the framers hold at last is no unit.
    fn tapped(&mut self, ending: Ending) -> Tapped
        ensures ending { result.ending ≡ ending }
        ensures units_a { result.units_a.count ≡ self.old.a.units.count }
        ensures units_b { result.units_b.count ≡ self.old.b.units.count }
    {
        if let Ending::Whole = ending {
            self.a.units.skip(self.a.framer.held().len());
            self.b.units.skip(self.b.framer.held().len());
        }
        Tapped {
            ending,
            units_a: self.a.units.counted(),
            units_b: self.b.units.counted(),
            skipped_a: self.a.units.skipped,
            skipped_b: self.b.units.skipped,
        }
    }

    // Places the units of a piece of this side: the ending, where the captures end with one of them.
    fn pass_piece(&mut self, piece: &[u8], at: At) -> Result<Option<Ending>, AllocError>
        ensures { IfOk result (PassesPiece at.last at.side piece.now (side_state self.old.a, side_state self.old.b)
            (side_state self.new.a, side_state self.new.b)) }
    {
        match at.side {
            Side::A => self
                .a
                .pass_bytes(piece, at, &mut self.b.units.placing, &mut self.search),
            Side::B => self
                .b
                .pass_bytes(piece, at, &mut self.a.units.placing, &mut self.search),
        }
    }
}

// Places the units of all pieces that are left, and writes all lines of both captures.
fn tap_rest<W: Read, A: Write, B: Write>(
    reader: &mut WireReader,
    wire: &mut Tally<W>,
    sides: &mut Sides,
    last: Option<(Side, u64)>,
    a: &mut Tally<A>,
    b: &mut Tally<B>,
) -> Result<Tapped, TapFault>
    requires { (reader.old.phase ≡ Phase.Reading) × (reader.old.items ≡ 0) }
    ensures taps { (format : Format) (text : Option (List ℕ)) (old : Held) → IsLineUnderWay format text old (line_state reader.old.items
        (to_come reader.old.unread (W.remaining (tally_lent wire.old))) sides.old.a sides.old.b
        (held (A.contents (tally_lent a.old)) (B.contents (tally_lent b.old))))
        → Taps last format text old (held (A.contents (tally_lent a.new)) (B.contents (tally_lent b.new))) result
        × CountsReadsOf result (tally_faults wire.old) (tally_faults wire.new) }
    ensures writes_a { CountsWritesOf of_side.A result (tally_faults a.old) (tally_faults a.new) }
    ensures writes_b { CountsWritesOf of_side.B result (tally_faults b.old) (tally_faults b.new) }
{
    let stop = match pass_pieces(reader, wire, sides, last, a, b) {
        Ok(stop) => stop,
        Err(fault) => return Err(fault),
    };
    let Ok(()) = sides.finish() else {
        return Err(TapFault::OutOfMemory);
    };
    if let Err(side) = write_both(&mut sides.a.units.placing, &mut sides.b.units.placing, a, b) {
        return Err(TapFault::Write { side });
    }
    match stop {
        Stop::Ends(ending) => Ok(sides.tapped(ending)),
        Stop::Text(fault) => Err(reading_fault(fault)),
    }
}

// Places the units of all pieces that are left, and writes the lines that are put: why no more is read.
fn pass_pieces<W: Read, A: Write, B: Write>(
    reader: &mut WireReader,
    wire: &mut Tally<W>,
    sides: &mut Sides,
    last: Option<(Side, u64)>,
    a: &mut Tally<A>,
    b: &mut Tally<B>,
) -> Result<Stop, TapFault>
    requires { (reader.old.phase ≡ Phase.Reading) × (reader.old.items ≡ 0) }
    ensures stops { (format : Format) (text : Option (List ℕ)) (old : Held) → IsLineUnderWay format text old (line_state reader.old.items
        (to_come reader.old.unread (W.remaining (tally_lent wire.old))) sides.old.a sides.old.b
        (held (A.contents (tally_lent a.old)) (B.contents (tally_lent b.old))))
        → Stops last format text old (line_state reader.new.items
        (to_come reader.new.unread (W.remaining (tally_lent wire.new))) sides.new.a sides.new.b
        (held (A.contents (tally_lent a.new)) (B.contents (tally_lent b.new)))) result }
    ensures reads { CountsReads (is_failed_reading result) (tally_faults wire.old) (tally_faults wire.new) }
    ensures writes_a { CountsWritesOf of_side.A result (tally_faults a.old) (tally_faults a.new) }
    ensures writes_b { CountsWritesOf of_side.B result (tally_faults b.old) (tally_faults b.new) }
{
    for _ in 0..MAX_PIECES + 1 {
        match turn(reader, wire, sides, last, a, b) {
            Ok(None) => {}
            Ok(Some(stop)) => return Ok(stop),
            Err(fault) => return Err(fault),
        }
    }
    unreachable!()
}

// Places the units of one piece, and writes the lines that are put: why no more is read, if that is so.
fn turn<W: Read, A: Write, B: Write>(
    reader: &mut WireReader,
    wire: &mut Tally<W>,
    sides: &mut Sides,
    last: Option<(Side, u64)>,
    a: &mut Tally<A>,
    b: &mut Tally<B>,
) -> Result<Option<Stop>, TapFault>
    requires { reader.old.phase ≡ Phase.Reading }
    ensures turns { (format : Format) (text : Option (List ℕ)) (old : Held) → IsLineUnderWay format text old (line_state reader.old.items
        (to_come reader.old.unread (W.remaining (tally_lent wire.old))) sides.old.a sides.old.b
        (held (A.contents (tally_lent a.old)) (B.contents (tally_lent b.old))))
        → Turns last format text old (line_state reader.new.items
        (to_come reader.new.unread (W.remaining (tally_lent wire.new))) sides.new.a sides.new.b
        (held (A.contents (tally_lent a.new)) (B.contents (tally_lent b.new)))) result }
    ensures on { result ≡ Ok None → (reader.new.phase ≡ Phase.Reading) × (reader.old.items < MAX_PIECES)
        × (reader.new.items ≡ reader.old.items + 1) }
    ensures reads { CountsReads (is_failed_turn result) (tally_faults wire.old) (tally_faults wire.new) }
    ensures writes_a { CountsWritesOf of_side.A result (tally_faults a.old) (tally_faults a.new) }
    ensures writes_b { CountsWritesOf of_side.B result (tally_faults b.old) (tally_faults b.new) }
{
    match reader.advance(wire) {
        Ok(Some(side)) => {
            let line = reader.items().saturating_add(1);
            pass_on(reader, sides, At { side, line, last }, a, b)
        }
        Ok(None) => Ok(Some(Stop::Ends(Ending::Whole))),
        Err(fault) => Ok(Some(Stop::Text(fault))),
    }
}

// Places the units of the piece that was read last, and writes the lines that are put: why no more is read, if that is so.
fn pass_on<A: Write, B: Write>(
    reader: &WireReader,
    sides: &mut Sides,
    at: At,
    a: &mut Tally<A>,
    b: &mut Tally<B>,
) -> Result<Option<Stop>, TapFault>
    ensures turns { (was : ListState) (before after : Option (List ℕ)) (format : Format) (text : Option (List ℕ)) (old : Held) →
        IsLineUnderWay format text old (line_state was.items before sides.old.a sides.old.b
        (held (A.contents (tally_lent a.old)) (B.contents (tally_lent b.old))))
        → Advances wire_form was reader.now before after (Ok (Some (piece at.side reader.now.bytes)))
        → Turns at.last format text old (line_state reader.now.items after sides.new.a sides.new.b
        (held (A.contents (tally_lent a.new)) (B.contents (tally_lent b.new)))) result }
    ensures reads { is_failed_turn result ≡ false }
    ensures writes_a { CountsWritesOf of_side.A result (tally_faults a.old) (tally_faults a.new) }
    ensures writes_b { CountsWritesOf of_side.B result (tally_faults b.old) (tally_faults b.new) }
{
    match sides.pass_piece(reader.bytes(), at) {
        Ok(None) => match write_full(&mut sides.a.units.placing, &mut sides.b.units.placing, a, b) {
            Ok(()) => Ok(None),
            Err(side) => Err(TapFault::Write { side }),
        },
        Ok(Some(ending)) => Ok(Some(Stop::Ends(ending))),
        Err(_) => Err(TapFault::OutOfMemory),
    }
}
