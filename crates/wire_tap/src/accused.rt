//! Which units no correct node sent, whatever came to it.

ghost use Rattle.std.specs.Prelude.{◌≡◌, ◌<◌, ◌+◌, [], ◌∷◌, ◌++◌, length, ℕ, Bool, true, List, Option, Ok, IfOk, OnOk};
ghost use Rattle.wire_base.specs.Tally.{tally_lent};
ghost use Rattle.capture.specs.declared.phase.Phase.TheVariants as phases;
ghost use Rattle.capture.specs.Lines.{to_come};
ghost use Rattle.wire_text.specs.WireText.{Piece, piece as piece_of};
ghost use Rattle.wire_tap.specs.Accusing.{AreAccused, AreEither, FindsAccused};
ghost use Rattle.wire_tap.specs.Units.{UnitPassed};
ghost use Rattle.wire_tap.specs.inner.Accused.{IsLineBehind, IsRead, IsReading, IsTold, ReadsOn};

use crate::accusation::Accused;
use crate::direction::Direction;
use crate::evidence::Evidence;
use crate::fault::{TapFault, reading_fault};
use crate::sifting::Suspects;
use crate::suspects::SideAccused;
use crate::told::Told;
use std::alloc::{AllocError, Global};
use std::io::Read;
use wire_base::{Side, Tally};
use wire_text::{MAX_PIECES, WireReader};

/// Reads the text of what passed to its end, and finds which units no correct node sent; over the line alone packets are any bytes. Each unit that
/// was sent has passed here, and before the first of them neither side was started; where the recording shows at an accusation that this is not so,
/// that is told, and nobody is accused from there on. The units are told to an `Accuser`, a `LinkAccuser`, an `AckAccuser` and a `SegmentAccuser` of
/// each side in the order in which their last bytes passed, and the first of these that says something counts. Each unit that is named is one that
/// passed, by its number and the line of its first byte, and is accused by what passed before it.
///
/// Faults: `Departs` at the first line that departs from the format, `Read` where a call of the text's reader failed, and `OutOfMemory`.
pub fn find_accused<W: Read>(
    alloc: Global,
    wire: &mut Tally<W>,
    line_alone: bool,
) -> Result<Accused, TapFault>
    ensures either { IfOk result AreEither }
    ensures finds { IfOk result (FindsAccused line_alone (W.remaining (tally_lent wire.old))) }
{
    let mut reader = match WireReader::open(alloc, wire) {
        Ok(reader) => reader,
        Err(fault) => return Err(reading_fault(fault)),
    };
    let Ok(mut line) = Line::new(alloc, reader.node_a(), reader.node_b(), line_alone) else {
        return Err(TapFault::OutOfMemory);
    };
    match line.pass_all(&mut reader, wire) {
        Ok(()) => Ok(line.accused()),
        Err(fault) => Err(fault),
    }
}

// Both directions, and what their units told.
#[derive(Drop)]
struct Line {
    a: Direction,
    b: Direction,
    told: Told,
}

impl Line {
    // Nothing passed yet between the nodes with these addresses.
    fn new(alloc: Global, a: u16, b: u16, line_alone: bool) -> Result<Line, AllocError>
        ensures { IfOk result (IsLineBehind line_alone a b []) }
    {
        Ok(Line {
            a: Direction::new(alloc, Side::A)?,
            b: Direction::new(alloc, Side::B)?,
            told: Told {
                a: SideAccused::new(alloc, Side::A, a, b, line_alone),
                b: SideAccused::new(alloc, Side::B, b, a, line_alone),
                evidence: Evidence::NONE,
            },
        })
    }

    // All that the text has passed.
    fn pass_all<W: Read>(
        &mut self,
        reader: &mut WireReader,
        wire: &mut Tally<W>,
    ) -> Result<(), TapFault>
        requires { (reader.old.phase ≡ phases.Reading) × (reader.old.items ≡ 0) }
        ensures { (line_alone : Bool) (text : Option (List ℕ)) → IsReading line_alone text reader.old.items
            (to_come reader.old.unread (W.remaining (tally_lent wire.old))) self.old → OnOk result (IsRead line_alone text self.new) }
    {
        for _ in 0..MAX_PIECES + 1 {
            match self.pass_next(reader, wire) {
                Ok(true) => {}
                Ok(false) => return Ok(()),
                Err(fault) => return Err(fault),
            }
        }
        unreachable!()
    }

    // The next piece passed, if there is one.
    fn pass_next<W: Read>(
        &mut self,
        reader: &mut WireReader,
        wire: &mut Tally<W>,
    ) -> Result<bool, TapFault>
        requires { reader.old.phase ≡ phases.Reading }
        ensures reads { (line_alone : Bool) (text : Option (List ℕ)) → IsReading line_alone text reader.old.items
            (to_come reader.old.unread (W.remaining (tally_lent wire.old))) self.old → IfOk result (λ more. ReadsOn more line_alone text
            reader.new.items (to_come reader.new.unread (W.remaining (tally_lent wire.new))) self.new) }
        ensures on { result ≡ Ok true → (reader.new.phase ≡ phases.Reading) × (reader.old.items < MAX_PIECES)
            × (reader.new.items ≡ reader.old.items + 1) }
    {
        match reader.advance(wire) {
            Ok(Some(side)) => {
                let line = reader.items().saturating_add(1);
                match self.pass(side, reader.bytes(), line) {
                    Ok(()) => Ok(true),
                    Err(_) => Err(TapFault::OutOfMemory),
                }
            }
            Ok(None) => Ok(false),
            Err(fault) => Err(reading_fault(fault)),
        }
    }

    // These bytes of a side passed.
    fn pass(&mut self, side: Side, bytes: &[u8], line: u64) -> Result<(), AllocError>
        ensures { (line_alone : Bool) (a b : ℕ) (pieces : List Piece) → line ≡ length pieces + 2 → IsLineBehind line_alone a b pieces self.old
            → OnOk result (IsLineBehind line_alone a b (pieces ++ piece_of side bytes.now ∷ []) self.new) }
    {
        match side {
            Side::A => self.a.pass_bytes(bytes, line, &mut self.told),
            Side::B => self.b.pass_bytes(bytes, line, &mut self.told),
        }
    }

    // Whom they accuse, where what the framers hold at last is no unit.
    fn accused(&mut self) -> Accused
        ensures either { AreEither result }
        ensures accused { (line_alone : Bool) (a b : ℕ) (passed : List UnitPassed) → IsTold line_alone a b passed self.old.told
            → AreAccused line_alone a b passed result }
    {
        self.a.end(&mut self.told.evidence);
        self.b.end(&mut self.told.evidence);
        let suspects = Suspects {
            a: self.told.a.first,
            b: self.told.b.first,
            segment_a: self.told.a.segment,
            segment_b: self.told.b.segment,
        };
        suspects.sift(&self.told.evidence)
    }
}
