//! The lines of both captures on the way to their writers.

ghost use Rattle.std.specs.Prelude.{◌≡◌, [], OnOk, OnErr};
ghost use Rattle.wire_base.specs.Tally.{tally_faults, tally_lent};
ghost use Rattle.capture.specs.inner.Outlets.{Fails, PassBoth, Passes, outlet};

use placing::Placing;
use std::io::Write;
use wire_base::{Side, Tally, WriteFailed, write_whole};

// So many bytes of lines are written together.
const FULL: usize = 65_536;

/// Writes the heads of both captures, a's first. `Err`: the writer of this side failed in this call.
pub(crate) fn write_heads<A: Write, B: Write>(
    of_a: &[u8],
    of_b: &[u8],
    a: &mut Tally<A>,
    b: &mut Tally<B>,
) -> Result<(), Side>
    ensures { PassBoth (
      outlet of_a.now (A.contents (tally_lent a.old)) (tally_faults a.old),
      outlet of_b.now (B.contents (tally_lent b.old)) (tally_faults b.old),
    ) (
      outlet [] (A.contents (tally_lent a.new)) (tally_faults a.new),
      outlet [] (B.contents (tally_lent b.new)) (tally_faults b.new),
    ) result }
{
    let Ok(()) = write_whole(a, of_a) else {
        return Err(Side::A);
    };
    let Ok(()) = write_whole(b, of_b) else {
        return Err(Side::B);
    };
    Ok(())
}

/// Writes the lines of each side that has many, so that few wait. `Err`: as there.
pub(crate) fn write_full<A: Write, B: Write>(
    of_a: &mut Placing,
    of_b: &mut Placing,
    a: &mut Tally<A>,
    b: &mut Tally<B>,
) -> Result<(), Side>
    ensures units_a { OnOk result (of_a.new.units ≡ of_a.old.units) }
    ensures units_b { OnOk result (of_b.new.units ≡ of_b.old.units) }
    ensures writes { PassBoth (
      outlet of_a.old.text (A.contents (tally_lent a.old)) (tally_faults a.old),
      outlet of_b.old.text (B.contents (tally_lent b.old)) (tally_faults b.old),
    ) (
      outlet of_a.new.text (A.contents (tally_lent a.new)) (tally_faults a.new),
      outlet of_b.new.text (B.contents (tally_lent b.new)) (tally_faults b.new),
    ) result }
{
    let Ok(()) = write_if_full(of_a, a) else {
        return Err(Side::A);
    };
    let Ok(()) = write_if_full(of_b, b) else {
        return Err(Side::B);
    };
    Ok(())
}

/// Writes all lines of both sides. `Err`: as there.
pub(crate) fn write_both<A: Write, B: Write>(
    of_a: &mut Placing,
    of_b: &mut Placing,
    a: &mut Tally<A>,
    b: &mut Tally<B>,
) -> Result<(), Side>
    ensures empty_a { OnOk result (of_a.new.text ≡ []) }
    ensures empty_b { OnOk result (of_b.new.text ≡ []) }
    ensures writes { PassBoth (
      outlet of_a.old.text (A.contents (tally_lent a.old)) (tally_faults a.old),
      outlet of_b.old.text (B.contents (tally_lent b.old)) (tally_faults b.old),
    ) (
      outlet of_a.new.text (A.contents (tally_lent a.new)) (tally_faults a.new),
      outlet of_b.new.text (B.contents (tally_lent b.new)) (tally_faults b.new),
    ) result }
{
    let Ok(()) = write_lines(of_a, a) else {
        return Err(Side::A);
    };
    let Ok(()) = write_lines(of_b, b) else {
        return Err(Side::B);
    };
    Ok(())
}

// Writes the lines of a side where they are many.
fn write_if_full<W: Write>(placing: &mut Placing, writer: &mut Tally<W>) -> Result<(), WriteFailed>
    ensures units { OnOk result (placing.new.units ≡ placing.old.units) }
    ensures ok { OnOk result (Passes (outlet placing.old.text (W.contents (tally_lent writer.old)) (tally_faults writer.old))
        (outlet placing.new.text (W.contents (tally_lent writer.new)) (tally_faults writer.new))) }
    ensures err { OnErr result (Fails (outlet placing.old.text (W.contents (tally_lent writer.old)) (tally_faults writer.old))
        (outlet placing.new.text (W.contents (tally_lent writer.new)) (tally_faults writer.new))) }
{
    if placing.text().len() >= FULL {
        return write_lines(placing, writer);
    }
    Ok(())
}

// Writes the lines of a side, and drops them. `WriteFailed`: the writer failed in this call, and took a beginning that is not all.
fn write_lines<W: Write>(placing: &mut Placing, writer: &mut Tally<W>) -> Result<(), WriteFailed>
    ensures empty { OnOk result (placing.new.text ≡ []) }
    ensures units { OnOk result (placing.new.units ≡ placing.old.units) }
    ensures ok { OnOk result (Passes (outlet placing.old.text (W.contents (tally_lent writer.old)) (tally_faults writer.old))
        (outlet placing.new.text (W.contents (tally_lent writer.new)) (tally_faults writer.new))) }
    ensures err { OnErr result (Fails (outlet placing.old.text (W.contents (tally_lent writer.old)) (tally_faults writer.old))
        (outlet placing.new.text (W.contents (tally_lent writer.new)) (tally_faults writer.new))) }
{
    match write_whole(writer, placing.text()) {
        Ok(()) => {
            placing.clear_text();
            Ok(())
        }
        Err(failed) => Err(failed),
    }
}
