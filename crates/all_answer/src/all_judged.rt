//! All that refuses captures: they are judged again, each time without what was refused before.

ghost use Rattle.std.specs.Prelude.{◌≡◌, IfOk, Ok};

use crate::all_left::{Beyond, NotJudged};
use crate::all_told::{AllTold, Answer, MOST_TOLD, Refusal};
use capture::CaptureFault;
use link_groups::OwnAddress;
use pair_judge::{JudgeFault, TextFault};
use printing::check::{print, print_read_once};
use std::alloc::{AllocError, Global};
use std::io::{Read, Seek, Write};
use wire_base::{Side, Tally};

// The status of captures that are refused.
const REFUSED: u8 = 1;

/// Why not all refusals are found.
#[derive(Clone, Copy)]
pub enum AllFault {
    /// The file of this side can't be read again from its beginning.
    ReadOnce(Side),
    /// As of a judge.
    Judge(JudgeFault),
}

impl AllFault {
    /// There is no memory.
    pub const OUT_OF_MEMORY: AllFault = AllFault::Judge(JudgeFault::OutOfMemory);
}

/// Captures that can be read again and again.
pub trait Captures {
    /// Nothing is left out yet; what belongs together is read from the captures.
    fn bound(&mut self, alloc: Global) -> Result<NotJudged, AllFault>;

    /// Which links the refused record is about.
    fn address_of(
        &mut self,
        alloc: Global,
        refusal: Refusal,
    ) -> Result<Option<OwnAddress>, AllFault>;

    /// The answer on what is still judged, with the bytes that the captures themselves have. A text that departs is an answer too.
    fn judged(&mut self, alloc: Global, not_judged: &NotJudged) -> Result<Answer, AllFault>;

    /// The word for captures that are not refused.
    fn passed(&self) -> &'static str;

    /// Whether the line alone is judged.
    fn is_of_line(&self) -> bool;

    /// The answer on the line of the captures themselves, with nothing left out, which asks for periods or not. A text that departs is a fault.
    fn line(&mut self, alloc: Global, any_period: bool) -> Result<Answer, AllFault>;
}

/// Tells all refusals, from this first answer on, which leads on, and then what is left. What is not judged any more, at the end.
pub fn find_all<C: Captures>(
    alloc: Global,
    captures: &mut C,
    told: &mut AllTold,
    first: Answer,
) -> Result<NotJudged, AllFault> {
    let mut answer = first;
    in_memory(told.leading(&answer))?;
    let mut left = captures.bound(alloc)?;
    find_on(alloc, captures, told, &mut answer, &mut left)?;
    Ok(left)
}

// Goes on from this answer, which was told if it leads on: what it leads to is left out and the rest judged, until that leads no further.
fn find_on<C: Captures>(
    alloc: Global,
    captures: &mut C,
    told: &mut AllTold,
    answer: &mut Answer,
    left: &mut NotJudged,
) -> Result<(), AllFault> {
    for count in 1..MOST_TOLD + 1 {
        let Some(led) = answer.leads_beyond() else {
            break;
        };
        if !leave(alloc, captures, led, answer, left)? {
            return in_memory(told.ends(answer));
        }
        if count < MOST_TOLD {
            in_memory(told.leading(answer))?;
        }
    }
    in_memory(match answer.leads_beyond() {
        Some((refusal, _)) => told.goes_on(refusal),
        None => told.ends(answer),
    })
}

// Leaves out what this refusal leads to, and judges the rest: that is the answer then. Whether more is left out by it.
fn leave<C: Captures>(
    alloc: Global,
    captures: &mut C,
    led: (Refusal, Beyond),
    answer: &mut Answer,
    left: &mut NotJudged,
) -> Result<bool, AllFault> {
    let (refusal, beyond) = led;
    let address = match beyond {
        Beyond::Links => captures.address_of(alloc, refusal)?,
        _ => None,
    };
    let goes_on = left.leave(beyond, address);
    *answer = captures.judged(alloc, left)?;
    Ok(goes_on)
}

/// The answer without the links that this refusal is about; `None` where it is about none.
pub fn judge_without<C: Captures>(
    alloc: Global,
    captures: &mut C,
    refusal: Refusal,
) -> Result<Option<Answer>, AllFault> {
    let Beyond::Links = Beyond::of(refusal.reason) else {
        return Ok(None);
    };
    let mut left = captures.bound(alloc)?;
    judge_left(alloc, captures, refusal, &mut left)
}

fn judge_left<C: Captures>(
    alloc: Global,
    captures: &mut C,
    refusal: Refusal,
    left: &mut NotJudged,
) -> Result<Option<Answer>, AllFault> {
    let address = captures.address_of(alloc, refusal)?;
    if !left.leave(Beyond::Links, address) {
        return Ok(None);
    }
    Ok(Some(captures.judged(alloc, left)?))
}

/// Prints this first answer and, where it leads on, all refusals and what is left; and answers the status. Where a file can't be read again from its
/// beginning, that is told to `err` after the first one, with status 3. `Err`: nothing is printed.
pub fn print_all<C: Captures, O: Write, E: Write>(
    alloc: Global,
    captures: &mut C,
    mut told: AllTold,
    first: Answer,
    out: &mut Tally<O>,
    err: &mut Tally<E>,
) -> Result<u8, JudgeFault> {
    if first.leads_beyond().is_none() {
        return print_only(&mut told, &first, out);
    }
    let found = match find_all(alloc, captures, &mut told, first) {
        Ok(_) => Ok(()),
        Err(fault) => Err(fault),
    };
    print_found(&told, found, out, err)
}

fn print_only<O: Write>(
    told: &mut AllTold,
    first: &Answer,
    out: &mut Tally<O>,
) -> Result<u8, JudgeFault> {
    match told.only(first) {
        Ok(()) => Ok(print(out, told.bytes(), first.status)),
        Err(_) => Err(JudgeFault::OutOfMemory),
    }
}

// Prints what was told of the refusals that were found.
fn print_found<O: Write, E: Write>(
    told: &AllTold,
    found: Result<(), AllFault>,
    out: &mut Tally<O>,
    err: &mut Tally<E>,
) -> Result<u8, JudgeFault> {
    match found {
        Ok(()) => Ok(print(out, told.bytes(), REFUSED)),
        Err(AllFault::ReadOnce(side)) => match print(out, told.bytes(), REFUSED) {
            REFUSED => Ok(print_read_once(err, side)),
            failed => Ok(failed),
        },
        Err(AllFault::Judge(fault)) => Err(fault),
    }
}

/// A file from where it is on.
pub fn read_on<R: Read>(file: &mut R) -> Tally<&mut R> {
    Tally::new(file)
}

/// The file of this side from its beginning on.
pub fn read_again<R: Read + Seek>(side: Side, file: &mut R) -> Result<Tally<&mut R>, AllFault> {
    match file.rewind() {
        Ok(()) => Ok(Tally::new(file)),
        Err(_) => Err(AllFault::ReadOnce(side)),
    }
}

/// What was read of the text of this side, or why it was not.
pub fn of_text<T>(side: Side, read: Result<T, CaptureFault>) -> Result<T, AllFault>
    ensures { IfOk result (λ value. read ≡ Ok value) }
{
    match read {
        Ok(read) => Ok(read),
        Err(CaptureFault::OutOfMemory) => Err(AllFault::OUT_OF_MEMORY),
        Err(CaptureFault::Departs { kind, line }) => Err(AllFault::Judge(JudgeFault::Capture {
            side,
            fault: TextFault::Departs { kind, line },
        })),
        Err(CaptureFault::Read | CaptureFault::Failed) => {
            Err(AllFault::Judge(JudgeFault::Capture {
                side,
                fault: TextFault::Read,
            }))
        }
    }
}

/// What was made in memory, or that there is none.
pub fn in_memory<T>(made: Result<T, AllocError>) -> Result<T, AllFault>
    ensures { IfOk result (λ value. made ≡ Ok value) }
{
    match made {
        Ok(made) => Ok(made),
        Err(AllocError) => Err(AllFault::OUT_OF_MEMORY),
    }
}
