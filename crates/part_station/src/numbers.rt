//! What A, N and T of a station may be.

ghost use Rattle.std.specs.Prelude.{◌≡◌, ◌+◌, ◌^◌, ◌<◌, ◌≤◌, true, IfSome};
ghost use Rattle.part_station.specs.Numbers as specs;
ghost use Rattle.part_station.specs.Low.{AreLow, IsLow};

use dna_station::StationRefusal;

const WINDOW: u64 = 255;

/// What the highest number acknowledged (A), the highest given (N) and the next to send (T) of a station in RUNNING may be, of whose capture the
/// beginning is not known. They are true numbers but for a multiple of 256: all such A, N and T with A < T <= N + 1 and N <= A + 255.
#[derive(Clone, Copy, Debug, PartialEq, Eq)]
pub struct Numbers {
    /// A is this at least,
    pub least_acknowledged: u64,
    /// and this at most.
    pub most_acknowledged: u64,
    /// N is this at least,
    pub least_given: u64,
    /// and this at most.
    pub most_given: u64,
    /// T, where it is known.
    pub next: Option<u64>,
}

// The least number from this one on with this wire value.
fn from_on(least: u64, number: u8) -> u64
    requires { least < 2 ^ 63 + 2 }
    ensures { result ≡ specs.from_on least number }
{
    least + (u64::from(number) + 256 - least % 256) % 256
}

impl Numbers {
    // T, which this is the number of.
    fn next_of(&self, num: u8) -> Option<u64>
        requires { IsLow (2 ^ 63) self.now }
        ensures number { result ≡ specs.next_of self.now self.now.next num }
        ensures low { IfSome result (λ next. next ≤ 2 ^ 63 + 1) }
    {
        if let Some(next) = self.next {
            if u64::from(num) == next % 256 {
                return Some(next);
            }
            return None;
        }
        let next = from_on(self.least_acknowledged + 1, num);
        if next <= self.most_given + 1 {
            return Some(next);
        }
        None
    }

    // N that this is the number of.
    fn highest(&self, num: u8) -> u64
        requires { IsLow (2 ^ 63) self.now }
        ensures { result ≡ specs.highest self.now num }
    {
        from_on(self.least_given, num)
    }

    // The least number that this RESP may acknowledge.
    fn answered(&self, resp: u8) -> u64
        requires { IsLow (2 ^ 63) self.now }
        ensures { result ≡ specs.answered self.now resp }
    {
        from_on(self.least_acknowledged, resp)
    }

    // This number is acknowledged.
    fn with_acknowledged(&self, back: bool, acknowledged: u64) -> Numbers
        requires low { IsLow (2 ^ 63) self.now }
        requires among { acknowledged ≤ 2 ^ 63 }
        ensures { result ≡ specs.with_acknowledged back self.now acknowledged }
    {
        Numbers {
            least_acknowledged: acknowledged,
            most_acknowledged: acknowledged,
            least_given: self.least_given.max(acknowledged),
            most_given: self.most_given.min(acknowledged + WINDOW),
            next: next_after(back, self.next, acknowledged),
        }
    }
}

// T where it was this and A is this one now.
fn next_after(back: bool, next: Option<u64>, acknowledged: u64) -> Option<u64>
    requires { acknowledged ≤ 2 ^ 63 }
    ensures { result ≡ specs.next_after back next acknowledged }
{
    if back {
        return Some(acknowledged + 1);
    }
    match next {
        Some(next) => Some(next.max(acknowledged + 1)),
        None => None,
    }
}

/// T where data with this NUM are sent; `None` where T can't have this wire value (reason 7). `None` for the numbers: nothing is known of them.
pub fn data_number(numbers: Option<Numbers>, num: u8) -> Option<u64>
    requires { AreLow (2 ^ 63) numbers }
    ensures number { result ≡ specs.data_number numbers num }
    ensures low { IfSome result (λ next. next ≤ 2 ^ 63 + 1) }
{
    match numbers {
        Some(numbers) => numbers.next_of(num),
        None => Some(u64::from(num) + 256),
    }
}

/// Whether fewer than 255 may be outstanding where data with this number are sent, or they go again.
pub fn has_room(numbers: Option<Numbers>, next: u64) -> bool
    requires { AreLow (2 ^ 63) numbers }
    ensures { result ≡ specs.has_room numbers next }
{
    match numbers {
        Some(numbers) => next <= numbers.most_acknowledged + WINDOW,
        None => true,
    }
}

/// The numbers after data with this number.
pub fn after_data(numbers: Option<Numbers>, next: u64) -> Numbers
    requires low { AreLow (2 ^ 63) numbers }
    requires next { next ≤ 2 ^ 63 + 1 }
    ensures { result ≡ specs.after_data numbers next }
{
    match numbers {
        Some(numbers) => Numbers {
            least_acknowledged: numbers.least_acknowledged.max(next.saturating_sub(WINDOW)),
            most_acknowledged: numbers.most_acknowledged.min(next.saturating_sub(1)),
            least_given: numbers.least_given.max(next),
            most_given: numbers.most_given.max(next),
            next: Some(next + 1),
        },
        None => Numbers {
            least_acknowledged: next.saturating_sub(WINDOW),
            most_acknowledged: next.saturating_sub(1),
            least_given: next,
            most_given: next + WINDOW - 1,
            next: Some(next + 1),
        },
    }
}

/// Why a REP with this NUM can't be sent, if it can't: NUM can't be N (reason 7), or no packet can be outstanding then (6).
pub fn rep_refusal(numbers: Option<Numbers>, num: u8) -> Option<StationRefusal>
    requires { AreLow (2 ^ 63) numbers }
    ensures { result ≡ specs.rep_refusal numbers num }
{
    let Some(numbers) = numbers else {
        return None;
    };
    if numbers.least_acknowledged == numbers.most_given {
        return Some(StationRefusal::WrongState);
    }
    let highest = numbers.highest(num);
    if highest > numbers.most_given {
        return Some(StationRefusal::WrongNumber);
    }
    if highest == numbers.least_acknowledged {
        return Some(StationRefusal::WrongState);
    }
    None
}

/// The numbers after a REP with this NUM.
pub fn after_rep(numbers: Option<Numbers>, num: u8) -> Numbers
    requires { AreLow (2 ^ 63) numbers }
    ensures { result ≡ specs.after_rep numbers num }
{
    let Some(numbers) = numbers else {
        let given = u64::from(num) + 256;
        return Numbers {
            least_acknowledged: given - WINDOW,
            most_acknowledged: given - 1,
            least_given: given,
            most_given: given,
            next: None,
        };
    };
    let given = numbers.highest(num);
    Numbers {
        least_acknowledged: numbers.least_acknowledged.max(given.saturating_sub(WINDOW)),
        most_acknowledged: numbers.most_acknowledged.min(given.saturating_sub(1)),
        least_given: given,
        most_given: given,
        next: numbers.next,
    }
}

/// Whether a RESP that comes may be among A to N; else the other side sent it wrongly (reason 8).
pub fn may_answer(numbers: Option<Numbers>, resp: u8) -> bool
    requires { AreLow (2 ^ 63) numbers }
    ensures { result ≡ specs.may_answer numbers resp }
{
    match numbers {
        Some(numbers) => numbers.answered(resp) <= numbers.most_given,
        None => true,
    }
}

/// Whether it may acknowledge the number 256 above the least one, too.
pub fn may_lie_ahead(numbers: Option<Numbers>, resp: u8) -> bool
    requires { AreLow (2 ^ 63) numbers }
    ensures { result ≡ specs.may_lie_ahead numbers resp }
{
    match numbers {
        Some(numbers) => numbers.answered(resp) + 256 <= numbers.most_given,
        None => false,
    }
}

/// The numbers after a RESP that acknowledges the least number that it may; where it is of a NAK, T is the one after it.
pub fn after_response(back: bool, numbers: Option<Numbers>, resp: u8) -> Numbers
    requires low { AreLow (2 ^ 63) numbers }
    requires among { specs.may_answer numbers resp ≡ true }
    ensures { result ≡ specs.after_response back numbers resp }
{
    match numbers {
        Some(numbers) => numbers.with_acknowledged(back, numbers.answered(resp)),
        None => {
            let acknowledged = u64::from(resp);
            Numbers {
                least_acknowledged: acknowledged,
                most_acknowledged: acknowledged,
                least_given: acknowledged,
                most_given: acknowledged + WINDOW,
                next: next_after(back, None, acknowledged),
            }
        }
    }
}

/// The numbers after a RESP that acknowledges the number 256 above that.
pub fn after_response_ahead(back: bool, numbers: Option<Numbers>, resp: u8) -> Numbers
    requires low { AreLow (2 ^ 63) numbers }
    requires among { specs.may_lie_ahead numbers resp ≡ true }
    ensures { result ≡ specs.after_response_ahead back numbers resp }
{
    match numbers {
        Some(numbers) => numbers.with_acknowledged(back, numbers.answered(resp) + 256),
        None => after_response(back, None, resp),
    }
}
