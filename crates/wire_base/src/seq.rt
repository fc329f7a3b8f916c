ghost use Rattle.std.specs.Prelude.{◌≡◌, ℕ, ◌+◌, ◌-◌, ◌%◌, ◌^◌, ◌<◌, ◌≤◌};
ghost use Rattle.wire_base.specs.Seq.{IsLift, wire_distance, wire_value};

use std::marker::Model;

/// The wire value of a number: the number modulo `M`, which is 256 in DDCMP and 4,096 in NSP. No call takes memory.
#[derive(Clone, Copy, PartialEq, Eq)]
pub struct Seq<const M: u16> {
    value: u16,
}

impl<const M: u16> Model for Seq<M> {
    ghost Value = { ℕ };

    ghost view = { λ seq. seq.value };

    ghost invariant = { λ seq. seq.value < M };

    ghost inverse = { λ number. record { value = number } };
}

impl<const M: u16> Seq<M> {
    /// The wire value of a number.
    pub fn of(number: u64) -> Self
        requires { 0 < M }
        ensures { result ≡ wire_value M number }
    {
        Seq {
            value: (number % u64::from(M)) as u16,
        }
    }

    /// This wire value, below `M`.
    pub fn value(self) -> u16
        ensures value { result ≡ self.entry }
        ensures below { result < M }
    {
        self.value
    }

    /// The wire value of the next number.
    pub fn next(self) -> Self
        ensures value { result ≡ (self.entry + 1) % M }
        ensures numbers { (number : ℕ) → wire_value M number ≡ self.entry → wire_value M (number + 1) ≡ result }
    {
        let next = u32::from(self.value) + 1;
        Seq {
            value: (next % u32::from(M)) as u16,
        }
    }

    /// How many numbers it is from one wire value up to another, modulo `M`. It is the true distance of two numbers with
    /// these wire values wherever the second is not below the first and less than `M` above it.
    pub fn distance(from: Self, to: Self) -> u16
        ensures value { result ≡ wire_distance M from.entry to.entry }
        ensures numbers { (low high : ℕ) → low ≤ high → wire_value M low ≡ from.entry
            → wire_value M high ≡ to.entry → result ≡ (high - low) % M }
    {
        let up = u32::from(to.value) + u32::from(M) - u32::from(from.value);
        (up % u32::from(M)) as u16
    }

    /// The least number at or above `base` with this wire value.
    pub fn lift(base: u64, wire: Self) -> u64
        requires { base + M < 2 ^ 64 }
        ensures { IsLift M base wire.entry result }
    {
        let _ = &wire.value;
        base + u64::from(Seq::distance(Seq::of(base), wire))
    }
}
