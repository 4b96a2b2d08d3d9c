// The six quantities of a case: their patterns, refusals 8 to 11, and what they are.
ghost use Rattle.std.specs.Prelude.{◌≡◌, not, IfOk};
ghost use Rattle.std.specs.Float.{binary64};
ghost use Rattle.std.specs.Float.Ieee.{of_bits, le};
ghost use Rattle.kinds.specs.Refusal.{first_of};
ghost use Rattle.kinds.specs.Number.{refused};
ghost use Rattle.kinds.specs.Case.{of_six, quantity_of, sum_within, summed_of, quantity_refusals};
ghost use Rattle.kinds.specs.Patterns.{patterns_of, at};
ghost use Rattle.scenario.specs.Faults.{add_faults, told_of, faults_of};

use binary64::pattern::{is_unsigned_finite, quantity_of};
use kinds::limits_of;
use kinds::refusal::Refusal;
use octets::Octets;
use std::array;

pub fn patterns_at(case: &[u8; 64]) -> [u64; 6]
    ensures { result ≡ patterns_of case.now }
{
    array::from_fn(|i| u64::at(case, 16 + 8 * i))
}

// Whether refusals 8, 9 and 10 hold: no number from 0 on, unlisted and not zero bytes, over its limit.
#[derive(Clone, Copy, Default)]
pub struct Faults {
    pub invalid: bool,
    pub stray: bool,
    pub over: bool,
}

impl Faults {
    // What was found, with a quantity by its limit, 0 where it is unlisted, and its pattern. Patterns are in the order of their values.
    fn with(self, limit: u64, pattern: u64) -> Faults
        ensures { result ≡ add_faults self limit pattern }
    {
        let unlisted = limit == 0;
        Faults {
            invalid: self.invalid | !is_unsigned_finite(pattern),
            stray: self.stray | (unlisted & (pattern != 0)),
            over: self.over | (!unlisted & !(pattern <= limit)),
        }
    }

    // The first of refusals 8, 9 and 10 that holds.
    fn told(self) -> Result<(), Refusal>
        ensures { refused result ≡ first_of (told_of self) }
    {
        if self.invalid {
            return Err(Refusal::NotNumber);
        }
        if self.stray {
            return Err(Refusal::Unlisted);
        }
        if self.over {
            return Err(Refusal::OverLimit);
        }
        Ok(())
    }
}

// Of any of the six.
fn faults_of(kind: u8, row: u8, p: &[u64; 6]) -> Faults
    ensures { result ≡ faults_of kind row (at p.now) }
{
    limits_of(kind, row).iter().zip(p).fold(
        Faults::default(),
        |found, (limit, pattern)| found.with(*limit, *pattern),
    )
}

fn over_one(sum: f64) -> bool
    ensures { result ≡ not (le sum (of_bits binary64 0x3ff0000000000000)) }
{
    !(sum <= 1.0)
}

// From the left, each addition rounded.
fn sum_over(kind: u8, quantities: [f64; 6]) -> bool
    ensures { result ≡ not (sum_within (summed_of kind quantities)) }
{
    let [_, b, c, d, e, _] = quantities;
    match kind {
        5 => over_one((c + d) + e),
        8 => over_one(b + c),
        _ => false,
    }
}

// The quantities, or the first of refusals 8 to 11 that holds.
pub fn quantities_of(kind: u8, row: u8, p: &[u64; 6]) -> Result<[f64; 6], Refusal>
    ensures refusal { refused result ≡ first_of (quantity_refusals kind row (at p.now)) }
    ensures value { IfOk result (λ q. q ≡ of_six (λ i. quantity_of (at p.now i))) }
{
    faults_of(kind, row, p).told()?;
    let quantities = array::from_fn(|i| quantity_of(p[i]));
    if sum_over(kind, quantities) {
        return Err(Refusal::SumOver);
    }
    Ok(quantities)
}
