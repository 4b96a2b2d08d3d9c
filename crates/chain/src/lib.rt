// What a chain of factors is worked out by: products that grow, and rounding up once, over 2 ^ k * d. What it begins with is in crate
// starts.
// A function that returns a count leaves its number in that many limbs, and limbs that it does not need stay as they were.
// Rounding up leaves the number rounded down in them.
#![tactic(auto, using(limbs::proofs::Parts::parts))]

pub mod products;
pub mod rounding;
