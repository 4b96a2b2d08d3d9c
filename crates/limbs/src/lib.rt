// A whole number as limbs of 32 bits, the lowest first: single limbs, and what limbs hold.
// specs/ says which number limbs stand for.
#![tactic(auto)]

pub mod limb;
pub mod reading;
