// Arithmetic on whole numbers as limbs, in slices that the caller lends. specs/ says what a quotient rounded up is.
#![tactic(auto)]

pub mod arithmetic;
