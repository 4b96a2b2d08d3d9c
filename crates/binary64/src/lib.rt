// IEEE 754 binary64 quantities by their 64-bit patterns. specs/ says what a pattern's parts and its exact value are.
#![tactic(auto)]

pub mod pattern;
