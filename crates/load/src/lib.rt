// A figure as the fate model reads it: the smallest binary64 that is not below it, in eight little-endian bytes.
// specs/ says what it is to be that load, and which pattern it is.
#![tactic(auto)]

ghost use Rattle.std.specs.Prelude.{◌≡◌};
ghost use Rattle.octets.specs.Bytes.{number_of};
ghost use Rattle.load.specs.Load.{LoadWithin, load_pattern, load_bytes};

use octets::Octets;

// The pattern of a figure's load. A carry out of its 53 digits raises the exponent, since the two are added.
#[tactic(auto, using(crate::proofs::Shifted::shifts))]
pub fn load_pattern(figure: u64) -> u64
    ensures { result ≡ load_pattern figure }
{
    if figure == 0 {
        return 0;
    }
    let zeros = figure.leading_zeros();
    let shifted = figure << zeros;
    (1085 - u64::from(zeros)) * 0x10_0000_0000_0000 + ((shifted - 1) >> 11) + 1
}

// The bytes of a figure's load.
pub fn load(figure: u64) -> [u8; 8]
    ensures bytes { result ≡ load_bytes figure }
    ensures within { LoadWithin figure (number_of result) }
{
    load_pattern(figure).to_octets()
}
