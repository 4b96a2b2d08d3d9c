// A pattern taken apart by shifts and masks, its significand and shift, and the f64 that it stands for.
ghost use Rattle.std.specs.Prelude.{◌≡◌, true, not, ◌*◌, ◌^◌, ◌≤◌, ◌<◌, T};
ghost use Rattle.std.specs.Float.{binary64};
ghost use Rattle.std.specs.Float.Ieee.{of_bits, to_bits, is_nan};
ghost use Rattle.binary64.specs.Pattern.{sign_of, exponent_of, fraction_of, is_unsigned_finite};
ghost use Rattle.binary64.specs.Quantity.{whole, significand_of, shift_of};

pub fn sign_of(bits: u64) -> u64
    ensures { result ≡ sign_of bits }
{
    bits >> 63
}

pub fn exponent_of(bits: u64) -> u64
    ensures { result ≡ exponent_of bits }
{
    (bits >> 52) & 0x7ff
}

pub fn fraction_of(bits: u64) -> u64
    ensures { result ≡ fraction_of bits }
{
    bits & 0xf_ffff_ffff_ffff
}

// Whether the pattern has no sign bit and an exponent field below 2047.
#[tactic(auto, unfolding(crate::specs::Pattern::is_unsigned_finite))]
pub fn is_unsigned_finite(bits: u64) -> bool
    ensures { result ≡ is_unsigned_finite bits }
{
    (sign_of(bits) == 0) & (exponent_of(bits) != 2047)
}

// A pattern's exact value over 2^1074 is significand * 2^shift.
#[derive(Clone, Copy)]
pub struct Parts {
    pub significand: u64,
    pub shift: usize,
}

#[tactic(auto, using(crate::proofs::Exact::whole_parts))]
pub fn parts_of(bits: u64) -> Parts
    ensures parts { (result.significand ≡ significand_of bits) × (result.shift ≡ shift_of bits) }
    ensures exact { bits < 2 ^ 63 → whole bits ≡ result.significand * 2 ^ result.shift }
    ensures small { (result.significand < 2 ^ 53) × (result.shift ≤ 2046) }
{
    let exponent = exponent_of(bits);
    let fraction = fraction_of(bits);
    if bits == 0 {
        return Parts {
            significand: 0,
            shift: 1074,
        };
    }
    if exponent == 0 {
        return Parts {
            significand: fraction,
            shift: 0,
        };
    }
    Parts {
        significand: 0x10_0000_0000_0000 + fraction,
        shift: (exponent - 1) as usize,
    }
}

// The f64 of a pattern; it is no NaN.
pub fn quantity_of(bits: u64) -> f64
    requires { is_unsigned_finite bits ≡ true }
    ensures { result ≡ of_bits binary64 bits }
{
    f64::from_bits(bits)
}

// The pattern of an f64.
pub fn pattern_of(x: f64) -> u64
    requires { T (not (is_nan x)) }
    ensures { result ≡ to_bits binary64 x }
{
    f64::to_bits(x)
}
