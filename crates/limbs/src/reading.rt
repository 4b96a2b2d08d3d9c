// What limbs hold: how many are in use, whether the number is 0, and the number itself.
ghost use Rattle.std.specs.Prelude.{◌≡◌, ◌≤◌, min, eqb, length, take};
ghost use Rattle.limbs.specs.Value.{value, InUse};

use crate::limb::wide;

// How many limbs are left when the zero limbs at the top are dropped.
pub fn in_use(limbs: &[u32]) -> usize
    ensures { (result ≤ length limbs.now) × (value (take result limbs.now) ≡ value limbs.now) × InUse result limbs.now }
{
    match limbs.iter().rposition(|&x| x != 0) {
        Some(i) => i + 1,
        None => 0,
    }
}

// Whether the number is 0 (GMP's mpn_zero_p).
pub fn is_zero(limbs: &[u32]) -> bool
    ensures { result ≡ eqb (value limbs.now) 0 }
{
    in_use(limbs) == 0
}

// The number itself, or the largest u64 where it is larger.
pub fn to_u64(limbs: &[u32]) -> u64
    ensures { result ≡ min 18446744073709551615 (value limbs.now) }
{
    match limbs {
        [] => 0,
        [x] => wide(*x),
        [x, y, above @ ..] if is_zero(above) => wide(*x) + wide(*y) * 4294967296,
        _ => u64::MAX,
    }
}
