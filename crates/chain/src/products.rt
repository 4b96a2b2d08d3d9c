// Products: the number in the first limbs times a factor.
ghost use Rattle.std.specs.Prelude.{◌≡◌, ◌+◌, ◌-◌, ◌*◌, ◌≤◌, ◌<◌, length, take, drop, get_or};
ghost use Rattle.limbs.specs.Value.{value};

use limbs::limb::{high, low};
use natural::arithmetic::times_add;

// Multiplies the number in the first n limbs by f and adds `more`; returns how many limbs the result takes: n, or one or two
// more, of which the top one is not 0. The limbs above them stay.
pub fn grow(limbs: &mut [u32], n: usize, f: u64, more: u64) -> usize
    requires { n + 2 ≤ length limbs.old }
    ensures { (value (take result limbs.new) ≡ value (take n limbs.old) * f + more) × (n ≤ result) × (result ≤ n + 2) × (n < result → 0 < get_or limbs.new (result - 1) 0) × (drop result limbs.new ≡ drop result limbs.old) }
{
    let carry = times_add(&mut limbs[..n], f, more);
    if carry == 0 {
        return n;
    }
    limbs[n] = low(carry);
    if carry < 4294967296 {
        return n + 1;
    }
    limbs[n + 1] = high(carry);
    n + 2
}
