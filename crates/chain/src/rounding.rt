// A number over 2 ^ k * d, rounded up once.
ghost use Rattle.std.specs.Prelude.{◌≡◌, ◌+◌, ◌*◌, ◌/◌, ◌%◌, ◌^◌, ◌≤◌, ◌<◌, min, length, take, drop};
ghost use Rattle.limbs.specs.Value.{value};
ghost use Rattle.natural.specs.Ceiling.{ceiling};

use limbs::limb::wide;
use limbs::reading::{is_zero, to_u64};
use natural::arithmetic::{divide, shift_down};

// 1 where the number is not 0. A number of n limbs is below 2 ^ (32 * n).
fn sticky(limbs: &[u32]) -> u64
    ensures { (result ≡ min 1 (value limbs.now)) × (value limbs.now < 2 ^ (32 * length limbs.now)) }
{
    u64::from(!is_zero(limbs))
}

// One more where anything is left over; never past the largest u64.
fn up(q: u64, left: u64) -> u64
    ensures { result ≡ min 18446744073709551615 (q + min 1 left) }
{
    q.saturating_add(left.min(1))
}

// Divides by d as `divide` does; where d is 1 there is nothing to do.
fn divide_out(limbs: &mut [u32], d: u32) -> u32
    requires { 0 < d }
    ensures { (value limbs.old ≡ value limbs.new * d + result) × (result < d) }
{
    if d == 1 {
        return 0;
    }
    divide(limbs, d)
}

// The number over 2 ^ s * d, and one more where anything is left over of it or, by `below`, below it. The limbs keep the
// quotient rounded down.
fn quotient_up(limbs: &mut [u32], s: u32, d: u32, below: u64) -> u64
    requires { (s < 32) × (0 < d) × (below ≤ 1) }
    ensures { (result ≡ min 18446744073709551615 (value limbs.old / (2 ^ s * d) + min 1 (below + value limbs.old % (2 ^ s * d)))) × (value limbs.new ≡ value limbs.old / (2 ^ s * d)) }
{
    let a = shift_down(limbs, s);
    let b = divide_out(limbs, d);
    up(to_u64(limbs), below + wide(a) + wide(b))
}

// The number over 2 ^ k * d, rounded up; the largest u64 where that is larger. The limbs from k / 32 on keep it rounded down,
// and those below stay.
pub fn round_up(limbs: &mut [u32], k: usize, d: u32) -> u64
    requires { 0 < d }
    ensures { (result ≡ min 18446744073709551615 (ceiling (value limbs.old) (2 ^ k * d))) × (value (drop (k / 32) limbs.new) ≡ value limbs.old / (2 ^ k * d)) × (take (k / 32) limbs.new ≡ take (k / 32) limbs.old) }
{
    let j = k / 32;
    if limbs.len() <= j {
        return sticky(limbs);
    }
    let below = sticky(&limbs[..j]);
    quotient_up(&mut limbs[j..], (k % 32) as u32, d, below)
}
