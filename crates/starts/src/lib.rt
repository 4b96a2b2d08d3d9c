// The wide starts of a chain: a number shifted up, a power of two less a number, and a sum of two numbers shifted up.
#![tactic(auto, using(limbs::proofs::Parts::parts))]

ghost use Rattle.std.specs.Prelude.{◌≡◌, ◌+◌, ◌*◌, ◌/◌, ◌^◌, ◌≤◌, max, length, take, drop};
ghost use Rattle.limbs.specs.Value.{value, InUse};

use limbs::limb::{high, low, multiply_step, power};
use limbs::reading::in_use;
use natural::arithmetic::{add, subtract};

fn clear(limbs: &mut [u32])
    ensures { value limbs.new ≡ 0 }
{
    limbs.fill(0);
}

// Writes x * 2 ^ at; returns how many limbs that takes (GMP's mpn_lshift, of two limbs). The limbs above them stay.
pub fn lay(limbs: &mut [u32], x: u64, at: usize) -> usize
    requires { at / 32 + 3 ≤ length limbs.old }
    ensures { (value (take result limbs.new) ≡ x * 2 ^ at) × (result ≡ at / 32 + 3) × (drop result limbs.new ≡ drop result limbs.old) }
{
    let n = at / 32;
    clear(&mut limbs[..n]);
    let s = multiply_step(power((at % 32) as u32), x, 0);
    limbs[n] = s.limb;
    limbs[n + 1] = low(s.carry);
    limbs[n + 2] = high(s.carry);
    n + 3
}

// Takes m away from a number that is not below it.
fn less(limbs: &mut [u32], m: u64)
    requires { (2 ≤ length limbs.old) × (m ≤ value limbs.old) }
    ensures { value limbs.new + m ≡ value limbs.old }
{
    let other = [low(m), high(m)];
    subtract(limbs, &other);
}

// Writes 2 ^ t - m; returns how many limbs are in use. It works on t / 32 + 3 limbs, and those above them stay.
pub fn complement(limbs: &mut [u32], t: usize, m: u64) -> usize
    requires { (t / 32 + 3 ≤ length limbs.old) × (m ≤ 2 ^ t) }
    ensures { (value (take result limbs.new) + m ≡ 2 ^ t) × (result ≤ t / 32 + 3) × InUse result limbs.new × (value (take (t / 32 + 3) limbs.new) + m ≡ 2 ^ t) × (drop (t / 32 + 3) limbs.new ≡ drop (t / 32 + 3) limbs.old) }
{
    let n = lay(limbs, 1, t);
    less(&mut limbs[..n], m);
    in_use(&limbs[..n])
}

// Adds x * 2 ^ at; returns what is carried out of the top limb.
fn add_term(limbs: &mut [u32], x: u64, at: usize) -> u32
    requires { at / 32 + 3 ≤ length limbs.old }
    ensures { value limbs.new + result * 2 ^ (32 * length limbs.old) ≡ value limbs.old + x * 2 ^ at }
{
    let mut other = [0u32; 3];
    let m = lay(&mut other[..], x, at % 32);
    let n = at / 32;
    add(&mut limbs[n..], &other[..m])
}

// Writes x * 2 ^ s + y * 2 ^ t into all limbs.
fn lay_sum(limbs: &mut [u32], x: u64, s: usize, y: u64, t: usize)
    requires { (s / 32 + 3 ≤ length limbs.old) × (t / 32 + 3 ≤ length limbs.old) }
    ensures { value limbs.new ≡ x * 2 ^ s + y * 2 ^ t }
{
    let n = lay(limbs, x, s);
    clear(&mut limbs[n..]);
    add_term(limbs, y, t);
}

// The larger of two.
pub fn larger(a: usize, b: usize) -> usize
    ensures { result ≡ max a b }
{
    a.max(b)
}

// Writes x * 2 ^ s + y * 2 ^ t; returns how many limbs are in use. It works on as many as the larger shift asks for, and those
// above them stay.
pub fn sum(limbs: &mut [u32], x: u64, s: usize, y: u64, t: usize) -> usize
    requires { max s t / 32 + 3 ≤ length limbs.old }
    ensures { (value (take result limbs.new) ≡ x * 2 ^ s + y * 2 ^ t) × (result ≤ max s t / 32 + 3) × InUse result limbs.new × (value (take (max s t / 32 + 3) limbs.new) ≡ x * 2 ^ s + y * 2 ^ t) × (drop (max s t / 32 + 3) limbs.new ≡ drop (max s t / 32 + 3) limbs.old) }
{
    let n = larger(s, t) / 32 + 3;
    lay_sum(&mut limbs[..n], x, s, y, t);
    in_use(&limbs[..n])
}
