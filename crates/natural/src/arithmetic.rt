// Arithmetic in place: a number of limbs times, plus, less or over a small or another one.
ghost use Rattle.std.specs.Prelude.{◌≡◌, ℕ, ◌+◌, ◌*◌, ◌^◌, ◌≤◌, ◌<◌, Bool, true, false, if◌then◌else◌, length};
ghost use Rattle.limbs.specs.Value.{value};

use limbs::limb::{Digit, add_step, divide_step, multiply_step, shift_step, subtract_step};

// Multiplies by m and adds `more`; returns what is carried out of the top limb (GMP's mpn_mul_1).
pub fn times_add(limbs: &mut [u32], m: u64, more: u64) -> u64
    ensures { value limbs.new + result * 2 ^ (32 * length limbs.old) ≡ value limbs.old * m + more }
{
    let mut carry = more;
    for x in limbs.iter_mut() {
        let s = multiply_step(*x, m, carry);
        *x = s.limb;
        carry = s.carry;
    }
    carry
}

// What is done to each limb from the lowest up: another one is added, or taken away. A difference is a sum read from the other side.
trait Column {
    ghost away: { Bool };

    fn step(x: u32, y: u32, carry: u32) -> Digit<u32>
        requires { carry ≤ 1 }
        ensures { (result.limb + (if away then y + carry else 4294967296 * result.carry) ≡ x + (if away then 4294967296 * result.carry else y + carry)) × (result.carry ≤ 1) };
}

struct Sum;

impl Column for Sum {
    ghost away = { false };

    fn step(x: u32, y: u32, carry: u32) -> Digit<u32>
        requires { carry ≤ 1 }
        ensures { (result.limb + 4294967296 * result.carry ≡ x + (y + carry)) × (result.carry ≤ 1) }
    {
        add_step(x, y, carry)
    }
}

struct Difference;

impl Column for Difference {
    ghost away = { true };

    fn step(x: u32, y: u32, carry: u32) -> Digit<u32>
        requires { carry ≤ 1 }
        ensures { (result.limb + (y + carry) ≡ x + 4294967296 * result.carry) × (result.carry ≤ 1) }
    {
        subtract_step(x, y, carry)
    }
}

// Works on the limbs that `other` has, and on those above them as long as anything is carried; returns what is carried out of the top
// limb.
fn columns<C: Column>(limbs: &mut [u32], other: &[u32]) -> u32
    requires { length other.now ≤ length limbs.old }
    ensures { (value limbs.new + (if C.away then value other.now else result * 2 ^ (32 * length limbs.old)) ≡ value limbs.old + (if C.away then result * 2 ^ (32 * length limbs.old) else value other.now)) × (result ≤ 1) }
{
    let mut carry = 0;
    for (i, y) in other.iter().enumerate() {
        let s = C::step(limbs[i], *y, carry);
        limbs[i] = s.limb;
        carry = s.carry;
    }
    for j in other.len()..limbs.len() {
        if carry == 0 {
            return 0;
        }
        let s = C::step(limbs[j], 0, carry);
        limbs[j] = s.limb;
        carry = s.carry;
    }
    carry
}

// Adds; returns what is carried out of the top limb (GMP's mpn_add).
pub fn add(limbs: &mut [u32], other: &[u32]) -> u32
    requires { length other.now ≤ length limbs.old }
    ensures { (value limbs.new + result * 2 ^ (32 * length limbs.old) ≡ value limbs.old + value other.now) × (result ≤ 1) }
{
    columns::<Sum>(limbs, other)
}

// Subtracts; returns what is borrowed above the top limb (GMP's mpn_sub).
pub fn subtract(limbs: &mut [u32], other: &[u32]) -> u32
    requires { length other.now ≤ length limbs.old }
    ensures { (value limbs.new + value other.now ≡ value limbs.old + result * 2 ^ (32 * length limbs.old)) × (result ≤ 1) }
{
    columns::<Difference>(limbs, other)
}

// What is divided by, limb by limb from the top one down.
trait Divisor {
    ghost by: { Self → ℕ };

    fn step(&self, r: u32, x: u32) -> Digit<u32>
        requires { r < by self.now }
        ensures { (r * 4294967296 + x ≡ result.limb * by self.now + result.carry) × (result.carry < by self.now) };
}

#[derive(Clone, Copy)]
struct Limb {
    d: u32,
}

impl Divisor for Limb {
    ghost by = { λ l. l.d };

    fn step(&self, r: u32, x: u32) -> Digit<u32>
        requires { r < self.now.d }
        ensures { (r * 4294967296 + x ≡ result.limb * self.now.d + result.carry) × (result.carry < self.now.d) }
    {
        divide_step(r, x, self.d)
    }
}

#[derive(Clone, Copy)]
struct Power {
    s: u32,
    ghost within: { s < 32 },
}

impl Divisor for Power {
    ghost by = { λ p. 2 ^ p.s };

    fn step(&self, r: u32, x: u32) -> Digit<u32>
        requires { r < 2 ^ self.now.s }
        ensures { (r * 4294967296 + x ≡ result.limb * 2 ^ self.now.s + result.carry) × (result.carry < 2 ^ self.now.s) }
    {
        shift_step(r, x, self.s)
    }
}

// Returns the remainder.
fn over<D: Divisor + Copy>(limbs: &mut [u32], d: D) -> u32
    requires { 0 < D.by d }
    ensures { (value limbs.old ≡ value limbs.new * D.by d + result) × (result < D.by d) }
{
    let mut r = 0;
    for i in (0..limbs.len()).rev() {
        let s = d.step(r, limbs[i]);
        limbs[i] = s.limb;
        r = s.carry;
    }
    r
}

// Divides by d; returns the remainder (GMP's mpn_divrem_1).
pub fn divide(limbs: &mut [u32], d: u32) -> u32
    requires { 0 < d }
    ensures { (value limbs.old ≡ value limbs.new * d + result) × (result < d) }
{
    over(limbs, Limb { d })
}

// Divides by 2 ^ s; returns the remainder (GMP's mpn_rshift).
pub fn shift_down(limbs: &mut [u32], s: u32) -> u32
    requires { s < 32 }
    ensures { (value limbs.old ≡ value limbs.new * 2 ^ s + result) × (result < 2 ^ s) }
{
    over(limbs, Power { s })
}
