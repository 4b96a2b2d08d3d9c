// Chains of factors in limbs: exact products of quantities, rounded up once at the end.
#![tactic(auto, unfolding(crate::specs::Ranges::Each))]

ghost use Rattle.std.specs.Prelude.{◌≡◌, [], ◌∷◌, ◌++◌, map, ◌+◌, ◌*◌, ◌^◌, ◌≤◌, ◌<◌, length};
ghost use Rattle.product.specs.Ratio.{◌over◌, ◌·◌, ◌⊕◌, one_less, exactly, Same, rounded_u64};
ghost use Rattle.product.specs.Chain.{quantity, less, chain};
ghost use Rattle.product.specs.Ranges.{UpTo, Each, largest};
ghost use Rattle.product.specs.Held.{held};

use binary64::pattern::{parts_of, pattern_of};
use chain::products::grow;
use chain::rounding::round_up;
use starts::larger;

// A quantity as significand / 2^depth.
#[derive(Clone, Copy)]
struct Dyadic {
    significand: u64,
    depth: usize,
}

fn dyadic_of(x: f64) -> Dyadic
    requires { UpTo largest x }
    ensures { Same (exactly x) (result.significand over 2 ^ result.depth) × (result.depth ≤ 1074) }
{
    let p = parts_of(pattern_of(x));
    Dyadic {
        significand: p.significand,
        depth: 1074 - p.shift,
    }
}

// The number in the first `count` limbs, over 2^depth: specs/Held has its value. The limbs above are of no account.
#[derive(Drop)]
struct Product<'a> {
    limbs: &'a mut [u32],
    count: usize,
    depth: usize,
}

impl<'a> Product<'a> {
    // k.
    fn of(limbs: &'a mut [u32], k: u64) -> Self
        requires { 2 ≤ length limbs.old }
        ensures { (held result ≡ k over 1) × (result.count ≤ 2) × (result.depth ≡ 0) × (length result.limbs.now ≡ length limbs.old) }
    {
        let count = grow(limbs, 0, 1, k);
        Product {
            limbs,
            count,
            depth: 0,
        }
    }

    // 1 - x.
    fn one_less(limbs: &'a mut [u32], x: f64) -> Self
        requires { (36 ≤ length limbs.old) × UpTo 1 x }
        ensures { Same (held result) (one_less (exactly x)) × (result.count ≤ 36) × (result.depth ≤ 1074) × (length result.limbs.now ≡ length limbs.old) }
    {
        let q = dyadic_of(x);
        let count = starts::complement(limbs, q.depth, q.significand);
        Product {
            limbs,
            count,
            depth: q.depth,
        }
    }

    // a + b.
    fn sum(limbs: &'a mut [u32], a: f64, b: f64) -> Self
        requires { (36 ≤ length limbs.old) × UpTo largest a × UpTo largest b }
        ensures { Same (held result) (exactly a ⊕ exactly b) × (result.count ≤ 36) × (result.depth ≤ 1074) × (length result.limbs.now ≡ length limbs.old) }
    {
        let p = dyadic_of(a);
        let q = dyadic_of(b);
        let depth = larger(p.depth, q.depth);
        let count = starts::sum(
            limbs,
            p.significand,
            depth - p.depth,
            q.significand,
            depth - q.depth,
        );
        Product {
            limbs,
            count,
            depth,
        }
    }

    // Times f; by 1 at no cost.
    fn times(&mut self, f: u64)
        requires { self.old.count + 2 ≤ length self.old.limbs.now }
        ensures { (held self.new ≡ held self.old · f over 1) × (self.new.count ≤ self.old.count + 2) × (self.new.depth ≡ self.old.depth) × (length self.new.limbs.now ≡ length self.old.limbs.now) }
    {
        if f != 1 {
            let n = self.count;
            self.count = grow(self.limbs, n, f, 0);
        }
    }

    // Times each of the quantities.
    fn by(&mut self, quantities: &[f64])
        requires { (self.old.count + 2 * length quantities.now ≤ length self.old.limbs.now) × (length quantities.now ≤ 5) × (self.old.depth ≤ 2148) × Each quantities.now }
        ensures { Same (held self.new) (held self.old · chain (map quantity quantities.now)) × (self.new.count ≤ self.old.count + 2 * length quantities.now) × (self.new.depth ≤ self.old.depth + 1074 * length quantities.now) × (length self.new.limbs.now ≡ length self.old.limbs.now) }
    {
        for x in quantities {
            let q = dyadic_of(*x);
            self.times(q.significand);
            self.depth += q.depth;
        }
    }

    // Times each of the quantities, divided by d and rounded up. The limbs keep it rounded down.
    fn finish(&mut self, quantities: &[f64], d: u32) -> u64
        requires { (self.old.count + 2 * length quantities.now ≤ length self.old.limbs.now) × (length quantities.now ≤ 5) × (self.old.depth ≤ 2148) × Each quantities.now × (0 < d) }
        ensures { result ≡ rounded_u64 (held self.old · chain (map quantity quantities.now) · 1 over d) }
    {
        self.by(quantities);
        let n = self.count;
        let depth = self.depth;
        round_up(&mut self.limbs[..n], depth, d)
    }

    // Times x, divided by d and rounded up. The product stays as it is.
    fn branch_up(&self, x: f64, d: u32) -> u64
        requires { (length self.now.limbs.now ≡ 8) × (self.now.count ≤ 6) × (self.now.depth ≤ 2148) × (0 < d) × UpTo largest x }
        ensures { result ≡ rounded_u64 (held self.now · chain (quantity x ∷ []) · 1 over d) }
    {
        let mut limbs = [0u32; 8];
        limbs.copy_from_slice(&self.limbs[..]);
        let mut p = Product {
            limbs: &mut limbs,
            count: self.count,
            depth: self.depth,
        };
        p.finish(&[x], d)
    }
}

// k / d times the quantities, rounded up.
pub fn product_up(quantities: &[f64], k: u64, d: u32) -> u64
    requires { (length quantities.now ≤ 5) × (0 < d) × Each quantities.now }
    ensures { result ≡ rounded_u64 ((k over d) · chain (map quantity quantities.now)) }
{
    let mut limbs = [0u32; 12];
    Product::of(&mut limbs, k).finish(quantities, d)
}

// k / d times 1 - x times the quantities, rounded up.
pub fn remainder_up(x: f64, quantities: &[f64], k: u64, d: u32) -> u64
    requires { (length quantities.now ≤ 4) × (0 < d) × UpTo 1 x × Each quantities.now }
    ensures { result ≡ rounded_u64 ((k over d) · chain (less x ∷ map quantity quantities.now)) }
{
    let mut limbs = [0u32; 46];
    let mut p = Product::one_less(&mut limbs, x);
    p.times(k);
    p.finish(quantities, d)
}

// k / d times a + b times the quantities, rounded up.
pub fn sum_up(a: f64, b: f64, quantities: &[f64], k: u64, d: u32) -> u64
    requires { (length quantities.now ≤ 2) × (0 < d) × UpTo largest a × UpTo largest b × Each quantities.now }
    ensures { result ≡ rounded_u64 ((k over d) · ((exactly a ⊕ exactly b) · chain (map quantity quantities.now))) }
{
    let mut limbs = [0u32; 42];
    let mut p = Product::sum(&mut limbs, a, b);
    p.times(k);
    p.finish(quantities, d)
}

// k / d times the quantities times x, times y and times z, each rounded up. The quantities are multiplied once.
pub fn three_up(quantities: &[f64], x: f64, y: f64, z: f64, k: u64, d: u32) -> [u64; 3]
    requires { (length quantities.now ≤ 2) × (0 < d) × Each quantities.now × Each (x ∷ y ∷ z ∷ []) }
    ensures { result ≡ map (λ t. rounded_u64 ((k over d) · chain (map quantity quantities.now ++ quantity t ∷ []))) (x ∷ y ∷ z ∷ []) }
{
    let mut limbs = [0u32; 8];
    let mut p = Product::of(&mut limbs, k);
    p.by(quantities);
    [p.branch_up(x, d), p.branch_up(y, d), p.branch_up(z, d)]
}
