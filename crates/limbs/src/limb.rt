// Single limbs: a limb widened, the two limbs of a u64, and the steps from limb to limb that arithmetic repeats.
ghost use Rattle.std.specs.Prelude.{◌≡◌, ◌+◌, ◌*◌, ◌/◌, ◌%◌, ◌^◌, ◌≤◌, ◌<◌};

// A limb of a result, and what is carried to the next limb worked on: a carry, a borrow or a remainder, of one limb or of two.
#[derive(Clone, Copy)]
pub struct Digit<C> {
    pub limb: u32,
    pub carry: C,
}

pub fn wide(x: u32) -> u64
    ensures { (result ≡ x) × (result < 4294967296) }
{
    u64::from(x)
}

pub fn low(t: u64) -> u32
    ensures { result ≡ t % 4294967296 }
{
    (t % 4294967296) as u32
}

pub fn high(t: u64) -> u32
    ensures { result ≡ t / 4294967296 }
{
    (t / 4294967296) as u32
}

pub fn power(s: u32) -> u32
    requires { s < 32 }
    ensures { result ≡ 2 ^ s }
{
    1u32 << s
}

pub fn multiply_step(x: u32, m: u64, carry: u64) -> Digit<u64>
    ensures { result.limb + 4294967296 * result.carry ≡ x * m + carry }
{
    let w = wide(x);
    let upper = w * (m / 4294967296);
    let sum = w * (m % 4294967296) + carry % 4294967296;
    Digit {
        limb: low(sum),
        carry: upper + carry / 4294967296 + sum / 4294967296,
    }
}

pub fn add_step(x: u32, y: u32, carry: u32) -> Digit<u32>
    requires { carry ≤ 1 }
    ensures { (result.limb + 4294967296 * result.carry ≡ x + y + carry) × (result.carry ≤ 1) }
{
    let t = wide(x) + wide(y) + wide(carry);
    Digit {
        limb: low(t),
        carry: high(t),
    }
}

pub fn subtract_step(x: u32, y: u32, borrow: u32) -> Digit<u32>
    requires { borrow ≤ 1 }
    ensures { (result.limb + y + borrow ≡ x + 4294967296 * result.carry) × (result.carry ≤ 1) }
{
    let t = 4294967296 + wide(x) - wide(y) - wide(borrow);
    Digit {
        limb: low(t),
        carry: 1 - high(t),
    }
}

pub fn divide_step(r: u32, x: u32, d: u32) -> Digit<u32>
    requires { r < d }
    ensures { (r * 4294967296 + x ≡ result.limb * d + result.carry) × (result.carry < d) }
{
    let t = wide(r) * 4294967296 + wide(x);
    let w = wide(d);
    Digit {
        limb: (t / w) as u32,
        carry: (t % w) as u32,
    }
}

pub fn shift_step(r: u32, x: u32, s: u32) -> Digit<u32>
    requires { (s < 32) × (r < 2 ^ s) }
    ensures { (r * 4294967296 + x ≡ result.limb * 2 ^ s + result.carry) × (result.carry < 2 ^ s) }
{
    let t = wide(r) * 4294967296 + wide(x);
    let p = wide(power(s));
    Digit {
        limb: (t >> s) as u32,
        carry: (t & (p - 1)) as u32,
    }
}
