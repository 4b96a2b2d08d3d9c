// Little-endian numbers in a slice of bytes: read, and written in their place; the compiler makes one load or one store of
// each. Bytes as they are, copied to their place.
#![tactic(auto, using(crate::proofs::LowFirst::widths))]

ghost use Rattle.std.specs.Prelude.{◌≡◌, ◌+◌, ◌≤◌, ℕ, length};
ghost use Rattle.octets.specs.Bytes.{bytes_of, number_of, number_at, splice};

mod widths;

// A number of W bytes.
pub trait Octets<const W: usize>: Copy {
    // The number that a value stands for.
    ghost number: { Self → ℕ };

    fn from_octets(octets: &[u8; W]) -> Self
        ensures { number result ≡ number_of octets.now };

    fn to_octets(self) -> [u8; W]
        ensures { result ≡ bytes_of W (number self) };

    // Reads the number in the W bytes from `at` on.
    final fn at(b: &[u8], at: usize) -> Self
        requires { at + W ≤ length b.now }
        ensures { number result ≡ number_at b.now at W }
    {
        Self::from_octets(b[at..at + W].as_array().unwrap())
    }

    // Writes the number to the W bytes from `at` on.
    final fn put(self, b: &mut [u8], at: usize)
        requires { at + W ≤ length b.old }
        ensures { b.new ≡ splice b.old at (bytes_of W (number self)) }
    {
        b[at..at + W].copy_from_slice(&self.to_octets());
    }
}

impl Octets<1> for u8 {
    ghost number = { λ x. x };

    fn from_octets(octets: &[u8; 1]) -> u8
        ensures { result ≡ number_of octets.now }
    {
        u8::from_le_bytes(*octets)
    }

    fn to_octets(self) -> [u8; 1]
        ensures { result ≡ bytes_of 1 self }
    {
        u8::to_le_bytes(self)
    }
}

impl Octets<2> for u16 {
    ghost number = { λ x. x };

    fn from_octets(octets: &[u8; 2]) -> u16
        ensures { result ≡ number_of octets.now }
    {
        u16::from_le_bytes(*octets)
    }

    fn to_octets(self) -> [u8; 2]
        ensures { result ≡ bytes_of 2 self }
    {
        u16::to_le_bytes(self)
    }
}

impl Octets<4> for u32 {
    ghost number = { λ x. x };

    fn from_octets(octets: &[u8; 4]) -> u32
        ensures { result ≡ number_of octets.now }
    {
        u32::from_le_bytes(*octets)
    }

    fn to_octets(self) -> [u8; 4]
        ensures { result ≡ bytes_of 4 self }
    {
        u32::to_le_bytes(self)
    }
}

impl Octets<8> for u64 {
    ghost number = { λ x. x };

    fn from_octets(octets: &[u8; 8]) -> u64
        ensures { result ≡ number_of octets.now }
    {
        u64::from_le_bytes(*octets)
    }

    fn to_octets(self) -> [u8; 8]
        ensures { result ≡ bytes_of 8 self }
    {
        u64::to_le_bytes(self)
    }
}

// Writes the bytes of s from `at` on.
pub fn put_bytes(b: &mut [u8], at: usize, s: &[u8])
    requires { at + length s.now ≤ length b.old }
    ensures { b.new ≡ splice b.old at s.now }
{
    b[at..at + s.len()].copy_from_slice(s);
}
