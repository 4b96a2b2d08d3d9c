// What `Octets` says at each width, in plain numbers: reading, and writing in four buffers. No other function calls these.
ghost use Rattle.std.specs.Prelude.{◌≡◌, ◌+◌, ◌≤◌, length};
ghost use Rattle.octets.specs.Bytes.{bytes_of, number_at, splice};

use crate::Octets;

fn read_each(b: &[u8], i: usize, j: usize, k: usize, l: usize) -> (u8, u16, u32, u64)
    requires { (i + 1 ≤ length b.now) × (j + 2 ≤ length b.now) × (k + 4 ≤ length b.now) × (l + 8 ≤ length b.now) }
    ensures { (result.0 ≡ number_at b.now i 1) × (result.1 ≡ number_at b.now j 2) × (result.2 ≡ number_at b.now k 4) × (result.3 ≡ number_at b.now l 8) }
{
    (u8::at(b, i), u16::at(b, j), u32::at(b, k), u64::at(b, l))
}

fn put_each(
    a: &mut [u8],
    i: usize,
    x: u8,
    b: &mut [u8],
    j: usize,
    y: u16,
    c: &mut [u8],
    k: usize,
    z: u32,
    d: &mut [u8],
    l: usize,
    w: u64,
)
    requires { (i + 1 ≤ length a.old) × (j + 2 ≤ length b.old) × (k + 4 ≤ length c.old) × (l + 8 ≤ length d.old) }
    ensures { (a.new ≡ splice a.old i (bytes_of 1 x)) × (b.new ≡ splice b.old j (bytes_of 2 y)) × (c.new ≡ splice c.old k (bytes_of 4 z)) × (d.new ≡ splice d.old l (bytes_of 8 w)) }
{
    x.put(a, i);
    y.put(b, j);
    z.put(c, k);
    w.put(d, l);
}
