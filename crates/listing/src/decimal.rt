// Numbers as decimal text.
ghost use Rattle.std.specs.Prelude.{◌≡◌, ◌+◌, ◌≤◌, length};
ghost use Rattle.octets.specs.Bytes.{splice};
ghost use Rattle.listing.specs.Decimal.{decimal};

// No number has more digits.
const MOST_DIGITS: usize = 20;

pub fn decimal_length(x: u64) -> usize
    ensures { result ≡ length (decimal x) }
{
    let mut rest = x;
    for n in 1..MOST_DIGITS {
        rest /= 10;
        if rest == 0 {
            return n;
        }
    }
    MOST_DIGITS
}

// Writes x from `at` on, the last digit first, and gives the place behind it.
pub fn put_decimal(out: &mut [u8], at: usize, x: u64) -> usize
    requires { at + length (decimal x) ≤ length out.old }
    ensures { (result ≡ at + length (decimal x)) × (out.new ≡ splice out.old at (decimal x)) }
{
    // Most columns have one digit: by the loop a listing of them takes a seventh more.
    if x < 10 {
        out[at] = b'0' + x as u8;
        return at + 1;
    }
    let end = at + decimal_length(x);
    let mut rest = x;
    for place in (at + 1..end).rev() {
        out[place] = b'0' + (rest % 10) as u8;
        rest /= 10;
    }
    out[at] = b'0' + rest as u8;
    end
}
