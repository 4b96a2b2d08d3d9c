// Numbers as the command takes them: decimal digits, or hexadecimal ones behind 0x.
ghost use Rattle.std.specs.Prelude.{◌≡◌, ◌≤◌, min};
ghost use Rattle.cases.specs.Numbers.{digit_of, further, value_in, number_in};

// Hexadecimal digits are small letters: of `to_digit` capitals would be some too.
fn digit(b: u8) -> Option<u64>
    ensures { result ≡ digit_of b }
{
    match b {
        b'0'..=b'9' => Some(u64::from(b - b'0')),
        b'a'..=b'f' => Some(u64::from(b - b'a' + 10)),
        _ => None,
    }
}

// A value with a digit more; nothing where the byte is no digit of the base, or there is no room.
fn further(base: u64, x: u64, b: u8) -> Option<u64>
    requires { base ≤ 16 }
    ensures { result ≡ further base x b }
{
    let d = digit(b)?;
    if (base <= d) | (0xfff_ffff_ffff_ffff < x) {
        return None;
    }
    Some(base * x + d)
}

// Nothing where there is no digit.
fn value_of(digits: &[u8], base: u64) -> Option<u64>
    requires { base ≤ 16 }
    ensures { result ≡ value_in base digits.now }
{
    if digits.is_empty() {
        return None;
    }
    let mut x = 0;
    for b in digits {
        x = further(base, x, *b)?;
    }
    Some(x)
}

pub fn number(text: &[u8]) -> Option<u64>
    ensures { result ≡ number_in text.now }
{
    match text.strip_prefix(b"0x") {
        Some(digits) => value_of(digits, 16),
        None => value_of(text, 10),
    }
}

// The number, or so many where it is more.
pub fn at_most(x: u64, most: usize) -> usize
    ensures { result ≡ min x most }
{
    x.min(most as u64) as usize
}
