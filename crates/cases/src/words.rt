// The words and lines of a text, and what a table has by name.
ghost use Rattle.std.specs.Prelude.{◌≡◌, ◌≤◌, length, map};
ghost use Rattle.std.specs.Iterator.{YieldsFirstRef, item_count};
ghost use Rattle.cases.specs.Words.{index_of, parts_of, line_read, named_in};

// The place of the first such byte; the length where there is none.
pub fn first(text: &[u8], b: u8) -> usize
    ensures { (result ≡ index_of b text.now) × (result ≤ length text.now) }
{
    text.iter().position(|x| *x == b).unwrap_or(text.len())
}

// What is left of a text by its parts, each up to such a byte or the end.
#[derive(Drop)]
pub struct Parts<'a> {
    text: &'a [u8],
    end: u8,
}

// With a space behind each.
pub fn words(text: &[u8]) -> Parts<'_>
    ensures { (result.text.now ≡ text.now) × (result.end ≡ 32) }
{
    Parts { text, end: b' ' }
}

pub fn lines(text: &[u8]) -> Parts<'_>
    ensures { (result.text.now ≡ text.now) × (result.end ≡ 10) }
{
    Parts { text, end: b'\n' }
}

impl<'a> Iterator for Parts<'a> {
    type Item = &'a [u8];

    ghost next_gives = { YieldsFirstRef (λ s. parts_of s.end s.text.now) };

    ghost remaining = { item_count (λ s. parts_of s.end s.text.now) };

    fn next(&mut self) -> Option<&'a [u8]> {
        let text = self.text;
        if text.is_empty() {
            return None;
        }
        let n = first(text, self.end);
        self.text = &text[(n + 1).min(text.len())..];
        Some(&text[..n])
    }
}

// What stands beside a name in a table.
pub fn named<T: Copy>(table: &[(&[u8], T)], name: &[u8]) -> Option<T>
    ensures { result ≡ named_in name.now (map line_read table.now) }
{
    let line = table.iter().find(|line| line.0 == name)?;
    Some(line.1)
}
