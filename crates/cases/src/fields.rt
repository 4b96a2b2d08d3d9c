// The fields of a call from the words behind its name, as the command takes them.
ghost use Rattle.std.specs.Prelude.{◌+◌, ◌/◌, ◌^◌, ◌≤◌, ◌≡◌, length};
ghost use Rattle.std.specs.Option.{option_map};
ghost use Rattle.octets.specs.Bytes.{bytes_of, splice};
ghost use Rattle.cases.specs.Words.{words_of};
ghost use Rattle.cases.specs.Fields.{blank, case_in, holds, with_number, with_field, with_fields};

use crate::numbers::number;
use crate::words::{first, named, words};
use octets::{Octets, put_bytes};

// The number of a call that has one; a record; and how many bytes of the record are the case.
#[derive(Clone, Copy)]
pub struct Fields {
    pub number: u64,
    pub bytes: [u8; 96],
    pub length: u8,
}

#[derive(Clone, Copy)]
enum Field {
    Number,
    // Of the record: where it stands, and its width.
    Part(usize, usize),
    Length,
}

// The number has no name.
const PLACES: [(&[u8], Field); 18] = [
    (b"", Field::Number),
    (b"kind", Field::Part(0, 1)),
    (b"row", Field::Part(1, 1)),
    (b"route", Field::Part(2, 1)),
    (b"user", Field::Part(3, 1)),
    (b"T", Field::Part(4, 4)),
    (b"dossier", Field::Part(8, 8)),
    (b"a", Field::Part(16, 8)),
    (b"b", Field::Part(24, 8)),
    (b"c", Field::Part(32, 8)),
    (b"d", Field::Part(40, 8)),
    (b"e", Field::Part(48, 8)),
    (b"f", Field::Part(56, 8)),
    (b"stp", Field::Part(64, 8)),
    (b"surface", Field::Part(72, 8)),
    (b"air", Field::Part(80, 8)),
    (b"soil", Field::Part(88, 8)),
    (b"length", Field::Length),
];

// Writes the last bytes of x, the lowest first, and gives what is left of it.
fn put(bytes: &mut [u8], at: usize, width: usize, x: u64) -> u64
    requires { (at + width ≤ length bytes.old) × (width ≤ 8) }
    ensures { (result ≡ x / 256 ^ width) × (bytes.new ≡ splice bytes.old at (bytes_of width x)) }
{
    put_bytes(bytes, at, &x.to_octets()[..width]);
    x.checked_shr(8 * width as u32).unwrap_or(0)
}

impl Fields {
    fn blank() -> Fields
        ensures { result ≡ blank }
    {
        let mut bytes = [0; 96];
        bytes[2] = 1;
        Fields {
            number: 0,
            bytes,
            length: 64,
        }
    }

    pub fn case(&self) -> &[u8]
        ensures { result.now ≡ case_in self.now }
    {
        &self.bytes[..usize::from(self.length).min(96)]
    }

    // Nothing where the number does not fit the field; the fields are then of no account.
    fn set_number(&mut self, field: Field, x: u64) -> Option<()>
        requires { holds field }
        ensures { option_map (λ _. self.new) result ≡ with_number field x self.old }
    {
        match field {
            Field::Number => self.number = x,
            Field::Part(at, width) => {
                if put(&mut self.bytes, at, width, x) != 0 {
                    return None;
                }
            }
            Field::Length => self.length = u8::try_from(x).ok()?,
        }
        Some(())
    }

    // Nothing where a word is neither a field and a number that fits it, nor a number alone; the fields are then of no account.
    fn set_field(&mut self, word: &[u8]) -> Option<()>
        ensures { option_map (λ _. self.new) result ≡ with_field word.now self.old }
    {
        let sign = first(word, b'=');
        if sign == word.len() {
            return self.set_number(Field::Number, number(word)?);
        }
        let field = named(&PLACES, &word[..sign])?;
        self.set_number(field, number(&word[sign + 1..])?)
    }
}

// The fields that a text names; nothing where one of its words is no such field.
pub fn fields_of(text: &[u8]) -> Option<Fields>
    ensures { result ≡ with_fields (words_of text.now) blank }
{
    let mut fields = Fields::blank();
    for word in words(text) {
        fields.set_field(word)?;
    }
    Some(fields)
}
