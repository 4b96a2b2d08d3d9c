// The printed archive: a header, then a line for each record, into a lent buffer. Total: input that refusal 21 meets, or that is too long,
// is printed as `refused 21`.
#![tactic(auto)]

ghost use Rattle.std.specs.Prelude.{◌≡◌, List, ℕ, ◌≤◌, ◌<◌, length};
ghost use Rattle.octets.specs.Bytes.{splice};
ghost use Rattle.listing.specs.Listing.{most_input, most_output, refused, listing_of, listed, of_listed, lengths, listed_bytes, ReadOf};

use records::{RECORD_SIZE, is_broken};
use sink::{Buffer, Count, Sink};

mod decimal;
mod lines;
mod sink;

// The most bytes that are taken.
pub const MOST_INPUT: usize = 65536;

// No listing has more bytes.
pub const MOST_OUTPUT: usize = 74384;

// A buffer that does not hold the listing, which has so many bytes.
#[derive(Clone, Copy, Debug, PartialEq, Eq)]
pub struct TooShort {
    pub needed: u64,
}

fn is_refused(archive: &[u8]) -> bool
    ensures { result ≡ refused archive.now }
{
    (MOST_INPUT < archive.len()) | is_broken(archive, archive.len() as u64)
}

// Puts the listing of an archive. What is left behind the records is the trailer, which is shorter than one.
fn put_listing<S: Sink>(to: &mut S, archive: &[u8])
    requires { S.takes to.old (length (listing_of archive.now)) }
    ensures { to.new ≡ S.after to.old (listing_of archive.now) }
{
    if is_refused(archive) {
        to.put(b"refused 21\n");
        return;
    }
    to.put(b"n dossier kind row route stp surface air soil\n");
    let (records, _) = archive.as_chunks::<RECORD_SIZE>();
    lines::put_lines(to, records);
}

fn listing_length(archive: &[u8]) -> usize
    ensures { result ≡ length (listing_of archive.now) }
{
    let mut count = Count { bytes: 0 };
    put_listing(&mut count, archive);
    count.bytes
}

// Writes the listing at the start of a buffer that holds it, and gives its length.
fn write_at_start(out: &mut [u8], archive: &[u8]) -> usize
    requires { length (listing_of archive.now) ≤ length out.old }
    ensures { (result ≡ length (listing_of archive.now)) × (out.new ≡ splice out.old 0 (listing_of archive.now)) }
{
    let mut buffer = Buffer { out, at: 0 };
    put_listing(&mut buffer, archive);
    buffer.at
}

// Prints an archive, all of whose bytes are its used length, and gives the listing's length. An output buffer that is too short is left as it was.
pub fn print(archive: &[u8], out: &mut [u8]) -> Result<u64, TooShort>
    ensures { (result ≡ listed archive.now (length out.old)) × (out.new ≡ listed_bytes archive.now out.old) × (of_listed result ≡ lengths archive.now (length out.old)) }
{
    let needed = listing_length(archive);
    if out.len() < needed {
        return Err(TooShort {
            needed: needed as u64,
        });
    }
    write_at_start(out, archive);
    Ok(needed as u64)
}

// Prints a program's input, of which a read left n bytes at the start of a buffer: whatever the whole input is, its listing stands at the start
// of the output buffer, and its length is the answer. The input buffer has room for one byte more than an archive may have, so that longer
// input is seen to be longer, and the output buffer for every listing.
pub fn print_input(input: &[u8], n: usize, out: &mut [u8]) -> usize
    requires { (most_input < length input.now) × (n ≤ length input.now) × (most_output ≤ length out.old) }
    ensures { (whole : List ℕ) → ReadOf input.now n whole → (result ≡ length (listing_of whole)) × (out.new ≡ splice out.old 0 (listing_of whole)) }
{
    write_at_start(out, &input[..n])
}
