// Prints the archive on standard input: a header and a line for each record, or `refused 21`. What is printed, the library decides; here bytes
// are handed over.
#![tactic(auto)]

ghost use Rattle.std.specs.Prelude.{◌≡◌, ◌≤◌, List, ℕ, length, IfOk, IfSome, OnOk};
ghost use Rattle.std.specs.Io.KnownBytes.{Appends};
ghost use Rattle.listing.specs.Listing.{listing_of, ReadOf};

use listing::{MOST_INPUT, MOST_OUTPUT, print_input};
use std::io;
use std::io::{Read, Write};

// Reads until the buffer is full or the input ends, and gives how many bytes it put at the buffer's start. The library's `read_to_end` wants a
// `Vec`, which is on the heap, and its `read_exact` fails where the input is shorter than the buffer.
fn read_full<R: Read>(from: &mut R, buffer: &mut [u8]) -> io::Result<usize>
    ensures inside { IfOk result (λ n. n ≤ length buffer.new) }
    ensures whole { IfOk result (λ n. IfSome (R.remaining from.old) (λ whole. ReadOf buffer.new n whole)) }
{
    let mut n = 0;
    while n < buffer.len() {
        let more = from.read(&mut buffer[n..])?;
        if more == 0 {
            break;
        }
        n += more;
    }
    Ok(n)
}

// Writes the listing of the input of which n bytes were read, and nothing else.
fn write_listing<W: Write>(to: &mut W, text: &[u8], input: &[u8], n: usize) -> io::Result<()>
    requires { (whole : List ℕ) → ReadOf input.now n whole → text.now ≡ listing_of whole }
    ensures { OnOk result (Appends (W.contents to.old) (W.contents to.new) text.now) }
{
    to.write_all(text)
}

// Of an input that is known as a whole its listing is printed.
fn print_archive<R: Read, W: Write>(from: &mut R, to: &mut W) -> io::Result<()>
    ensures { OnOk result (IfSome (R.remaining from.old) (λ whole. Appends (W.contents to.old) (W.contents to.new) (listing_of whole))) }
{
    let mut input = [0u8; MOST_INPUT + 1];
    let n = read_full(from, &mut input)?;
    let mut out = [0u8; MOST_OUTPUT];
    let length = print_input(&input, n, &mut out);
    write_listing(to, &out[..length], &input, n)
}

fn main(rt: HostRuntime) -> io::Result<()> {
    print_archive(&mut rt.stdin(), &mut rt.stdout())
}
