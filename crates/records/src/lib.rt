// Records and the trailer of an archive: read, and written straight to their places; `search` looks through them.
#![tactic(auto)]

ghost use Rattle.std.specs.Prelude.{◌≡◌, ◌+◌, ◌*◌, ◌≤◌, ◌<◌, length};
ghost use Rattle.octets.specs.Bytes.{splice};
ghost use Rattle.records.specs.Layout.{figure_bytes, trailer, line_of, used_length, most_records, figures_end, record_size, edition};
ghost use Rattle.records.specs.Buffer.{count_at, broken, records_in, written};

use octets::{Octets, put_bytes};
use std::array;

pub mod compartment;
pub mod search;

pub const RECORD_SIZE: usize = 96;

pub const TRAILER_SIZE: usize = 16;

pub const MOST_RECORDS: usize = 1000000;

pub const EDITION: u32 = 1;

// The number of records, as the trailer that ends at the used length has it.
pub fn count_at(archive: &[u8], used: u64) -> usize
    requires { (16 ≤ used) × (used ≤ length archive.now) }
    ensures { result ≡ count_at archive.now used }
{
    u32::at(archive, used as usize - 8) as usize
}

// Whether refusal 21 holds.
pub fn is_broken(archive: &[u8], used: u64) -> bool
    ensures { result ≡ broken archive.now used }
{
    if (archive.len() as u64) < used {
        return true;
    }
    if used < TRAILER_SIZE as u64 {
        return true;
    }
    let n = count_at(archive, used);
    if MOST_RECORDS < n {
        return true;
    }
    let end = used as usize;
    let records = RECORD_SIZE * n;
    // No branch between them: with one, an export of a figure and three zeros takes a quarter longer.
    (end != records + TRAILER_SIZE)
        | ((u64::at(archive, end - 16) != records as u64) | (u32::at(archive, end - 4) != EDITION))
}

// The number of records, where refusal 21 does not hold.
pub fn records_in(archive: &[u8], used: u64) -> Option<usize>
    ensures { result ≡ records_in archive.now used }
{
    if is_broken(archive, used) {
        None
    } else {
        Some(count_at(archive, used))
    }
}

// Writes four figures from `at` on.
pub fn put_figures(b: &mut [u8], at: usize, figures: [u64; 4])
    requires { at + 32 ≤ length b.old }
    ensures { b.new ≡ splice b.old at (figure_bytes figures) }
{
    for (k, figure) in figures.iter().enumerate() {
        figure.put(b, at + 8 * k);
    }
}

// Writes the trailer of n records from `at` on.
pub fn put_trailer(b: &mut [u8], at: usize, n: usize)
    requires { (at + 16 ≤ length b.old) × (n ≤ most_records) }
    ensures { b.new ≡ splice b.old at (trailer record_size edition n) }
{
    ((RECORD_SIZE * n) as u64).put(b, at);
    (n as u32).put(b, at + 8);
    EDITION.put(b, at + 12);
}

// Writes a record behind the n records that are there, and the trailer behind it. Put in place where it is called: a case that the caller made
// is then known to lie apart from the archive, and is not copied byte by byte.
#[inline(always)]
pub fn put_line(b: &mut [u8], n: usize, case: &[u8; 64], figures: [u64; 4])
    requires { (used_length record_size (n + 1) ≤ length b.old) × (n < most_records) }
    ensures { b.new ≡ written b.old n (record { case = case.entry.now; figures = figures }) }
{
    let at = RECORD_SIZE * n;
    put_bytes(b, at, case);
    put_figures(b, at + 64, figures);
    put_trailer(b, at + RECORD_SIZE, n + 1);
}

// The figures of a record.
pub fn figures_at(bytes: &[u8]) -> [u64; 4]
    requires { figures_end ≤ length bytes.now }
    ensures { result ≡ (line_of bytes.now).figures }
{
    array::from_fn(|k| u64::at(bytes, 64 + 8 * k))
}
