// Listings, and archives made for them: of records that no case has, and of many.
ghost use Rattle.std.specs.Prelude.{◌+◌, ◌≤◌, ◌<◌, ◌≡◌, length};
ghost use Rattle.records.specs.Layout.{used_length, record_size};
ghost use Rattle.records.specs.Buffer.{written};
ghost use Rattle.listing.specs.Listing.{listed_bytes};
ghost use Rattle.cases.specs.Calls.{recorded_length, recorded_bytes, grown, filled, filled_length, filled_bytes};

use crate::numbers::at_most;
use crate::output::Output;
use listing::MOST_OUTPUT;
use octets::Octets;
use records::{figures_at, put_line};

// Prints the listing by way of a buffer; all of the buffer, which is as it was, where that is too short.
fn list_by(output: &mut Output, archive: &[u8], out: &mut [u8])
    ensures { out.new ≡ listed_bytes archive.now out.old }
{
    let written = match listing::print(archive, out) {
        Ok(n) => n,
        Err(short) => {
            let needed = short.needed;
            output.print(format_args!(": needs {needed}"));
            out.len() as u64
        }
    };
    output.print("\n");
    let end = at_most(written, out.len());
    output.write(&out[..end]);
}

// With a buffer of some size.
pub fn list(output: &mut Output, archive: &[u8], used: u64, size: u64) {
    let mut out = [b'.'; MOST_OUTPUT];
    let end = at_most(used, archive.len());
    let n = at_most(size, MOST_OUTPUT);
    list_by(output, &archive[..end], &mut out[..n]);
}

// Puts a record behind the records, whatever its bytes are, and gives the used length after it.
pub fn record(archive: &mut [u8], used: u64, bytes: &[u8; 96]) -> u64
    ensures { (result ≡ recorded_length (length archive.old) used) × (archive.new ≡ recorded_bytes archive.old used bytes.now) }
{
    if 682 < used / 96 {
        return used;
    }
    let n = (used / 96) as usize;
    if archive.len() < 96 * n + 112 {
        return used;
    }
    let case = bytes[..64].as_array().unwrap();
    put_line(archive, n, case, figures_at(bytes));
    used + 96
}

// One of the records with dossier numbers and figures that grow.
fn fill_one(archive: &mut [u8], k: usize)
    requires { (used_length record_size (k + 1) ≤ length archive.old) × (k < 683) }
    ensures { archive.new ≡ written archive.old k (grown k) }
{
    let x = k as u64;
    let mut case = [0u8; 64];
    case[0] = 4;
    case[1] = 1;
    case[2] = 1;
    (7 * x + 1).put(&mut case, 8);
    put_line(archive, k, &case, [1000 * x, 1000 * x + 1, x, 0]);
}

fn fill_all(archive: &mut [u8], n: usize)
    requires { (used_length record_size n ≤ length archive.old) × (n ≤ 683) }
    ensures { archive.new ≡ filled n archive.old }
{
    for k in 0..n {
        fill_one(archive, k);
    }
}

// The used length of so many records; 0 where there is no room.
pub fn fill(archive: &mut [u8], x: u64) -> u64
    ensures { (result ≡ filled_length (length archive.old) x) × (archive.new ≡ filled_bytes x archive.old) }
{
    if 683 < x {
        return 0;
    }
    let n = x as usize;
    if archive.len() < 96 * n + 16 {
        return 0;
    }
    fill_all(archive, n);
    96 * x + 16
}
