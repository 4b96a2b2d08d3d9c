// The lines of a listing, put behind one another.
ghost use Rattle.std.specs.Prelude.{◌≡◌, ◌≤◌, length, map};
ghost use Rattle.records.specs.Layout.{line_of, figures_end};
ghost use Rattle.listing.specs.Listing.{columns_of, columns_text, line_text, lines_text};
ghost use Rattle.listing.specs.Listing.{milligrams as Listing·milligrams};

use crate::sink::Sink;
use octets::Octets;
use records::figures_at;

fn milligrams(figure: u64) -> u64
    ensures { result ≡ Listing·milligrams figure }
{
    figure.div_ceil(1000)
}

// The columns of a record behind its number.
fn columns_of(bytes: &[u8]) -> [u64; 8]
    requires { figures_end ≤ length bytes.now }
    ensures { result ≡ columns_of (line_of bytes.now) }
{
    let figures = figures_at(bytes);
    [
        u64::at(bytes, 8),
        u64::from(u8::at(bytes, 0)),
        u64::from(u8::at(bytes, 1)),
        u64::from(u8::at(bytes, 2)),
        milligrams(figures[0]),
        milligrams(figures[1]),
        milligrams(figures[2]),
        milligrams(figures[3]),
    ]
}

// Puts columns, each behind a space, then a line feed.
fn put_columns<S: Sink>(to: &mut S, columns: &[u64])
    requires { S.takes to.old (length (columns_text columns.now)) }
    ensures { to.new ≡ S.after to.old (columns_text columns.now) }
{
    for column in columns {
        to.put(b" ");
        to.put_decimal(*column);
    }
    to.put(b"\n");
}

// Puts the line of a record.
fn put_line<S: Sink>(to: &mut S, number: usize, bytes: &[u8])
    requires whole { figures_end ≤ length bytes.now }
    requires room { S.takes to.old (length (line_text number (line_of bytes.now))) }
    ensures { to.new ≡ S.after to.old (line_text number (line_of bytes.now)) }
{
    to.put_decimal(number as u64);
    put_columns(to, &columns_of(bytes));
}

// Puts the lines of records, each as long as the width.
pub fn put_lines<S: Sink, const WIDTH: usize>(to: &mut S, records: &[[u8; WIDTH]])
    requires whole { figures_end ≤ WIDTH }
    requires room { S.takes to.old (length (lines_text 0 (map line_of records.now))) }
    ensures { to.new ≡ S.after to.old (lines_text 0 (map line_of records.now)) }
{
    for (k, record) in records.iter().enumerate() {
        put_line(to, k, record);
    }
}
