// Searches over the records. Each record is touched once, with one load for each field that is compared; the worst so far once more.
ghost use Rattle.std.specs.Prelude.{◌≡◌, ◌+◌, ◌*◌, ◌≤◌, length};
ghost use Rattle.records.specs.Layout.{first_lines, line_of, record_at, figures_end, record_size};
ghost use Rattle.records.specs.Compartments.{compartment_number};
ghost use Rattle.records.specs.Lines.{same_filing, held, figure, worst_of};

use crate::RECORD_SIZE;
use crate::compartment::Compartment;
use octets::Octets;

// Whether a record is the same filing as a case. Dossiers differ sooner than heads, so they are compared first.
fn is_same_filing(filed: &[u8; RECORD_SIZE], case: &[u8; 64]) -> bool
    ensures { result ≡ same_filing (line_of filed.now).case case.now }
{
    u64::at(filed, 8) == u64::at(case, 8) && u32::at(filed, 0) == u32::at(case, 0)
}

// Whether one of n records is the same filing as the case.
pub fn is_held(archive: &[u8], n: usize, case: &[u8; 64]) -> bool
    requires { record_size * n ≤ length archive.now }
    ensures { result ≡ held (first_lines record_size n archive.now) case.now }
{
    let (records, _) = archive.as_chunks::<RECORD_SIZE>();
    records[..n]
        .iter()
        .any(|record| is_same_filing(record, case))
}

// A figure of record k.
fn figure_at(archive: &[u8], width: usize, k: usize, compartment: Compartment) -> u64
    requires { (width * k + width ≤ length archive.now) × (figures_end ≤ width) }
    ensures { result ≡ figure (compartment_number compartment) (line_of (record_at width archive.now k)) }
{
    u64::at(archive, width * k + (56 + 8 * compartment.number()))
}

// The number of the first of n records whose figure is the highest: from each record that is above all before it to the next.
pub fn worst_of(archive: &[u8], width: usize, n: usize, compartment: Compartment) -> usize
    requires { (width * n ≤ length archive.now) × (figures_end ≤ width) }
    ensures { result ≡ worst_of (compartment_number compartment) (first_lines width n archive.now) }
{
    if n == 0 {
        return 0;
    }
    let mut best = 0;
    loop {
        let top = figure_at(archive, width, best, compartment);
        let Some(k) = (best + 1..n).find(|&k| top < figure_at(archive, width, k, compartment))
        else {
            return best;
        };
        best = k;
    }
}
