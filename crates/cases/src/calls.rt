// The calls, a line printed for each.
ghost use Rattle.std.specs.Prelude.{◌≡◌};
ghost use Rattle.archive.specs.Offers.{offer};
ghost use Rattle.archive.specs.Answers.{of_emptied, of_filing, used_in};
ghost use Rattle.archive.specs.Archive.{emptying, empty_bytes, filing, file_bytes};
ghost use Rattle.export.specs.Export.{loads_in};
ghost use Rattle.cases.specs.Calls.{call_named, torn, used_after, bytes_after};

use crate::fields::Fields;
use crate::lists;
use crate::output::Output;
use crate::words::named;
use kinds::refusal::Refusal;

#[derive(Clone, Copy, PartialEq, Eq)]
pub enum Call {
    Empty,
    Used,
    Fill,
    File,
    Record,
    Tear,
    Show,
    Worst,
    Listing,
    WorkOut,
    Load,
    Export,
}

const CALLED: [(&[u8], Call); 12] = [
    (b"empty", Call::Empty),
    (b"used", Call::Used),
    (b"fill", Call::Fill),
    (b"file", Call::File),
    (b"record", Call::Record),
    (b"tear", Call::Tear),
    (b"show", Call::Show),
    (b"worst", Call::Worst),
    (b"list", Call::Listing),
    (b"work-out", Call::WorkOut),
    (b"load", Call::Load),
    (b"export", Call::Export),
];

pub fn call_named(name: &[u8]) -> Option<Call>
    ensures { result ≡ call_named name.now }
{
    named(&CALLED, name)
}

// The used length after a call.
pub fn used_after(
    output: &mut Output,
    call: Call,
    fields: &Fields,
    archive: &mut [u8],
    used: u64,
) -> u64
    ensures { (result ≡ used_after call fields.now archive.old used) × (archive.new ≡ bytes_after call fields.now archive.old used) }
{
    let x = fields.number;
    match call {
        Call::Empty => return empty(output, archive),
        Call::Used => return x,
        Call::Fill => return lists::fill(archive, x),
        Call::File => return file(output, archive, used, fields.case()),
        Call::Record => return lists::record(archive, used, &fields.bytes),
        Call::Tear => tear(archive, x),
        Call::Show => show(output, archive, used, x),
        Call::Worst => worst(output, archive, used, x),
        Call::Listing => lists::list(output, archive, used, x),
        Call::WorkOut => work_out(output, fields.case()),
        Call::Load => load(output, x),
        Call::Export => export(output, archive, used, x),
    }
    used
}

fn print_refusal(output: &mut Output, refusal: Refusal) {
    let number = refusal.number();
    output.print(format_args!(": refused {number}"));
}

fn print_figures(output: &mut Output, figures: [u64; 4]) {
    let [a, b, c, d] = figures;
    output.print(format_args!("{a} {b} {c} {d}"));
}

fn work_out(output: &mut Output, case: &[u8]) {
    match emission::work_out(case) {
        Ok(figures) => {
            output.print(": ");
            print_figures(output, figures);
        }
        Err(refusal) => print_refusal(output, refusal),
    }
}

// The used length afterwards.
fn empty(output: &mut Output, archive: &mut [u8]) -> u64
    ensures { (result ≡ used_in (of_emptied (emptying archive.old)).places 0) × (archive.new ≡ empty_bytes archive.old) }
{
    match archive::empty(archive) {
        Ok(length) => {
            output.print(format_args!(": used {length}"));
            length
        }
        Err(refusal) => {
            print_refusal(output, refusal);
            0
        }
    }
}

// The used length afterwards.
fn file(output: &mut Output, archive: &mut [u8], used: u64, case: &[u8]) -> u64
    ensures { (result ≡ used_in (of_filing (filing archive.old used (offer case.now)) used).places used) × (archive.new ≡ file_bytes archive.old used (offer case.now)) }
{
    match archive::file(archive, used, case) {
        Ok(filed) => {
            let number = filed.number;
            let length = filed.used;
            output.print(format_args!(": number {number}, used {length}"));
            length
        }
        Err(refusal) => {
            print_refusal(output, refusal);
            used
        }
    }
}

// The figures of the record that is shown.
fn show(output: &mut Output, archive: &[u8], used: u64, number: u64) {
    let part = archive::show(archive, used, number);
    let n = part.len();
    if let Err(refusal) = archive::show_refusal(archive, used, number) {
        print_refusal(output, refusal);
        output.print(format_args!(", bytes {n}"));
        return;
    }
    output.print(format_args!(": bytes {n}"));
    match archive::figures_of(part) {
        Some(figures) => {
            output.print(", figures ");
            print_figures(output, figures);
        }
        None => output.print(", no record"),
    }
}

fn worst(output: &mut Output, archive: &[u8], used: u64, compartment: u64) {
    match archive::worst(archive, used, compartment) {
        Ok(k) => output.print(format_args!(": number {k}")),
        Err(refusal) => print_refusal(output, refusal),
    }
}

// Bytes as they are, by eights.
fn print_bytes(output: &mut Output, bytes: &[u8]) {
    for eight in bytes.chunks(8) {
        output.print(" ");
        for &b in eight {
            output.print(format_args!("{b:02x}"));
        }
    }
}

fn load(output: &mut Output, figure: u64) {
    output.print(":");
    print_bytes(output, &load::load(figure));
}

// The four loads, zeros beside a refusal.
fn loads_told(exported: Result<[u8; 32], Refusal>) -> [u8; 32]
    ensures { result ≡ loads_in exported }
{
    exported.unwrap_or([0; 32])
}

fn export(output: &mut Output, archive: &[u8], used: u64, number: u64) {
    let exported = export::export(archive, used, number);
    if let Err(refusal) = exported {
        print_refusal(output, refusal);
    }
    output.print(": loads");
    print_bytes(output, &loads_told(exported));
}

// Another byte at a place.
fn tear(archive: &mut [u8], at: u64)
    ensures { archive.new ≡ torn at archive.old }
{
    if at < archive.len() as u64 {
        archive[at as usize] = b'a';
    }
}
