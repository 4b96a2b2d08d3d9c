// The C interface. Each call is total, returns the refusal's number or 0, and leaves every output with a stated value.
// A slice is passed as a pointer and a length, in that order; include/csorvelin.h declares these functions for C.
#![tactic(auto)]

ghost use Rattle.std.specs.Prelude.{◌≡◌};
ghost use Rattle.octets.specs.Bytes.{number_of};
ghost use Rattle.kinds.specs.Number.{refused};
ghost use Rattle.kinds.specs.Case.{refusal_of};
ghost use Rattle.emission.specs.Figures.{figures_of};
ghost use Rattle.load.specs.Load.{LoadWithin, load_bytes};
ghost use Rattle.records.specs.Layout.{bytes_at};
ghost use Rattle.archive.specs.Offers.{offer};
ghost use Rattle.archive.specs.Answers.{emptied, filed, named};
ghost use Rattle.archive.specs.Archive.{empty_answer, empty_bytes, file_answer, file_bytes, show_refusal, show_part, worst_answer};
ghost use Rattle.export.specs.Export.{export_bytes, EachWithin};
ghost use Rattle.csorvelin.specs.Place.{start_shown, length_shown};

use archive::Filed;
use kinds::refusal::Refusal;
use records::RECORD_SIZE;

// The number that a call returns: 0 for no refusal.
fn refusal_number<T: Copy>(answer: Result<T, Refusal>) -> u32
    ensures { result ≡ refused answer }
{
    match answer {
        Ok(_) => 0,
        Err(refusal) => refusal.number(),
    }
}

#[unsafe(no_mangle)]
pub extern "C" fn csorvelin_work_out(case: &[u8], figures: &mut [u64; 4]) -> u32
    ensures { (result ≡ refusal_of case.now) × (figures.new ≡ figures_of case.now) }
{
    refusal_number(emission::work_out_into(case, figures))
}

#[unsafe(no_mangle)]
pub extern "C" fn csorvelin_empty(archive: &mut [u8], used: &mut u64) -> u32
    ensures { (emptied result used.new ≡ empty_answer archive.old) × (archive.new ≡ empty_bytes archive.old) }
{
    let emptied = archive::empty(archive);
    *used = emptied.unwrap_or(0);
    refusal_number(emptied)
}

// The used length goes in and comes out, as given beside a refusal.
#[unsafe(no_mangle)]
pub extern "C" fn csorvelin_file(
    archive: &mut [u8],
    used: &mut u64,
    case: &[u8],
    number: &mut u64,
) -> u32
    ensures { (filed result number.new used.new ≡ file_answer archive.old used.old (offer case.now)) × (archive.new ≡ file_bytes archive.old used.old (offer case.now)) }
{
    let given = *used;
    let answer = archive::file(archive, given, case);
    let filed = answer.unwrap_or(Filed {
        number: 0,
        used: given,
    });
    *number = filed.number;
    *used = filed.used;
    refusal_number(answer)
}

// Gives the record's place in the archive: the offset of its first byte, and its length.
#[unsafe(no_mangle)]
pub extern "C" fn csorvelin_show(
    archive: &[u8],
    used: u64,
    number: u64,
    start: &mut u64,
    length: &mut u64,
) -> u32
    ensures { (result ≡ show_refusal archive.now used number) × (start.new ≡ start_shown archive.now used number) × (length.new ≡ length_shown archive.now used number) × (bytes_at archive.now start.new length.new ≡ show_part archive.now used number) }
{
    if let Err(refusal) = archive::show_refusal(archive, used, number) {
        *start = 0;
        *length = 0;
        return refusal.number();
    }
    *start = RECORD_SIZE as u64 * number;
    *length = RECORD_SIZE as u64;
    0
}

#[unsafe(no_mangle)]
pub extern "C" fn csorvelin_worst(
    archive: &[u8],
    used: u64,
    compartment: u64,
    number: &mut u64,
) -> u32
    ensures { named result number.new ≡ worst_answer archive.now used compartment }
{
    let highest = archive::worst(archive, used, compartment);
    *number = highest.unwrap_or(0);
    refusal_number(highest)
}

// The load of a figure. Nothing is refused.
#[unsafe(no_mangle)]
pub extern "C" fn csorvelin_load(figure: u64, load: &mut [u8; 8]) -> u32
    ensures bytes { (result ≡ 0) × (load.new ≡ load_bytes figure) }
    ensures within { LoadWithin figure (number_of load.new) }
{
    *load = load::load(figure);
    0
}

// The loads of a record, zeros beside a refusal.
#[unsafe(no_mangle)]
pub extern "C" fn csorvelin_export(
    archive: &[u8],
    used: u64,
    number: u64,
    loads: &mut [u8; 32],
) -> u32
    ensures bytes { (result ≡ show_refusal archive.now used number) × (loads.new ≡ export_bytes archive.now used number) }
    ensures within { result ≡ 0 → EachWithin archive.now number loads.new }
{
    let exported = export::export(archive, used, number);
    *loads = exported.unwrap_or([0; 32]);
    refusal_number(exported)
}
