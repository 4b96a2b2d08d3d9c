// What the static library exports: the functions of crate csorvelin under their own names, with their clauses, and nothing between.
// A slice is passed as a pointer and a length, in that order; include/csorvelin.h declares these functions for C.
#![tactic(auto)]

ghost use Rattle.std.specs.Prelude.{◌≡◌};
ghost use Rattle.octets.specs.Bytes.{number_of};
ghost use Rattle.kinds.specs.Case.{refusal_of};
ghost use Rattle.emission.specs.Figures.{figures_of};
ghost use Rattle.load.specs.Load.{LoadWithin, load_bytes};
ghost use Rattle.records.specs.Layout.{bytes_at};
ghost use Rattle.archive.specs.Offers.{offer};
ghost use Rattle.archive.specs.Answers.{emptied, filed, named};
ghost use Rattle.archive.specs.Archive.{empty_answer, empty_bytes, file_answer, file_bytes, show_refusal, show_part, worst_answer};
ghost use Rattle.export.specs.Export.{export_bytes, EachWithin};
ghost use Rattle.csorvelin.specs.Place.{start_shown, length_shown};

#[unsafe(no_mangle)]
pub extern "C" fn csorvelin_work_out(case: &[u8], figures: &mut [u64; 4]) -> u32
    ensures { (result ≡ refusal_of case.now) × (figures.new ≡ figures_of case.now) }
{
    csorvelin::csorvelin_work_out(case, figures)
}

#[unsafe(no_mangle)]
pub extern "C" fn csorvelin_empty(archive: &mut [u8], used: &mut u64) -> u32
    ensures { (emptied result used.new ≡ empty_answer archive.old) × (archive.new ≡ empty_bytes archive.old) }
{
    csorvelin::csorvelin_empty(archive, used)
}

#[unsafe(no_mangle)]
pub extern "C" fn csorvelin_file(
    archive: &mut [u8],
    used: &mut u64,
    case: &[u8],
    number: &mut u64,
) -> u32
    ensures { (filed result number.new used.new ≡ file_answer archive.old used.old (offer case.now)) × (archive.new ≡ file_bytes archive.old used.old (offer case.now)) }
{
    csorvelin::csorvelin_file(archive, used, case, number)
}

#[unsafe(no_mangle)]
pub extern "C" fn csorvelin_show(
    archive: &[u8],
    used: u64,
    number: u64,
    start: &mut u64,
    length: &mut u64,
) -> u32
    ensures { (result ≡ show_refusal archive.now used number) × (start.new ≡ start_shown archive.now used number) × (length.new ≡ length_shown archive.now used number) × (bytes_at archive.now start.new length.new ≡ show_part archive.now used number) }
{
    csorvelin::csorvelin_show(archive, used, number, start, length)
}

#[unsafe(no_mangle)]
pub extern "C" fn csorvelin_worst(
    archive: &[u8],
    used: u64,
    compartment: u64,
    number: &mut u64,
) -> u32
    ensures { named result number.new ≡ worst_answer archive.now used compartment }
{
    csorvelin::csorvelin_worst(archive, used, compartment, number)
}

#[unsafe(no_mangle)]
pub extern "C" fn csorvelin_load(figure: u64, load: &mut [u8; 8]) -> u32
    ensures bytes { (result ≡ 0) × (load.new ≡ load_bytes figure) }
    ensures within { LoadWithin figure (number_of load.new) }
{
    csorvelin::csorvelin_load(figure, load)
}

#[unsafe(no_mangle)]
pub extern "C" fn csorvelin_export(
    archive: &[u8],
    used: u64,
    number: u64,
    loads: &mut [u8; 32],
) -> u32
    ensures bytes { (result ≡ show_refusal archive.now used number) × (loads.new ≡ export_bytes archive.now used number) }
    ensures within { result ≡ 0 → EachWithin archive.now number loads.new }
{
    csorvelin::csorvelin_export(archive, used, number, loads)
}
