// The archive in a lent slice: records of 96 bytes, then a trailer of 16. Each call is total: it answers, or refuses.
// specs/ says when each refusal holds, what each call answers, and which bytes it leaves.
#![tactic(auto)]

ghost use Rattle.std.specs.Prelude.{◌≡◌, true, false, IfOk, IfErr, is_some};
ghost use Rattle.kinds.specs.declared.refusal.Refusal.TheVariants.{Broken};
ghost use Rattle.kinds.specs.Refusal.{first_of};
ghost use Rattle.kinds.specs.Number.{refused};
ghost use Rattle.records.specs.Buffer.{count_at, broken};
ghost use Rattle.archive.specs.Offers.{offer};
ghost use Rattle.archive.specs.Answers.{of_emptied, of_filing, of_highest};
ghost use Rattle.archive.specs.Archive.{empty_answer, empty_bytes, emptying, from_state, file_answer, file_bytes, filing, show_refusal, show_part, worst_answer, naming, is_record, record_figures, told_figures};

use emission::work_out;
use kinds::refusal::Refusal;
use records::compartment::Compartment;
use records::search;

// A record that was filed, and the used length behind it.
#[derive(Clone, Copy)]
pub struct Filed {
    pub number: u64,
    pub used: u64,
}

// The number of records, where the trailer is as it must be.
fn count(archive: &[u8], used: u64) -> Result<usize, Refusal>
    ensures sound { IfOk result (λ n. (broken archive.now used ≡ false) × (n ≡ count_at archive.now used)) }
    ensures broken { IfErr result (λ r. (broken archive.now used ≡ true) × (r ≡ Broken)) }
{
    records::records_in(archive, used).ok_or(Refusal::Broken)
}

#[tactic(auto, unfolding(crate::specs::Archive::empty_refusals, crate::specs::Archive::emptying, kinds::specs::Number::refusal_at))]
pub fn empty(archive: &mut [u8]) -> Result<u64, Refusal>
    ensures { (result ≡ emptying archive.old) × (archive.new ≡ empty_bytes archive.old) × (of_emptied result ≡ empty_answer archive.old) }
{
    if archive.len() < records::TRAILER_SIZE {
        return Err(Refusal::Full);
    }
    records::put_trailer(archive, 0, 0);
    Ok(records::TRAILER_SIZE as u64)
}

// The number that a filing of the case takes, or its refusal from the state.
#[tactic(auto, using(records::proofs::Trailer::sound_facts, crate::proofs::Refusals::full_exactly, crate::proofs::Refusals::full_short, crate::proofs::Refusals::full_most))]
fn next_number(archive: &[u8], used: u64, case: &[u8; 64]) -> Result<usize, Refusal>
    ensures refusal { refused result ≡ first_of (from_state archive.now used (offer case.now)) }
    ensures number { IfOk result (λ n. n ≡ count_at archive.now used) }
{
    let n = count(archive, used)?;
    if search::is_held(archive, n, case) {
        return Err(Refusal::Held);
    }
    // No space has two reasons, each tested on its own: too few bytes, or the most records.
    if archive.len() as u64 - used < records::RECORD_SIZE as u64 {
        return Err(Refusal::Full);
    }
    if n == records::MOST_RECORDS {
        return Err(Refusal::Full);
    }
    Ok(n)
}

// Works the case out and files it with its figures.
pub fn file(archive: &mut [u8], used: u64, case: &[u8]) -> Result<Filed, Refusal>
    ensures { (result ≡ filing archive.old used (offer case.now)) × (archive.new ≡ file_bytes archive.old used (offer case.now)) × (of_filing result used ≡ file_answer archive.old used (offer case.now)) }
{
    let figures = work_out(case)?;
    // A case that is not refused has 64 bytes.
    let case = case.as_array::<64>().unwrap();
    let n = next_number(archive, used, case)?;
    records::put_line(archive, n, case, figures);
    let number = n as u64;
    let used = used + records::RECORD_SIZE as u64;
    Ok(Filed { number, used })
}

#[tactic(auto, unfolding(crate::specs::Archive::show_refusals))]
pub fn show_refusal(archive: &[u8], used: u64, number: u64) -> Result<(), Refusal>
    ensures { refused result ≡ show_refusal archive.now used number }
{
    let n = count(archive, used)?;
    if n as u64 <= number {
        return Err(Refusal::NoRecord);
    }
    Ok(())
}

// Lends the record of a number out of the archive, and nothing of it where there is a refusal.
#[tactic(auto, unfolding(crate::specs::Archive::show_part), using(crate::proofs::Accepted::shown_facts))]
pub fn show(archive: &[u8], used: u64, number: u64) -> &[u8]
    ensures { result.now ≡ show_part archive.now used number }
{
    let Ok(()) = show_refusal(archive, used, number) else {
        return &archive[0..0];
    };
    let at = records::RECORD_SIZE * (number as usize);
    &archive[at..at + records::RECORD_SIZE]
}

// Which record is the worst in a compartment, 1 to 4 in the order of the figures.
#[tactic(auto, unfolding(crate::specs::Archive::worst_refusals, crate::specs::Archive::naming, kinds::specs::Number::refusal_at), using(crate::proofs::Refusals::compartment_known, records::proofs::Trailer::sound_facts))]
pub fn worst(archive: &[u8], used: u64, compartment: u64) -> Result<u64, Refusal>
    ensures { (result ≡ naming archive.now used compartment) × (of_highest result ≡ worst_answer archive.now used compartment) }
{
    let compartment = Compartment::try_from(compartment)?;
    let n = count(archive, used)?;
    if n == 0 {
        return Err(Refusal::NoRecord);
    }
    Ok(search::worst_of(archive, records::RECORD_SIZE, n, compartment) as u64)
}

// The four figures of a record, such as show lends; none of other bytes, such as the empty part beside a refusal.
#[tactic(auto, unfolding(crate::specs::Archive::is_record, crate::specs::Archive::record_figures, crate::specs::Archive::told_figures))]
pub fn figures_of(bytes: &[u8]) -> Option<[u64; 4]>
    ensures { (is_some result ≡ is_record bytes.now) × (told_figures result ≡ record_figures bytes.now) }
{
    if bytes.len() != records::RECORD_SIZE {
        return None;
    }
    Some(records::figures_at(bytes))
}
