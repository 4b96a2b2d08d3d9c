// A record of an archive for the fate model: its four figures as loads, 32 bytes in the order of the figures. The archive is only read.
// specs/ says which bytes these are. What show refuses is refused, by the same number.
#![tactic(auto)]

ghost use Rattle.std.specs.Prelude.{◌≡◌};
ghost use Rattle.kinds.specs.Number.{refused};
ghost use Rattle.archive.specs.Archive.{show_refusal};
ghost use Rattle.export.specs.Export.{loads_of, loads_in, export_bytes, EachWithin};

use archive::{figures_of, show, show_refusal};
use kinds::refusal::Refusal;
use load::load_pattern;
use records::put_figures;

// A pattern is written as a figure is: eight bytes, the lowest first.
fn loads_of(figures: [u64; 4]) -> [u8; 32]
    ensures { result ≡ loads_of figures }
{
    let mut loads = [0u8; 32];
    put_figures(&mut loads, 0, figures.map(load_pattern));
    loads
}

#[tactic(auto, using(archive::proofs::FiguresRead::shown_record, archive::proofs::AnswerLaws::has_number, archive::proofs::AnswerLaws::handed_on, crate::proofs::EachLoad::exported_refused, crate::proofs::EachLoad::exported_loads))]
pub fn export(archive: &[u8], used: u64, number: u64) -> Result<[u8; 32], Refusal>
    ensures bytes { (refused result ≡ show_refusal archive.now used number) × (loads_in result ≡ export_bytes archive.now used number) }
    ensures within { refused result ≡ 0 → EachWithin archive.now number (loads_in result) }
{
    show_refusal(archive, used, number)?;
    // What show lends is a record, since it refuses nothing.
    let figures = figures_of(show(archive, used, number)).unwrap();
    Ok(loads_of(figures))
}
