// The daily emissions of a case: four figures in whole micrograms, each its exact value rounded up once.
// specs/ says what a figure is; crate `equations` has the equations of the eight kinds.
#![tactic(auto)]

ghost use Rattle.std.specs.Prelude.{◌≡◌, cond, [], ◌∷◌, eqb};
ghost use Rattle.kinds.specs.Case.{refusal_of};
ghost use Rattle.product.specs.Ratio.{rounded_up};
ghost use Rattle.equations.specs.Equations.{to_water, to_air, to_soil, micrograms};
ghost use Rattle.kinds.specs.Number.{refused};
ghost use Rattle.emission.specs.Figures.{figures_of, figures_in};
ghost use Rattle.equations.specs.Ranges.{InRange};

use equations::Emissions;
use kinds::refusal::Refusal;
use scenario::{Accepted, Case, Head};

#[tactic(auto, using(equations::proofs::Chains::no_equation))]
fn only_water(figure: u64) -> Emissions
    ensures { (result.water ≡ figure) × (result.air ≡ rounded_up (micrograms [])) × (result.soil ≡ rounded_up (micrograms [])) }
{
    Emissions {
        water: figure,
        air: 0,
        soil: 0,
    }
}

#[tactic(auto, unfolding(equations::specs::Equations::emitted))]
fn emissions_of(case: Case, head: Head) -> Emissions
    requires { InRange case head }
    ensures { (result.water ≡ rounded_up (micrograms (to_water case head))) × (result.air ≡ rounded_up (micrograms (to_air case head))) × (result.soil ≡ rounded_up (micrograms (to_soil case head))) }
{
    match case {
        Case::Measured {
            early,
            late,
            share,
            site,
        } => only_water(equations::measured(early, late, share, site, head)),
        Case::Unknown {
            active,
            share,
            site,
        } => only_water(equations::unknown(active, share, site, head)),
        Case::Application { active, site } => only_water(equations::application(
            active, site, head,
        )),
        Case::Sanitary {
            tonnage,
            disintegrated,
            to_water,
        } => only_water(equations::sanitary(tonnage, disintegrated, to_water, head)),
        Case::Formulation {
            tonnage,
            main_source,
            to_water,
            to_air,
            to_soil,
        } => equations::formulation(tonnage, main_source, to_water, to_air, to_soil, head),
        Case::Hygiene {
            active,
            penetration,
            grams,
            uses,
            share,
        } => only_water(equations::consumption(active, penetration, grams, uses, share, head)),
        Case::Toilets {
            dose,
            active,
            density,
            disintegrated,
            to_plant,
        } => only_water(equations::toilets(dose, active, density, disintegrated, to_plant, head)),
        Case::Plastics {
            active,
            to_air,
            to_water,
        } => equations::plastics(active, to_air, to_water, head),
    }
}

// STP, surface water, air, soil: water goes by route.
fn by_route(route: u8, e: Emissions) -> [u64; 4]
    ensures { result ≡ cond (eqb route 1) (e.water ∷ 0 ∷ e.air ∷ e.soil ∷ []) (0 ∷ e.water ∷ e.air ∷ e.soil ∷ []) }
{
    if route == 1 {
        [e.water, 0, e.air, e.soil]
    } else {
        [0, e.water, e.air, e.soil]
    }
}

// Writes the four figures of a case, or zeros beside the first refusal that holds.
#[tactic(auto, using(crate::proofs::Accepted::accepted_is, crate::proofs::Accepted::refused_is, crate::proofs::Accepted::figures_refused, crate::proofs::Accepted::figures_accepted, crate::proofs::InRanges::in_range))]
pub fn work_out_into(case: &[u8], figures: &mut [u64; 4]) -> Result<(), Refusal>
    ensures { (refused result ≡ refusal_of case.now) × (figures.new ≡ figures_of case.now) }
{
    // Zeros are written beside a refusal alone: an accepted case is faster without.
    match scenario::decode(case) {
        Err(refusal) => {
            *figures = [0; 4];
            Err(refusal)
        }
        Ok(Accepted { head, case }) => {
            *figures = by_route(head.route, emissions_of(case, head));
            Ok(())
        }
    }
}

// The same, by value.
#[tactic(auto, using(std::proofs::lemmas::Result::err_from_is_err_and, kinds::proofs::Numbers::number_not_zero, crate::proofs::Accepted::figures_refused))]
pub fn work_out(case: &[u8]) -> Result<[u64; 4], Refusal>
    ensures { (refused result ≡ refusal_of case.now) × (figures_in result ≡ figures_of case.now) }
{
    let mut figures = [0; 4];
    work_out_into(case, &mut figures)?;
    Ok(figures)
}
