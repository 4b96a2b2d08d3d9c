// Equations 1 to 7 of paper 01 and 8 of request No. 2 in micrograms, each exact and rounded up once.
// The numbers of an equation are folded into one constant k over a small d; the quantities stand in the equation's order.
#![tactic(auto, unfolding(crate::specs::Ranges::InRange))]

ghost use Rattle.std.specs.Prelude.{◌≡◌, cond, [], ◌∷◌, ◌≤◌, eqb};
ghost use Rattle.scenario.specs.declared.Case.TheVariants.{Measured, Unknown, Application, Sanitary, Formulation, Hygiene, Toilets, Plastics};
ghost use Rattle.product.specs.Ratio.{rounded_up};
ghost use Rattle.equations.specs.Equations.{plastics, to_water, micrograms};
ghost use Rattle.equations.specs.Emissions.{EmissionsOf};
ghost use Rattle.equations.specs.Ranges.{Within, InRange};

use crate::constants::{
    application_constants, consumption_constants, hundredths, measured_constants, of_row,
    unknown_constants,
};
use kinds::polymers::usage_of;
use product::{product_up, remainder_up, sum_up, three_up};
use scenario::{Head, Site};

mod constants;

// 1. City, leaching measured.
pub fn measured(early: f64, late: f64, share: f64, site: Site, head: Head) -> u64
    requires { InRange (Measured early late share site) head }
    ensures { result ≡ rounded_up (micrograms (to_water (Measured early late share site) head)) }
{
    if head.row == 0 {
        return sum_up(early, late, &[share, site.area], 4000000000000, head.count);
    }
    sum_up(
        early,
        late,
        &[share],
        of_row(&measured_constants(), head.row),
        73,
    )
}

// 2. City, leaching unknown.
pub fn unknown(active: f64, share: f64, site: Site, head: Head) -> u64
    requires { InRange (Unknown active share site) head }
    ensures { result ≡ rounded_up (micrograms (to_water (Unknown active share site) head)) }
{
    if head.row == 0 {
        let quantities = [share, site.area, site.volume, site.density, active];
        return product_up(&quantities, 4000000000, head.count);
    }
    product_up(&[share, active], of_row(&unknown_constants(), head.row), 73)
}

// 3. City, application.
pub fn application(active: f64, site: Site, head: Head) -> u64
    requires { InRange (Application active site) head }
    ensures { result ≡ rounded_up (micrograms (to_water (Application active site) head)) }
{
    let lost = hundredths(head.user);
    if head.row == 0 {
        let quantities = [site.area, site.volume, site.density, active];
        return product_up(&quantities, lost * 10000 * u64::from(head.count), 1);
    }
    product_up(
        &[active],
        lost * of_row(&application_constants(), head.row),
        1,
    )
}

// T with row 0, otherwise n.
fn count_or(head: Head, n: u32) -> u32
    ensures { result ≡ cond (eqb head.row 0) head.count n }
{
    if head.row == 0 { head.count } else { n }
}

// 4. Sanitary, tonnage.
pub fn sanitary(tonnage: f64, disintegrated: f64, water: f64, head: Head) -> u64
    requires { InRange (Sanitary tonnage disintegrated water) head }
    ensures { result ≡ rounded_up (micrograms (to_water (Sanitary tonnage disintegrated water) head)) }
{
    remainder_up(
        disintegrated,
        &[tonnage, water],
        200000000,
        count_or(head, 260),
    )
}

#[derive(Clone, Copy)]
pub struct Emissions {
    pub water: u64,
    pub air: u64,
    pub soil: u64,
}

// 5. Formulation. The three compartments share tonnage and main source.
pub fn formulation(
    tonnage: f64,
    source: f64,
    water: f64,
    air: f64,
    soil: f64,
    head: Head,
) -> Emissions
    requires { InRange (Formulation tonnage source water air soil) head }
    ensures { EmissionsOf (Formulation tonnage source water air soil) head result }
{
    let shared = [tonnage, source];
    let [water, air, soil] = three_up(&shared, water, air, soil, 1000000000000, head.count);
    Emissions { water, air, soil }
}

// 6. Hygiene, consumption.
pub fn consumption(
    active: f64,
    penetration: f64,
    grams: f64,
    uses: f64,
    share: f64,
    head: Head,
) -> u64
    requires { InRange (Hygiene active penetration grams uses share) head }
    ensures { result ≡ rounded_up (micrograms (to_water (Hygiene active penetration grams uses share) head)) }
{
    if head.row == 0 {
        let quantities = [share, uses, grams, active, penetration];
        return product_up(&quantities, 10000000000, 1);
    }
    product_up(
        &[active, penetration],
        of_row(&consumption_constants(), head.row),
        1,
    )
}

// 7. Chemical toilets.
pub fn toilets(
    dose: f64,
    active: f64,
    density: f64,
    disintegrated: f64,
    plant: f64,
    head: Head,
) -> u64
    requires { InRange (Toilets dose active density disintegrated plant) head }
    ensures { result ≡ rounded_up (micrograms (to_water (Toilets dose active density disintegrated plant) head)) }
{
    let quantities = [dose, density, active, plant];
    let emptied = u64::from(count_or(head, 1));
    remainder_up(disintegrated, &quantities, 2000000000000 * emptied, 3)
}

// Q·1000·a·b/T, of one compartment.
fn plastics_part(tonnes: u32, active: f64, part: f64, days: u32) -> u64
    requires { (tonnes ≤ 23100) × (1 ≤ days) × Within (active ∷ part ∷ []) (1 ∷ 1 ∷ []) }
    ensures { result ≡ rounded_up (micrograms (plastics tonnes active part days)) }
{
    product_up(&[active, part], u64::from(tonnes) * 1000000000000, days)
}

// 8. Plastics. Without a usage there is no equation.
pub fn plastics(active: f64, air: f64, water: f64, head: Head) -> Emissions
    requires { InRange (Plastics active air water) head }
    ensures { EmissionsOf (Plastics active air water) head result }
{
    match usage_of(head.row, head.user) {
        None => Emissions {
            water: 0,
            air: 0,
            soil: 0,
        },
        Some(tonnes) => Emissions {
            water: plastics_part(tonnes, active, water, head.count),
            air: plastics_part(tonnes, active, air, head.count),
            soil: 0,
        },
    }
}
