// A case of 64 bytes: decoded to an enum over kinds, or refused by the first of refusals 1 to 11 and 31 that holds.
// specs/ says what a case says; what each kind allows and when each refusal holds is in crate kinds.
#![tactic(auto)]

ghost use Rattle.std.specs.Prelude.{◌≡◌};
ghost use Rattle.scenario.specs.Decoding.{case_of_six, decoded, of_decoded, said};

use kinds::refusal::Refusal;

mod fields;
mod quantities;

// Row 0 of the city kinds: area in m2, volume in L/m2, density in kg/m3. Zero with the other rows.
#[derive(Clone, Copy)]
pub struct Site {
    pub area: f64,
    pub volume: f64,
    pub density: f64,
}

// Kinds 1 to 8, each with its own quantities.
#[derive(Clone, Copy)]
pub enum Case {
    // A city, by measured leaching in kg/m2: early, in 30 days, and late, after them; and the share of the market.
    Measured {
        early: f64,
        late: f64,
        share: f64,
        site: Site,
    },
    // A city, by what the product holds: its active part, and the share of the market.
    Unknown {
        active: f64,
        share: f64,
        site: Site,
    },
    // A city, by what is lost at application: the active part.
    Application {
        active: f64,
        site: Site,
    },
    // Sanitary use by tonnes a year: what part disintegrates, what part goes to water.
    Sanitary {
        tonnage: f64,
        disintegrated: f64,
        to_water: f64,
    },
    // Formulation by tonnes a year: the main source's part, and the parts to water, air and soil.
    Formulation {
        tonnage: f64,
        main_source: f64,
        to_water: f64,
        to_air: f64,
        to_soil: f64,
    },
    // Hygiene products by use: the active part and the penetration; in row 0 also grams, uses a day and who uses them.
    Hygiene {
        active: f64,
        penetration: f64,
        grams: f64,
        uses: f64,
        share: f64,
    },
    // Chemical toilets: the product's dose, active part and density, what part disintegrates, what part reaches the plant.
    Toilets {
        dose: f64,
        active: f64,
        density: f64,
        disintegrated: f64,
        to_plant: f64,
    },
    // Plastics makers by what they use on site: the active part, and the parts to air and to water.
    Plastics {
        active: f64,
        to_air: f64,
        to_water: f64,
    },
}

// What stands before the quantities, without the kind.
#[derive(Clone, Copy)]
pub struct Head {
    pub row: u8,
    pub route: u8,
    pub user: u8,
    pub count: u32,
    pub dossier: u64,
}

// A case that no refusal meets.
#[derive(Clone, Copy)]
pub struct Accepted {
    pub head: Head,
    pub case: Case,
}

// The case of a kind, with its own of the six quantities.
fn case_with(kind: u8, quantities: [f64; 6]) -> Case
    ensures { result ≡ case_of_six kind quantities }
{
    let [a, b, c, d, e, f] = quantities;
    let site = Site {
        area: d,
        volume: e,
        density: f,
    };
    match kind {
        1 => Case::Measured {
            early: a,
            late: b,
            share: c,
            site,
        },
        2 => Case::Unknown {
            active: a,
            share: c,
            site,
        },
        3 => Case::Application { active: a, site },
        4 => Case::Sanitary {
            tonnage: a,
            disintegrated: b,
            to_water: c,
        },
        5 => Case::Formulation {
            tonnage: a,
            main_source: b,
            to_water: c,
            to_air: d,
            to_soil: e,
        },
        6 => Case::Hygiene {
            active: a,
            penetration: b,
            grams: d,
            uses: e,
            share: f,
        },
        7 => Case::Toilets {
            dose: a,
            active: b,
            density: c,
            disintegrated: d,
            to_plant: e,
        },
        _ => Case::Plastics {
            active: a,
            to_air: b,
            to_water: c,
        },
    }
}

// What the case says, or the first refusal that holds.
pub fn decode(case: &[u8]) -> Result<Accepted, Refusal>
    ensures { (result ≡ decoded case.now) × (of_decoded result ≡ said case.now) }
{
    let Some(bytes) = case.as_array::<64>() else {
        return Err(Refusal::NotSixtyFour);
    };
    let kind = bytes[0];
    let head = fields::head_at(bytes);
    let patterns = quantities::patterns_at(bytes);
    fields::head_refusal(kind, head)?;
    let quantities = quantities::quantities_of(kind, head.row, &patterns)?;
    Ok(Accepted {
        head,
        case: case_with(kind, quantities),
    })
}
