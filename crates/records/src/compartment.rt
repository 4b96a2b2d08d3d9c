// The four compartments that figures go to, in the order of the figures.
ghost use Rattle.std.specs.Prelude.{◌≡◌};
ghost use Rattle.records.specs.Compartments.{compartment_number, Named};

use kinds::refusal::Refusal;

#[derive(Clone, Copy, PartialEq, Eq)]
pub enum Compartment {
    Stp = 1,
    SurfaceWater = 2,
    Air = 3,
    Soil = 4,
}

impl Compartment {
    pub fn number(self) -> usize
        ensures { result ≡ compartment_number self }
    {
        self as usize
    }
}

impl TryFrom<u64> for Compartment {
    type Error = Refusal;

    ghost try_from_gives = { Named };

    fn try_from(number: u64) -> Result<Compartment, Refusal> {
        match number {
            1 => Ok(Compartment::Stp),
            2 => Ok(Compartment::SurfaceWater),
            3 => Ok(Compartment::Air),
            4 => Ok(Compartment::Soil),
            _ => Err(Refusal::NotCompartment),
        }
    }
}
