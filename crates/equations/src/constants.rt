// Folded constants: all the numbers of a row's equation as one whole number, in micrograms, so times 10^9. Each table starts with row 1.
#![tactic(auto, unfolding(crate::specs::Rows::cities, crate::specs::Rows::city_at, crate::specs::Rows::hygienes, crate::specs::Rows::hygiene_at, crate::specs::Constants::numbers, crate::specs::Constants::folded_from))]

ghost use Rattle.std.specs.Prelude.{◌≡◌, true, ◌-◌, ◌≤◌, slice_index, Float};
ghost use Rattle.equations.specs.Rows.{city_at, hygiene_at};
ghost use Rattle.product.specs.Chain.{number};
ghost use Rattle.equations.specs.Equations.{loss, measured_at, unknown_at, application_at, consumption_at};
ghost use Rattle.equations.specs.Constants.{folded_from};

// Over 73: 4000·A/L, of both terms.
pub fn measured_constants() -> [u64; 7]
    ensures { (a b c : Float) → folded_from (λ row. measured_at a b c (city_at row)) 73 1 result ≡ true }
{
    [
        19200000000,
        9600000000,
        20000000000000,
        891200000000,
        4000000000000,
        49600000000,
        1120000000000,
    ]
}

// Over 73: 4000·A·V·R/(1000·L).
pub fn unknown_constants() -> [u64; 7]
    ensures { (a c : Float) → folded_from (λ row. unknown_at a c (city_at row)) 73 1 result ≡ true }
{
    [
        15321600000,
        56448000000,
        7000000000000,
        311920000000,
        16000000000000,
        291648000000,
        5958400000000,
    ]
}

// A·V·R·N/1000, for one hundredth lost.
pub fn application_constants() -> [u64; 7]
    ensures { (a : Float) → folded_from (λ row. application_at a (number 1 100) (city_at row)) 1 1 result ≡ true }
{
    [
        1915200, 7056000, 1312500000, 58485000, 5000000000, 54684000, 1862000000,
    ]
}

// Hundredths lost at application.
pub fn hundredths(user: u8) -> u64
    ensures { (number result 100 ≡ loss user) × (result ≤ 5) }
{
    if user == 1 { 3 } else { 5 }
}

// 10000·H·M·G/1000.
pub fn consumption_constants() -> [u64; 5]
    ensures { (a b : Float) → folded_from (λ row. consumption_at a b (hygiene_at row)) 1 1 result ≡ true }
{
    [8520000000, 12000000000, 4000000000, 1600000000, 15000000000]
}

// The constant of a row.
pub fn of_row<const R: usize>(constants: &[u64; R], row: u8) -> u64
    requires { (1 ≤ row) × (row ≤ R) }
    ensures { result ≡ slice_index constants.now (row - 1) }
{
    constants[usize::from(row) - 1]
}
