// What each kind allows, as two tables: the bounds of its fields, and the limits of its quantities; and the tests of refusals 2 to 6 and 31.
// specs/ says what each kind allows and when each refusal holds.
#![tactic(auto)]

ghost use Rattle.std.specs.Prelude.{◌≡◌, not, eqb};
ghost use Rattle.kinds.specs.Case.{within, ◌to◌, kind_at, kind_unknown, route_not_allowed, row_unknown, user_not_allowed, usage_missing, count_not_allowed};
ghost use Rattle.kinds.specs.Patterns.{bounds_of, limit_patterns, limits_of};

use polymers::usage_of;

pub mod polymers;
pub mod refusal;

#[tactic(auto, unfolding(crate::specs::Case::kind_unknown))]
pub fn kind_unknown(kind: u8) -> bool
    ensures { result ≡ kind_unknown kind }
{
    !(1..=8).contains(&kind)
}

// Route 2, the rain sewer, is for the uses outdoors of a city.
#[tactic(auto, unfolding(crate::specs::Case::route_not_allowed))]
pub fn route_not_allowed(kind: u8, row: u8, route: u8) -> bool
    ensures { result ≡ route_not_allowed kind row route }
{
    let outdoors = (1..=3).contains(&kind) & ((row == 0) | (3..=7).contains(&row));
    !((route == 1) | ((route == 2) & outdoors))
}

// From and to, both of which are allowed.
#[derive(Clone, Copy)]
struct Span(u32, u32);

impl Span {
    fn contains(self, n: u32) -> bool
        ensures { result ≡ within (self.0 to self.1) n }
    {
        (self.0..=self.1).contains(&n)
    }
}

// What rows and users there may be, and T with row 0 and with the paper's rows.
#[derive(Clone, Copy)]
struct Bounds {
    rows: Span,
    users: Span,
    own_count: Span,
    row_count: Span,
}

impl Bounds {
    fn new(rows: Span, users: Span, own_count: Span, row_count: Span) -> Bounds
        ensures { result ≡ record { rows = rows; users = users; own_count = own_count; row_count = row_count } }
    {
        Bounds {
            rows,
            users,
            own_count,
            row_count,
        }
    }
}

// What is no kind allows nothing.
#[tactic(auto, unfolding(crate::specs::Case::kind_at, crate::specs::Case::kinds, crate::specs::Patterns::bounds_of))]
fn bounds_of(kind: u8) -> Bounds
    ensures { result ≡ bounds_of (kind_at kind) }
{
    match kind {
        1 => Bounds::new(Span(0, 7), Span(0, 0), Span(31, 36500), Span(0, 0)),
        2 => Bounds::new(Span(0, 7), Span(0, 0), Span(31, 36500), Span(0, 0)),
        3 => Bounds::new(Span(0, 7), Span(1, 2), Span(1, 100), Span(0, 0)),
        4 => Bounds::new(Span(0, 1), Span(0, 0), Span(1, 366), Span(0, 0)),
        5 => Bounds::new(Span(0, 0), Span(0, 0), Span(1, 366), Span(0, 0)),
        6 => Bounds::new(Span(0, 5), Span(0, 0), Span(0, 0), Span(0, 0)),
        7 => Bounds::new(Span(0, 1), Span(0, 0), Span(1, 100), Span(0, 0)),
        8 => Bounds::new(Span(1, 18), Span(1, 3), Span(1, 366), Span(1, 366)),
        _ => Bounds::new(Span(1, 0), Span(1, 0), Span(1, 0), Span(1, 0)),
    }
}

#[tactic(auto, unfolding(crate::specs::Case::row_unknown, crate::specs::Patterns::bounds_of))]
pub fn row_unknown(kind: u8, row: u8) -> bool
    ensures { result ≡ row_unknown kind row }
{
    !bounds_of(kind).rows.contains(u32::from(row))
}

#[tactic(auto, unfolding(crate::specs::Case::user_not_allowed, crate::specs::Patterns::bounds_of))]
pub fn user_not_allowed(kind: u8, user: u8) -> bool
    ensures { result ≡ user_not_allowed kind user }
{
    !bounds_of(kind).users.contains(u32::from(user))
}

// Kind 8: the polymer has no usage for the process.
#[tactic(auto, unfolding(crate::specs::Case::usage_missing))]
pub fn usage_missing(kind: u8, row: u8, user: u8) -> bool
    ensures { result ≡ usage_missing kind row user }
{
    kind == 8 && usage_of(row, user).is_none()
}

#[tactic(auto, unfolding(crate::specs::Case::count_not_allowed, crate::specs::Patterns::bounds_of))]
pub fn count_not_allowed(kind: u8, row: u8, t: u32) -> bool
    ensures { result ≡ count_not_allowed kind row t }
{
    let bounds = bounds_of(kind);
    let counts = if row == 0 {
        bounds.own_count
    } else {
        bounds.row_count
    };
    !counts.contains(t)
}

// The patterns of limits.
const TO_1: u64 = 0x3ff0_0000_0000_0000;

const TO_5: u64 = 0x4014_0000_0000_0000;

const TO_100: u64 = 0x4059_0000_0000_0000;

const TO_1000: u64 = 0x408f_4000_0000_0000;

const TO_5000: u64 = 0x40b3_8800_0000_0000;

const TO_10000: u64 = 0x40c3_8800_0000_0000;

const TO_1000000: u64 = 0x412e_8480_0000_0000;

// Limits of a to f with row 0, then with the paper's rows; 0 for an unlisted quantity.
fn limits_at(kind: u8) -> [[u64; 6]; 2]
    ensures { result ≡ limits_of (kind_at kind) }
{
    match kind {
        1 => [
            [TO_100, TO_100, TO_1, TO_1000, 0, 0],
            [TO_100, TO_100, TO_1, 0, 0, 0],
        ],
        2 => [
            [TO_1, 0, TO_1, TO_1000, TO_100, TO_5000],
            [TO_1, 0, TO_1, 0, 0, 0],
        ],
        3 => [
            [TO_1, 0, 0, TO_1000, TO_100, TO_5000],
            [TO_1, 0, 0, 0, 0, 0],
        ],
        4 => [
            [TO_1000000, TO_1, TO_1, 0, 0, 0],
            [TO_1000000, TO_1, TO_1, 0, 0, 0],
        ],
        5 => [
            [TO_1000000, TO_1, TO_1, TO_1, TO_1, 0],
            [TO_1000000, TO_1, TO_1, TO_1, TO_1, 0],
        ],
        6 => [
            [TO_1, TO_1, 0, TO_10000, TO_100, TO_1],
            [TO_1, TO_1, 0, 0, 0, 0],
        ],
        7 => [
            [TO_1, TO_1, TO_5, TO_1, TO_1, 0],
            [TO_1, TO_1, TO_5, TO_1, TO_1, 0],
        ],
        8 => [[TO_1, TO_1, TO_1, 0, 0, 0], [TO_1, TO_1, TO_1, 0, 0, 0]],
        _ => [[0; 6]; 2],
    }
}

#[tactic(auto, unfolding(crate::specs::Patterns::limits_of))]
pub fn limits_of(kind: u8, row: u8) -> [u64; 6]
    ensures { result ≡ limit_patterns (eqb row 0) (kind_at kind).quantities }
{
    let [own, paper] = limits_at(kind);
    if row == 0 { own } else { paper }
}
