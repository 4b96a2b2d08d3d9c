// What stands before the quantities of a case, and refusals 2 to 7 and 31.
ghost use Rattle.std.specs.Prelude.{◌≡◌};
ghost use Rattle.kinds.specs.Refusal.{first_of};
ghost use Rattle.kinds.specs.Number.{refused};
ghost use Rattle.kinds.specs.Case.{head_refusals};
ghost use Rattle.scenario.specs.Decoding.{head_of};

use crate::Head;
use kinds::refusal::Refusal;
use kinds::{
    count_not_allowed, kind_unknown, route_not_allowed, row_unknown, usage_missing,
    user_not_allowed,
};
use octets::Octets;

pub fn head_at(case: &[u8; 64]) -> Head
    ensures { result ≡ head_of case.now }
{
    Head {
        row: case[1],
        route: case[2],
        user: case[3],
        count: u32::at(case, 4),
        dossier: u64::at(case, 8),
    }
}

// The first of refusals 2 to 7 and 31 that holds: 31 straight after 5.
pub fn head_refusal(kind: u8, head: Head) -> Result<(), Refusal>
    ensures { refused result ≡ first_of (head_refusals kind head.row head.route head.user head.count head.dossier) }
{
    let row = head.row;
    if kind_unknown(kind) {
        return Err(Refusal::KindUnknown);
    }
    if row_unknown(kind, row) {
        return Err(Refusal::RowUnknown);
    }
    if route_not_allowed(kind, row, head.route) {
        return Err(Refusal::RouteNotAllowed);
    }
    if user_not_allowed(kind, head.user) {
        return Err(Refusal::UserNotAllowed);
    }
    if usage_missing(kind, row, head.user) {
        return Err(Refusal::UsageMissing);
    }
    if count_not_allowed(kind, row, head.count) {
        return Err(Refusal::CountNotAllowed);
    }
    if head.dossier == 0 {
        return Err(Refusal::DossierZero);
    }
    Ok(())
}
