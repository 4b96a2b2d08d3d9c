// What plastics makers use on site, by polymer (row) and process (user). specs/Polymers has the table as printed.
ghost use Rattle.std.specs.Prelude.{◌≡◌};
ghost use Rattle.kinds.specs.Polymers.{usages_of, usage_at};

// Of a polymer, in tonnes per year: open, partially open, closed. What is no polymer has none.
#[tactic(auto, unfolding(crate::specs::Polymers::usages_of, crate::specs::Polymers::polymers))]
fn usages_of(row: u8) -> [Option<u32>; 3]
    ensures { result ≡ usages_of row }
{
    match row {
        1 => [None, Some(23100), Some(528)],
        2 => [None, Some(2070), Some(2130)],
        3 => [None, Some(8880), Some(1610)],
        4 => [Some(988), None, Some(2010)],
        5 => [Some(744), Some(3990), Some(341)],
        6 => [Some(605), Some(389), Some(623)],
        7 => [None, None, Some(2790)],
        8 => [Some(78), None, Some(428)],
        9 => [Some(176), None, Some(814)],
        10 => [Some(39), None, Some(181)],
        11 => [Some(55), Some(207), Some(28)],
        12 => [None, Some(52), Some(84)],
        13 => [None, Some(62), Some(69)],
        14 => [None, None, Some(804)],
        15 => [Some(575), None, Some(206)],
        16 => [None, None, Some(121)],
        17 => [None, None, Some(469)],
        18 => [None, None, Some(80)],
        _ => [None, None, None],
    }
}

// Of a polymer by a process.
#[tactic(auto, unfolding(crate::specs::Polymers::usage_at))]
pub fn usage_of(row: u8, user: u8) -> Option<u32>
    ensures { result ≡ usage_at row user }
{
    let [open, partially_open, closed] = usages_of(row);
    match user {
        1 => open,
        2 => partially_open,
        3 => closed,
        _ => None,
    }
}
