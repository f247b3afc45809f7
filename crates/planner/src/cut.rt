// What one leaf asks of the register.
ghost use Rattle.std.specs.Prelude.{◌≡◌};
ghost use Rattle.planner.specs.Mirror.Masks.{mask_cut, plan_by};

use records::access::{Level, level_bits};
use records::refusal::Refusal;
use rights::promise::{LevelSetup, RangeMask, slot_of};

// The bits `taken` must be off in the slot at `place`; `uncured`: no register cures the leaf.
#[derive(Clone, Copy)]
pub(crate) struct Cut {
    pub place: usize,
    pub taken: u8,
    pub uncured: bool,
}

// A forbidden right is taken from the slot where the base grants it; where no slot takes it away, no register cures the leaf.
fn range_cut(forbidden: u8, l: Level, range: RangeMask) -> Cut
    ensures { result ≡ mask_cut forbidden l range }
{
    let f = level_bits(forbidden, l);
    Cut {
        place: range.place,
        taken: slot_of(f & range.full),
        uncured: f & range.bare != 0,
    }
}

// 5, then the 6 or 7 that an access of the level meets with 77777777 in place of that level's POR.
#[tactic(auto, unfolding(crate::specs::Mirror::Masks::plan_by))]
pub(crate) fn plan_leaf(s: &LevelSetup, leaf: &[u8]) -> Result<Cut, Refusal>
    ensures { result ≡ plan_by s.now.control s.now.on s.now.base s.now.level leaf.now }
{
    let f = records::leaf::read_leaf(leaf)?;
    rights::checks::check_leaf(f)?;
    let range = s.range(f.stage1, f.stage2, f.limits)?;
    Ok(range_cut(f.forbidden, s.level, range))
}
