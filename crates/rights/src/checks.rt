// The checks before the stages (document 01, 'Numbers for no'): 1, 2, 3 of a setup, 4 of an access or a planner's level, 5 of a leaf. No public
// function has a `requires`.
ghost use Rattle.std.specs.Prelude.{◌≡◌};
ghost use Rattle.rights.specs.Checks.{setup_check, access_check, level_check, leaf_check};

use records::access::{Access, Level, read_access};
use records::leaf::Leaf;
use records::refusal::{Refusal, check_if};
use records::setup::Control;

// 1, 2, 3.
#[tactic(auto, unfolding(crate::specs::Checks::setup_check))]
pub fn check_setup(c: Control) -> Result<(), Refusal>
    ensures { result ≡ setup_check c }
{
    check_if(c.above, Refusal::ControlBits)?;
    let one_level = !c.two & (c.stage2 | c.overlay.unprivileged | c.pan);
    check_if(one_level | c.dc & (c.stage1 | !c.stage2), Refusal::Clash)?;
    let overlays = c.indirect | c.overlay.privileged | c.overlay.unprivileged;
    check_if(c.stage1 & (c.wxn | c.pan) & overlays, Refusal::WxnOrPan)
}

// 4, for an access number.
#[tactic(auto, using(crate::proofs::AccessChecks::known_of_two, crate::proofs::AccessChecks::known_of_three, crate::proofs::AccessChecks::refused_unknown), unfolding(crate::specs::Checks::access_check))]
pub(crate) fn check_access(two: bool, n: u64) -> Result<Access, Refusal>
    ensures { result ≡ access_check two n }
{
    let a = read_access(n).ok_or(Refusal::UnknownAccess)?;
    if two {
        return Ok(a);
    }
    if n <= 2 {
        return Ok(a);
    }
    Err(Refusal::UnknownAccess)
}

// 4, for a planner's level: 0 privileged, 1 unprivileged.
#[tactic(auto, unfolding(crate::specs::Checks::level_check))]
pub fn check_level(n: u64) -> Result<Level, Refusal>
    ensures { result ≡ level_check n }
{
    match n {
        0 => Ok(Level::Privileged),
        1 => Ok(Level::Unprivileged),
        _ => Err(Refusal::UnknownAccess),
    }
}

// 5.
#[tactic(auto, unfolding(crate::specs::Checks::leaf_check))]
pub fn check_leaf(f: Leaf) -> Result<(), Refusal>
    ensures { result ≡ leaf_check f }
{
    check_if((15 < f.limits) | (63 < f.forbidden), Refusal::LeafBits)
}
