// The checks of a setup, a level and a list before the leaves: 1, 2, 3, 4, 12, 11.
ghost use Rattle.std.specs.Prelude.{◌≡◌, ◌&&◌};
ghost use Rattle.records.specs.Setup.{of_level};
ghost use Rattle.planner.specs.Plan.{start_of};

use records::access::Level;
use records::refusal::{Refusal, check_if};
use records::setup::Control;

// Stage 1 and that level's overlay are on.
fn is_on(c: Control, l: Level) -> bool
    ensures { result ≡ (c.stage1 && of_level c.overlay l) }
{
    c.stage1 & c.overlay.of(l)
}

// 1, 2, 3, 4, 12, 11, where `len` is the length of the list in bytes: the level to plan for.
#[tactic(auto, unfolding(crate::specs::Plan::start_of))]
pub(crate) fn begin(c: Control, level: u64, len: usize) -> Result<Level, Refusal>
    ensures { result ≡ start_of c level len }
{
    rights::checks::check_setup(c)?;
    let l = rights::checks::check_level(level)?;
    check_if(!is_on(c, l), Refusal::OverlayOff)?;
    let whole = (len % 18 == 0) & (len / 18 <= 2048);
    check_if(!whole, Refusal::ListLength)?;
    Ok(l)
}
