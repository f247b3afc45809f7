// The overlay of one access: what a slot grants; a reserved slot, then an Overlay fault.
ghost use Rattle.std.specs.Prelude.{◌≡◌};
ghost use Rattle.rights.specs.Overlay.{slot_rights, slot_answer, overlay_answer};

use crate::answers::{Kind, Stage, Stop, fault_unless};
use records::access::{Access, LevelRights, Right, has_right};
use records::descriptor::Stage1;
use records::refusal::{Refusal, check_if};
use records::setup::{PerLevel, Setup};

// What an overlay slot grants: bit 0 R, bit 1 X, bit 2 W.
fn slot_rights(v: u8) -> LevelRights
    ensures { result ≡ slot_rights v }
{
    LevelRights {
        read: (v >> 0) % 2 == 1,
        write: (v >> 2) % 2 == 1,
        execute: (v >> 1) % 2 == 1,
    }
}

// The overlay where it is on and applies: a reserved slot, then an Overlay fault.
fn slot_answer(on: bool, v: u8, r: Right) -> Result<(), Stop>
    ensures { result ≡ slot_answer on v r }
{
    if on {
        check_if(8 <= v, Refusal::ReservedCode)?;
        return fault_unless(has_right(slot_rights(v), r), Stage::One, Kind::Overlay, 8);
    }
    Ok(())
}

// The overlay of an access; `applies` is where overlays apply to the base rights.
pub(crate) fn overlay_answer(
    s: Setup,
    d: Stage1,
    applies: PerLevel<bool>,
    a: Access,
) -> Result<(), Stop>
    ensures { result ≡ overlay_answer s d applies a }
{
    let level = a.level;
    let on = s.control.overlay.of(level) & applies.of(level);
    let v = d.poindex.slot(s.por.of(level));
    slot_answer(on, v, a.right)
}
