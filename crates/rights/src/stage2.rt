// Stage 2 of one access, step by step (document 01, 'Stage 2 rights'): the first step that takes it away is its cause (request A1).
ghost use Rattle.std.specs.Prelude.{◌≡◌};
ghost use Rattle.rights.specs.Steps.{meet};
ghost use Rattle.rights.specs.Stage2.{s2ap, xn, stage2_cause, stage2_answer};

use crate::answers::{Kind, Stage, Stop, descriptor_answer, fault_unless};
use crate::steps::{meet, remover};
use records::access::{Access, Rights};
use records::descriptor::Stage2;

// S2AP.
fn s2ap(e: Stage2) -> Rights
    ensures { result ≡ s2ap e }
{
    Rights {
        pr: e.read,
        pw: e.write,
        px: true,
        ur: e.read,
        uw: e.write,
        ux: true,
    }
}

// What XN leaves of the rights before it.
fn xn(r: Rights, e: Stage2) -> Rights
    ensures { result ≡ meet r (xn e) }
{
    let xn = e.xn;
    let kept = Rights {
        pr: true,
        pw: true,
        px: (xn == 0) | (xn == 3),
        ur: true,
        uw: true,
        ux: xn < 2,
    };
    meet(r, kept)
}

// The first remover of an access, 0 if none is: S2AP, XN.
#[tactic(auto, unfolding(crate::specs::Stage2::stage2_cause))]
fn stage2_cause(e: Stage2, a: Access) -> u8
    ensures { result ≡ stage2_cause e a }
{
    let after_s2ap = s2ap(e);
    let after_xn = xn(after_s2ap, e);
    remover(after_s2ap, a, 9, remover(after_xn, a, 10, 0))
}

// All steps of stage 2.
#[tactic(auto, unfolding(crate::specs::Stage2::stage2_answer))]
pub(crate) fn stage2_answer(e: Stage2, a: Access) -> Result<(), Stop>
    ensures { result ≡ stage2_answer e a }
{
    descriptor_answer(Stage::Two, 13, 14, e.valid, e.af, e.bit51)?;
    let cause = stage2_cause(e, a);
    fault_unless(cause == 0, Stage::Two, Kind::Permission, cause)
}
