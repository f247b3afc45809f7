// Stage 1 of one access, step by step: the first fault or refusal is the answer.
ghost use Rattle.std.specs.Prelude.{◌≡◌};
ghost use Rattle.rights.specs.Stage1.{dirty, reserved_base, unjudged_base, base_cause, overlays_apply, base_answer, stage1_answer};

use crate::answers::{Kind, Stage, Stop, descriptor_answer, fault_unless};
use crate::indirect::codes_at;
use crate::overlay::overlay_answer;
use records::access::Access;
use records::descriptor::{Limits, Stage1};
use records::refusal::{Refusal, check_if};
use records::setup::{Control, PerLevel, Setup};

fn dirty_state(c: Control, d: Stage1) -> bool
    ensures { result ≡ dirty c d }
{
    if c.indirect {
        return d.bit7;
    }
    d.bit51
}

// Base codes: 6.
fn reserved_base(s: Setup, d: Stage1) -> bool
    ensures { result ≡ reserved_base s d }
{
    let pir = s.pir;
    let i = d.piindex;
    s.control.indirect & crate::indirect::reserved_code(s.control.two, codes_at(pir, i))
}

// Base codes: 7.
fn unjudged_base(s: Setup, d: Stage1) -> bool
    ensures { result ≡ unjudged_base s d }
{
    let pir = s.pir;
    let i = d.piindex;
    s.control.indirect & crate::indirect::unjudged_code(s.control.two, codes_at(pir, i))
}

// The first remover of a base right, 0 if it is there: the base code under Indirect, else by the steps of Direct.
#[tactic(auto, unfolding(crate::specs::Stage1::base_cause, crate::specs::Direct::direct_cause))]
fn base_cause(s: Setup, d: Stage1, t: Limits, a: Access) -> u8
    ensures { result ≡ base_cause s d t a }
{
    if s.control.indirect {
        let pir = s.pir;
        let i = d.piindex;
        let rights = crate::indirect::code_rights(s.control.two, codes_at(pir, i));
        return crate::steps::remover(rights, a, 1, 0);
    }
    let c = s.control;
    crate::direct::direct_cause(c, d, t, a)
}

// Where overlays apply to the base rights.
fn overlays_apply(s: Setup, d: Stage1) -> PerLevel<bool>
    ensures { result ≡ overlays_apply s d }
{
    if s.control.indirect {
        let pir = s.pir;
        let i = d.piindex;
        return crate::indirect::code_overlays(codes_at(pir, i));
    }
    PerLevel {
        privileged: true,
        unprivileged: true,
    }
}

// From the base codes on.
#[tactic(auto, unfolding(crate::specs::Stage1::base_answer))]
fn base_answer(s: Setup, d: Stage1, t: Limits, a: Access) -> Result<(), Stop>
    ensures { result ≡ base_answer s d t a }
{
    check_if(reserved_base(s, d), Refusal::ReservedCode)?;
    check_if(unjudged_base(s, d), Refusal::Unjudged)?;
    let cause = base_cause(s, d, t, a);
    fault_unless(cause == 0, Stage::One, Kind::Permission, cause)?;
    overlay_answer(s, d, overlays_apply(s, d), a)
}

// All steps of stage 1.
#[tactic(auto, unfolding(crate::specs::Stage1::stage1_answer))]
pub(crate) fn stage1_answer(s: Setup, d: Stage1, t: Limits, a: Access) -> Result<(), Stop>
    ensures { result ≡ stage1_answer s d t a }
{
    let c = s.control;
    descriptor_answer(Stage::One, 11, 12, d.valid, d.af, dirty_state(c, d))?;
    base_answer(s, d, t, a)
}
