// Direct permissions (document 01, 'Stage 1 rights'), one access by its steps: the first that takes it away is its cause (request A1).
ghost use Rattle.std.specs.Prelude.{◌≡◌};
ghost use Rattle.rights.specs.Direct.{ap, ap_one, ap_table, execute_never, unprivileged_write, wxn, pan, steps_two, steps_one, direct_cause};
ghost use Rattle.rights.specs.Steps.{everything, meet, first_remover};

use crate::steps::{meet, remover};
use records::access::{Access, Rights};
use records::descriptor::{Limits, Stage1};
use records::setup::Control;

// AP, with two levels. Each step after it gives what it leaves of the rights `r` before it.
fn ap(ap2: bool, ap1: bool) -> Rights
    ensures { result ≡ ap ap2 ap1 }
{
    Rights {
        pr: true,
        pw: !ap2,
        px: true,
        ur: ap1,
        uw: ap1 & !ap2,
        ux: true,
    }
}

// AP, with one level.
fn ap_one(ap2: bool) -> Rights
    ensures { result ≡ ap_one ap2 }
{
    Rights {
        pr: true,
        pw: !ap2,
        px: true,
        ur: false,
        uw: false,
        ux: false,
    }
}

// APTable.
fn ap_table(r: Rights, t1: bool, t0: bool) -> Rights
    ensures { result ≡ meet r (ap_table t1 t0) }
{
    let kept = Rights {
        pr: true,
        pw: !t1,
        px: true,
        ur: !t0,
        uw: !t1 & !t0,
        ux: true,
    };
    meet(r, kept)
}

// PXN and UXN, or their tables.
fn execute_never(r: Rights, p: bool, u: bool) -> Rights
    ensures { result ≡ meet r (execute_never p u) }
{
    let kept = Rights {
        pr: true,
        pw: true,
        px: !p,
        ur: true,
        uw: true,
        ux: !u,
    };
    meet(r, kept)
}

// Unprivileged write: `uw` is that of the rights before it.
fn unprivileged_write(r: Rights, uw: bool) -> Rights
    ensures { result ≡ meet r (unprivileged_write uw) }
{
    let kept = Rights {
        pr: true,
        pw: true,
        px: !uw,
        ur: true,
        uw: true,
        ux: true,
    };
    meet(r, kept)
}

fn wxn(r: Rights, on: bool) -> Rights
    ensures { result ≡ meet r (wxn on r) }
{
    let kept = Rights {
        pr: true,
        pw: true,
        px: !(on & r.pw),
        ur: true,
        uw: true,
        ux: !(on & r.uw),
    };
    meet(r, kept)
}

fn pan(r: Rights, on: bool) -> Rights
    ensures { result ≡ meet r (pan on r) }
{
    let kept = Rights {
        pr: !(on & (r.ur | r.uw)),
        pw: !(on & (r.ur | r.uw)),
        px: true, // PAN takes no execution away
        ur: true,
        uw: true,
        ux: true,
    };
    meet(r, kept)
}

// The first remover of an access, 0 if none is, with two levels: AP, APTable, PXN and UXN, their tables, unprivileged write, WXN, PAN.
fn two_levels(c: Control, d: Stage1, t: Limits, a: Access) -> u8
    ensures { result ≡ first_remover a everything (steps_two c d t) }
{
    let limited = !c.unlimited;
    let aptable1 = t.aptable1 & limited;
    let aptable0 = t.aptable0 & limited;
    let pxntable = t.pxntable & limited;
    let uxntable = t.uxntable & limited;
    let pxn = d.pxn;
    let uxn = d.uxn;
    let on = c.wxn;
    let after_ap = ap(d.ap2, d.ap1);
    let after_aptable = ap_table(after_ap, aptable1, aptable0);
    let after_pxn = execute_never(after_aptable, pxn, uxn);
    let after_pxntable = execute_never(after_pxn, pxntable, uxntable);
    let uw = after_pxntable.uw;
    let after_uw = unprivileged_write(after_pxntable, uw);
    let after_wxn = wxn(after_uw, on);
    let after_pan = pan(after_wxn, c.pan);
    let from_wxn = remover(after_wxn, a, 6, remover(after_pan, a, 7, 0));
    let from_pxntable = remover(after_pxntable, a, 4, remover(after_uw, a, 5, from_wxn));
    let from_aptable = remover(after_aptable, a, 2, remover(after_pxn, a, 3, from_pxntable));
    remover(after_ap, a, 1, from_aptable)
}

// With one level: AP, APTable, XN, XNTable, WXN.
fn one_level(c: Control, d: Stage1, t: Limits, a: Access) -> u8
    ensures { result ≡ first_remover a everything (steps_one c d t) }
{
    let limited = !c.unlimited;
    let after_ap = ap_one(d.ap2);
    let after_aptable = ap_table(after_ap, t.aptable1 & limited, false);
    let after_xn = execute_never(after_aptable, d.uxn, false);
    let after_xntable = execute_never(after_xn, t.uxntable & limited, false);
    let after_wxn = wxn(after_xntable, c.wxn);
    let from_xntable = remover(after_xntable, a, 4, remover(after_wxn, a, 6, 0));
    let from_xn = remover(after_xn, a, 3, from_xntable);
    remover(after_ap, a, 1, remover(after_aptable, a, 2, from_xn))
}

// The first remover of an access under Direct.
#[tactic(auto, unfolding(crate::specs::Direct::direct_cause, crate::specs::Direct::direct_steps))]
pub(crate) fn direct_cause(c: Control, d: Stage1, t: Limits, a: Access) -> u8
    ensures { result ≡ direct_cause c d t a }
{
    if c.two {
        return two_levels(c, d, t, a);
    }
    one_level(c, d, t, a)
}
