// What a step of a stage leaves of the rights before it, and what took a missing right away (request A1).
ghost use Rattle.std.specs.Prelude.{◌≡◌, cond};
ghost use Rattle.records.specs.Access.{has};
ghost use Rattle.rights.specs.Steps.{meet};

use records::access::{Access, Rights};

// The rights that both have: what a step that keeps `k` leaves of `r`.
pub(crate) fn meet(r: Rights, k: Rights) -> Rights
    ensures { result ≡ meet r k }
{
    Rights {
        pr: r.pr & k.pr,
        pw: r.pw & k.pw,
        px: r.px & k.px,
        ur: r.ur & k.ur,
        uw: r.uw & k.uw,
        ux: r.ux & k.ux,
    }
}

// The first remover of an access: `cause`, if the right is missing in what its step left, or that of the steps after it.
pub(crate) fn remover(left: Rights, a: Access, cause: u8, later: u8) -> u8
    ensures { result ≡ cond (has left a) later cause }
{
    if records::access::has(left, a) {
        return later;
    }
    cause
}
