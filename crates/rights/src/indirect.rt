// Indirect permissions: the code at PIIndex in PIR privileged and, with two levels, in PIR unprivileged.
ghost use Rattle.std.specs.Prelude.{◌≡◌, ◌%◌, get_or};
ghost use Rattle.rights.specs.Indirect.{code_of, codes_at, reserved_code, unjudged_code, code_rights, code_overlays};
ghost use Rattle.rights.specs.Mirror.BaseMasks.{codes};

use records::access::Rights;
use records::descriptor::index::PIIndex;
use records::setup::PerLevel;

// What a base code means.
#[derive(Clone, Copy)]
pub(crate) struct Code {
    pub read: bool,
    pub write: bool,
    pub execute: bool,
    // Overlays apply.
    pub overlay: bool,
    pub reserved: bool,
    // A permission form that is not judged yet.
    pub unjudged: bool,
}

// The bits of an entry of `CODES`.
const R: u8 = 1;

const W: u8 = 2;

const X: u8 = 4;

const OVERLAY: u8 = 8;

const RESERVED: u8 = 16;

const UNJUDGED: u8 = 32;

// The sixteen base codes: their rights, and whether overlays apply.
const CODES: [u8; 16] = [
    OVERLAY, // 0: none
    R + OVERLAY, // 1
    X + OVERLAY, // 2
    R + X + OVERLAY, // 3
    RESERVED + OVERLAY, // 4
    R + W + OVERLAY, // 5
    UNJUDGED + OVERLAY, // 6
    R + W + X + OVERLAY, // 7
    R, // 8
    R, // 9: its GCS right is not covered
    R + X, // 10
    RESERVED, // 11
    R + W, // 12
    RESERVED, // 13
    R + W + X, // 14
    RESERVED, // 15
];

// The bits of a base code. A code has four bits: taken modulo 16, no number lies past the table.
pub(crate) fn code_bits(n: u8) -> u8
    ensures { result ≡ get_or codes (n % 16) 0 }
{
    let i = (n % 16) as usize;
    CODES[i]
}

// The meaning of a base code.
fn base_code(n: u8) -> Code
    ensures { result ≡ code_of n }
{
    let b = code_bits(n);
    Code {
        read: (b >> 0) % 2 == 1,
        write: (b >> 1) % 2 == 1,
        execute: (b >> 2) % 2 == 1,
        overlay: (b >> 3) % 2 == 1,
        reserved: (b >> 4) % 2 == 1,
        unjudged: (b >> 5) % 2 == 1,
    }
}

// The codes at a PIIndex of both PIRs.
#[tactic(auto, unfolding(crate::specs::Indirect::codes_at))]
pub(crate) fn codes_at(pir: PerLevel<u64>, i: PIIndex) -> PerLevel<Code>
    ensures { result ≡ codes_at pir i }
{
    PerLevel {
        privileged: base_code(i.code(pir.privileged)),
        unprivileged: base_code(i.code(pir.unprivileged)),
    }
}

// 6: a reserved code.
pub(crate) fn reserved_code(two: bool, k: PerLevel<Code>) -> bool
    ensures { result ≡ reserved_code two k }
{
    k.privileged.reserved | two & k.unprivileged.reserved
}

// 7: a form that is not judged.
pub(crate) fn unjudged_code(two: bool, k: PerLevel<Code>) -> bool
    ensures { result ≡ unjudged_code two k }
{
    k.privileged.unjudged
        | two & k.unprivileged.unjudged
        | k.privileged.execute & (two & k.unprivileged.write)
}

// The rights of both codes.
pub(crate) fn code_rights(two: bool, k: PerLevel<Code>) -> Rights
    ensures { result ≡ code_rights two k }
{
    Rights {
        pr: k.privileged.read,
        pw: k.privileged.write,
        px: k.privileged.execute,
        ur: two & k.unprivileged.read,
        uw: two & k.unprivileged.write,
        ux: two & k.unprivileged.execute,
    }
}

// Where overlays apply.
pub(crate) fn code_overlays(k: PerLevel<Code>) -> PerLevel<bool>
    ensures { result ≡ code_overlays k }
{
    PerLevel {
        privileged: k.privileged.overlay,
        unprivileged: k.unprivileged.overlay,
    }
}
