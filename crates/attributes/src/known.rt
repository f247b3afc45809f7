// Tables that a setup decides once, by which it is known of each leaf whether 8, 8 or 9 refuses it. Part of the attribute layer. `d` and `e`
// are the descriptors whole, whose fields `records` reads. No public function has a `requires`.
ghost use Rattle.std.specs.Prelude.{◌≡◌, ◌<◌};
ghost use Rattle.attributes.specs.Mirror.Known.{bad_byte, bad_code, bad_sh, IsRefused, known_with};

use crate::mair::{mair_byte, valid_byte};
use crate::stage2::reserved_code;
use records::descriptor::fields::{ByMemory, attrindx, memattr, shareability};
use records::setup::Control;
use records::table::table_of;

// What is refused of the memory fields of both stages.
#[derive(Clone, Copy)]
pub struct Refused {
    pub stage1: ByMemory,
    pub stage2: ByMemory,
}

// 8 at stage 1 for AttrIndx `k`: AttrIndx[3] is set from 8 on.
fn bad_byte(c: Control, mair: u64, mair2: u64, k: usize) -> bool
    requires { k < 16 }
    ensures { result ≡ bad_byte c mair mair2 k }
{
    c.stage1 & !valid_byte(mair_byte(c.aie, mair, mair2, k as u8, k / 8 == 1))
}

// 8 at stage 2 for MemAttr `k`.
fn bad_code(c: Control, k: usize) -> bool
    requires { k < 16 }
    ensures { result ≡ bad_code c k }
{
    c.stage2 & reserved_code(c.fwb, k as u8)
}

// 9 by SH, for a stage that is on or off.
fn bad_sh(on: bool) -> [bool; 4]
    ensures { result ≡ bad_sh on }
{
    [false, on, false, false]
}

// The tables of a setup.
pub fn refused_memory(c: Control, mair: u64, mair2: u64) -> Refused
    ensures { IsRefused c mair mair2 result }
{
    Refused {
        stage1: ByMemory {
            kind: table_of(|k| bad_byte(c, mair, mair2, k)),
            sh: bad_sh(c.stage1),
        },
        stage2: ByMemory {
            kind: table_of(|k| bad_code(c, k)),
            sh: bad_sh(c.stage2),
        },
    }
}

impl Refused {
    // By a setup's tables the attribute steps refuse nothing.
    #[tactic(auto, unfolding(crate::specs::Mirror::Known::known_with))]
    pub fn is_known(&self, d: u64, e: u64) -> bool
        ensures { result ≡ known_with self.now d e }
    {
        !self.stage1.kind[attrindx(d)]
            & !self.stage2.kind[memattr(e)]
            & !self.stage1.sh[shareability(d)]
            & !self.stage2.sh[shareability(e)]
    }
}
