// Shareability. Part of the attribute layer. A descriptor's SH has two bits.
ghost use Rattle.std.specs.Prelude.{◌≡◌};
ghost use Rattle.attributes.specs.Shareability.{reserved_sh, uncached, stronger, stage1_sh, stage2_sh, combined_sh};

use crate::mair::is_device;
use crate::stage2::{mem_attr, uncached_code};
use records::descriptor::{Stage1, Stage2};
use records::setup::Setup;

// SH is 01 in a stage that is on.
#[tactic(auto, unfolding(crate::specs::Shareability::reserved_sh))]
pub(crate) fn reserved_sh(s: Setup, d: Stage1, e: Stage2) -> bool
    ensures { result ≡ reserved_sh s d e }
{
    s.control.stage1 & (d.sh % 4 == 1) | s.control.stage2 & (e.sh % 4 == 1)
}

// A Device or 44.
fn uncached_byte(b: u8) -> bool
    ensures { result ≡ uncached b }
{
    is_device(b) | (b == 0x44)
}

// Outer (2), else inner (3), else none (0).
fn stronger_sh(x: u8, y: u8) -> u8
    ensures { result ≡ stronger x y }
{
    if (x == 2) | (y == 2) {
        return 2;
    }
    if (x == 3) | (y == 3) {
        return 3;
    }
    0
}

// Stage 1's SH, where `b` is its byte.
#[tactic(auto, unfolding(crate::specs::Shareability::stage1_sh))]
fn stage1_sh(s: Setup, d: Stage1, b: u8) -> u8
    ensures { result ≡ stage1_sh s d b }
{
    if s.control.stage1 {
        if uncached_byte(b) {
            return 2;
        }
        return d.sh % 4;
    }
    if s.control.dc {
        return 0;
    }
    2
}

// Stage 2's SH.
#[tactic(auto, unfolding(crate::specs::Shareability::stage2_sh))]
fn stage2_sh(e: Stage2) -> u8
    ensures { result ≡ stage2_sh e }
{
    if uncached_code(mem_attr(e)) {
        return 2;
    }
    e.sh % 4
}

// The answer's SH, where stage 1's byte is `b` and the answer's is `res`.
#[tactic(auto, unfolding(crate::specs::Shareability::combined_sh))]
pub(crate) fn combined_sh(s: Setup, d: Stage1, e: Stage2, b: u8, res: u8) -> u8
    ensures { result ≡ combined_sh s d e b res }
{
    if uncached_byte(res) {
        return 2;
    }
    let sh = stage1_sh(s, d, b);
    if s.control.stage2 {
        return stronger_sh(sh, stage2_sh(e));
    }
    sh
}
