// Stage 1's byte: the bytes of MAIR and MAIR2, and the byte with stage 1 off. Part of the attribute layer.
ghost use Rattle.std.specs.Prelude.{◌≡◌};
ghost use Rattle.attributes.specs.Mair.{is_device, valid_byte, picked_byte, off_byte, stage1_byte};

use records::descriptor::Stage1;
use records::setup::{Setup, byte_in};

// 00, 04, 08 or 0C.
pub(crate) fn is_device(b: u8) -> bool
    ensures { result ≡ is_device b }
{
    (b < 16) & (b % 4 == 0)
}

// A Device, or both nibbles are non-zero.
pub(crate) fn valid_byte(b: u8) -> bool
    ensures { result ≡ valid_byte b }
{
    is_device(b) | (b / 16 != 0) & (b % 16 != 0)
}

// The byte that AttrIndx picks in MAIR or MAIR2: `attrindx` is AttrIndx[2:0], `attrindx3` is AttrIndx[3].
pub(crate) fn mair_byte(aie: bool, mair: u64, mair2: u64, attrindx: u8, attrindx3: bool) -> u8
    ensures { result ≡ picked_byte aie mair mair2 attrindx attrindx3 }
{
    if aie & attrindx3 {
        return byte_in(mair2, attrindx);
    }
    byte_in(mair, attrindx)
}

// The byte with stage 1 off.
#[tactic(auto, unfolding(crate::specs::Mair::off_byte))]
fn off_byte(s: Setup, fetch: bool) -> u8
    ensures { result ≡ off_byte s fetch }
{
    if s.control.dc {
        return 0xFF;
    }
    if fetch {
        if s.control.icacheable {
            return 0xAA;
        }
        return 0x44;
    }
    0x00
}

// Stage 1's byte, where `fetch` is whether the access executes.
#[tactic(auto, unfolding(crate::specs::Mair::mair_byte, crate::specs::Mair::stage1_byte))]
pub(crate) fn stage1_byte(s: Setup, d: Stage1, fetch: bool) -> u8
    ensures { result ≡ stage1_byte s d fetch }
{
    if s.control.stage1 {
        return mair_byte(s.control.aie, s.mair, s.mair2, d.attrindx, d.attrindx3);
    }
    off_byte(s, fetch)
}
