// The fields of a descriptor and of a limits byte, and the two indices that a stage 1 descriptor holds (document 01, 'Setup and leaf records').
// Part of the record layer. It reads numbers, and bytes only in `places`, and judges nothing. No public function but `places::leaf_places` has a `requires`.
ghost use Rattle.std.specs.Prelude.{◌≡◌};
ghost use Rattle.records.specs.Descriptor.{limits_of, stage1_of, stage2_of};

pub mod fields;
pub mod index;
pub mod places;

use crate::descriptor::index::{PIIndex, POIndex};

// Table limits, gathered over the walk.
#[derive(Clone, Copy)]
pub struct Limits {
    pub aptable0: bool,
    pub aptable1: bool,
    pub pxntable: bool,
    // XNTable with one level.
    pub uxntable: bool,
}

// The fields of a stage 1 descriptor. `bit7` and `bit51` are the bits that tell dirty state under Indirect and Direct.
#[derive(Clone, Copy)]
pub struct Stage1 {
    pub valid: bool,
    pub attrindx: u8,
    pub ap1: bool,
    pub ap2: bool,
    pub sh: u8,
    pub af: bool,
    pub pxn: bool,
    // XN with one level.
    pub uxn: bool,
    pub attrindx3: bool,
    pub piindex: PIIndex,
    pub poindex: POIndex,
    pub bit7: bool,
    pub bit51: bool,
}

// The fields of a stage 2 descriptor. `read` and `write` are bits 0 and 1 of S2AP; `bit51` tells dirty state.
#[derive(Clone, Copy)]
pub struct Stage2 {
    pub valid: bool,
    pub memattr: u8,
    pub read: bool,
    pub write: bool,
    pub sh: u8,
    pub af: bool,
    pub xn: u8,
    pub bit51: bool,
}

// The limits of a limits byte.
#[tactic(auto, unfolding(crate::specs::Descriptor::limits_of))]
pub fn read_limits(l: u8) -> Limits
    ensures { result ≡ limits_of l }
{
    Limits {
        aptable0: (l >> 0) % 2 == 1,
        aptable1: (l >> 1) % 2 == 1,
        pxntable: (l >> 2) % 2 == 1,
        uxntable: (l >> 3) % 2 == 1,
    }
}

// The fields of a stage 1 descriptor.
#[tactic(auto, unfolding(crate::specs::Descriptor::stage1_of))]
pub fn read_stage1(d: u64) -> Stage1
    ensures { result ≡ stage1_of d }
{
    Stage1 {
        valid: (d >> 0) % 2 == 1,
        attrindx: ((d >> 2) % 8) as u8,
        ap1: (d >> 6) % 2 == 1,
        ap2: (d >> 7) % 2 == 1,
        sh: ((d >> 8) % 4) as u8,
        af: (d >> 10) % 2 == 1,
        pxn: (d >> 53) % 2 == 1,
        uxn: (d >> 54) % 2 == 1,
        attrindx3: (d >> 59) % 2 == 1,
        piindex: PIIndex::of(d),
        poindex: POIndex::of(d),
        bit7: (d >> 7) % 2 == 1,
        bit51: (d >> 51) % 2 == 1,
    }
}

// The fields of a stage 2 descriptor.
#[tactic(auto, unfolding(crate::specs::Descriptor::stage2_of))]
pub fn read_stage2(d: u64) -> Stage2
    ensures { result ≡ stage2_of d }
{
    Stage2 {
        valid: (d >> 0) % 2 == 1,
        memattr: ((d >> 2) % 16) as u8,
        read: (d >> 6) % 2 == 1,
        write: (d >> 7) % 2 == 1,
        sh: ((d >> 8) % 4) as u8,
        af: (d >> 10) % 2 == 1,
        xn: ((d >> 53) % 4) as u8,
        bit51: (d >> 51) % 2 == 1,
    }
}
