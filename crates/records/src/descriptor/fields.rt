// Fields of a descriptor as one number each, for tables that have an entry for each value. They read the bits that `read_stage1` and `read_stage2` read.
ghost use Rattle.std.specs.Prelude.{◌≡◌, ◌<◌};
ghost use Rattle.records.specs.Mirror.Fields.{state_of, permissions_of, attr_indx_of};
ghost use Rattle.records.specs.Descriptor.{mem_attr, sh};

// For each value of the fields of one stage's descriptor that say what memory it is, whether it has some property: AttrIndx or MemAttr, and SH.
#[derive(Clone, Copy)]
pub struct ByMemory {
    pub kind: [bool; 16],
    pub sh: [bool; 4],
}

// Valid, AF and bit 51, lowest first. With the bit as a const parameter this and the next would need a `requires` on it: no plainer.
pub fn state(d: u64) -> usize
    ensures { (result ≡ state_of 51 d) × (result < 8) }
{
    ((d >> 0) % 2 + (d >> 10) % 2 * 2 + (d >> 51) % 2 * 4) as usize
}

// Valid, AF and bit 7, lowest first.
pub fn indirect_state(d: u64) -> usize
    ensures { (result ≡ state_of 7 d) × (result < 8) }
{
    ((d >> 0) % 2 + (d >> 10) % 2 * 2 + (d >> 7) % 2 * 4) as usize
}

// AP[2:1], PXN and UXN of stage 1, lowest first; S2AP and XN of stage 2.
pub fn permissions(d: u64) -> usize
    ensures { (result ≡ permissions_of d) × (result < 16) }
{
    ((d >> 6) % 4 + (d >> 53) % 4 * 4) as usize
}

// AttrIndx, all four bits.
pub fn attrindx(d: u64) -> usize
    ensures { (result ≡ attr_indx_of d) × (result < 16) }
{
    ((d >> 2) % 8 + (d >> 59) % 2 * 8) as usize
}

// MemAttr.
pub fn memattr(e: u64) -> usize
    ensures { (result ≡ mem_attr e) × (result < 16) }
{
    ((e >> 2) % 16) as usize
}

// SH of either stage.
pub fn shareability(d: u64) -> usize
    ensures { (result ≡ sh d) × (result < 4) }
{
    ((d >> 8) % 4) as usize
}
