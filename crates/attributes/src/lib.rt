// The attribute layer (document 01, 'Memory type and shareability', and the last steps of 'The order a judgement is made in'): the MAIR byte
// and SH of an access, and the refusals 8 and 9. It sees a setup, the fields of both descriptors and whether the access executes; it sees no
// right, no limit, no forbidden access and no fault. The descriptor of a stage that is off is ignored.
//
// No public function has a `requires`: the fields of a record are read within their widths.
#![tactic(auto)]

mod combine;
pub mod known;
mod mair;
pub mod order;
mod shareability;
mod stage2;

// The MAIR byte and SH of an allowed access, as Arm encodes them: Demand2 and the C interface give them so.
#[derive(Clone, Copy)]
pub struct Memory {
    pub byte: u8,
    pub sh: u8,
}
