// What the rights layer promises the planner: what it asks of a leaf at a level, and the slot bits of rights. No public function has a `requires`.
ghost use Rattle.std.specs.Prelude.{◌≡◌, ◌<◌};
ghost use Rattle.rights.specs.Mirror.Table.{range_by};
ghost use Rattle.rights.specs.Promise.{slot_of};

use crate::pass::level::{level_mask, slot_bits};
use crate::pass::stage1::stage1_mask;
use crate::pass::stage2::stage2_mask;
use crate::pass::table::BaseTable;
use records::access::Level;
use records::descriptor::index::POIndex;
use records::refusal::Refusal;

// The place of the leaf's slot, and the rights of the level as bits 0 to 2 with every slot bit on and with every one off.
#[derive(Clone, Copy)]
pub struct RangeMask {
    pub place: usize,
    pub full: u8,
    pub bare: u8,
}

// What a setup decides for a level: its control word, whether that level's overlay is on, and its tables for stage 1.
#[derive(Clone, Copy)]
pub struct LevelSetup {
    pub level: Level,
    pub control: u32,
    pub on: bool,
    pub base: BaseTable,
}

impl LevelSetup {
    // The refusal that an access of the level meets with 77777777 in place of that level's POR, or the range of its rights: `d` and `e` are the descriptors,
    // `t` is the limits.
    #[tactic(auto, unfolding(crate::specs::Mirror::Table::range_by))]
    pub fn range(&self, d: u64, e: u64, t: u8) -> Result<RangeMask, Refusal>
        ensures { result ≡ range_by self.now.control self.now.on self.now.base d e t self.now.level }
    {
        let first = stage1_mask(&self.base, self.control, d, t);
        let second = stage2_mask(self.control, e);
        let i = POIndex::of(d);
        Ok(RangeMask {
            place: i.place(),
            full: level_mask(self.on, first, 7, second, self.level)?,
            bare: level_mask(self.on, first, 0, second, self.level)?,
        })
    }
}

// The slot that has the bits of these rights: a slot's bits are R, X, W and those of rights R, W, X. What a slot grants is its bits with X and W
// exchanged, and so is the slot of some rights.
pub fn slot_of(rights: u8) -> u8
    ensures { (result ≡ slot_of rights) × (result < 8) }
{
    slot_bits(true, rights)
}
