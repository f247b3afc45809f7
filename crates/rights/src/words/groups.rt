// The words of a leaf by groups of fields that stand side by side in a descriptor. A long list first makes a table of each group from the tables of single
// fields, with an entry for each value of the group's bits. No public function has a `requires`. An entry's number is taken apart into its fields here, as
// records::descriptor::places has them.
ghost use Rattle.std.specs.Prelude.{◌≡◌, ℕ, cond, ◌≤◌, ◌<◌, get_or};
ghost use Rattle.records.specs.declared.descriptor.places.Places.{Places};
ghost use Rattle.rights.specs.Mirror.Groups.{known_mask, levels_mask, state_at, low_pair, flag_pair, state_pair, never_pair, s2ap_word, limits_pair, codes_pair, applies_at, slots_pair, Grouped, SlotsGrouped, IsStage2, IsStage2If, IsDirect, IsIndirect, stage2_at, stage2_grouped, slots_grouped, direct_grouped, indirect_grouped, off_grouped};

use crate::words::pair::{Pair, Table};
use crate::words::tables::{
    descriptor_words, last_words, limits_words, permissions2_words, privileged_code_words,
    privileged_slot_words, state1_words, state2_words, unprivileged_code_words,
    unprivileged_slot_words,
};
use crate::words::{
    MASK_ALL, MASK_ONE_LEVEL, MASK_UNKNOWN, WHOLE, code_if, last_index, levels_word, limits_if,
    off_word, slot_if,
};
use records::descriptor::fields::ByMemory;
use records::descriptor::index::{PIIndex, POIndex};
use records::descriptor::places::{Places, SlotsPlace, codes_descriptor, slots_descriptor};
use records::setup::{Control, Setup};
use records::table::table_of;

// The entries beside which execute never stands in the tables of both: with S2AP 11, and with AP 01.
const READ_WRITE: usize = 3;

const AP_01: usize = 1;

// The part of the table of slots where overlays apply to the rights of both levels. A number: must-fail/overlay_of_unprivileged_alone is about its bits.
const BOTH_LEVELS: u8 = 48;

// Stage 2's groups: valid with MemAttr (descriptor bits 5 to 0), AF with SH (10 to 8), dirty state with XN (54 to 51). S2AP is the last field.
#[derive(Drop)]
pub struct Stage2Groups {
    low: Table<64>,
    flags: Table<8>,
    never: Table<16>,
    s2ap: [u64; 4],
}

// What stage 2 makes of a descriptor at places `e`.
pub trait Stage2 {
    ghost number: { Self → Places → ℕ };

    fn word(&self, e: Places) -> u64
        ensures { result ≡ number self.now e };
}

// What stage 1 makes of a descriptor at places `d` with limits `l`, before the word of what follows.
pub trait Stage1Groups {
    ghost number: { Self → Places → ℕ → ℕ → ℕ };

    fn word(&self, d: Places, l: u8, w: u64) -> u64
        ensures { result ≡ number self.now d l w };
}

// Stage 1's groups under Direct: valid with AttrIndx (bits 4 to 0 and 59), AF with SH (10 to 8), dirty state with PXN and UXN (54 to 51), AP with the limits;
// and the slots, where an overlay is on.
#[derive(Drop)]
pub struct DirectGroups {
    low: Table<64>,
    flags: Table<8>,
    never: Table<16>,
    limits: Table<64>,
    slots: Option<Table<64>>,
}

// The same under Indirect: valid with AttrIndx, AF with SH and dirty state (10 to 7), the base codes, and the part of the table of slots that they pick.
#[derive(Drop)]
pub struct IndirectGroups {
    low: Table<64>,
    state: Table<16>,
    codes: Table<32>,
    applies: [u8; 32],
    slots: Option<Table<64>>,
}

// Stage 1 that is off: it has no table.
#[derive(Drop)]
pub struct OffGroups {
    two: bool,
}

// All that a word has; and without what is good, where memory is refused.
fn known_mask(refused: bool) -> u64
    ensures { result ≡ known_mask refused }
{
    if refused {
        return MASK_UNKNOWN;
    }
    MASK_ALL
}

// All that a word has; and what is judged with one level.
fn levels_mask(two: bool) -> u64
    ensures { result ≡ levels_mask two }
{
    if two {
        return MASK_ALL;
    }
    MASK_ONE_LEVEL
}

// Valid, AF and dirty state of a stage.
fn state_at(t: &[Pair; 8], valid: usize, af: usize, dirty: usize) -> Pair
    requires { (valid < 2) × (af < 2) × (dirty < 2) }
    ensures { result ≡ state_at t.now valid af dirty }
{
    t[valid + af * 2 + dirty * 4]
}

// Valid, bit 0 of `k`, with AttrIndx or MemAttr, `k / 4`, under a mask.
fn low_entry(t: &[Pair; 8], m: &ByMemory, mask: u64, k: usize) -> Pair
    requires { k < 64 }
    ensures { result ≡ low_pair t.now m.now mask k }
{
    let p = state_at(t, k % 2, 1, 0);
    p.masked(known_mask(m.kind[k / 4])).masked(mask)
}

fn low_group(t: &[Pair; 8], m: &ByMemory, mask: u64) -> Table<64>
    ensures { Grouped 64 (low_pair t.now m.now mask) result }
{
    Table::of(|k| low_entry(t, m, mask, k))
}

// AF, bit 2 of `k`, with SH.
fn flag_entry(t: &[Pair; 8], m: &ByMemory, k: usize) -> Pair
    requires { k < 8 }
    ensures { result ≡ flag_pair t.now m.now k }
{
    let p = state_at(t, 1, k / 4, 0);
    p.masked(known_mask(m.sh[k % 4]))
}

fn flag_group(t: &[Pair; 8], m: &ByMemory) -> Table<8>
    ensures { Grouped 8 (flag_pair t.now m.now) result }
{
    Table::of(|k| flag_entry(t, m, k))
}

// Dirty state, bit 0 of `k`, with SH and AF, under Indirect.
fn state_entry(m: &ByMemory, k: usize) -> Pair
    requires { k < 16 }
    ensures { result ≡ state_pair m.now k }
{
    let t = state1_words();
    let p = state_at(t, 1, k / 8, 0).before(state_at(t, 1, 1, k % 2));
    p.masked(known_mask(m.sh[k / 2 % 4]))
}

fn state_group(m: &ByMemory) -> Table<16>
    ensures { Grouped 16 (state_pair m.now) result }
{
    Table::of(|k| state_entry(m, k))
}

// Dirty state, bit 0 of `k`, with execute never, `k / 4`: PXN and UXN, or XN. Their pairs stand in `b` beside an AP or S2AP, `beside`, that takes nothing which
// another one leaves.
fn never_entry(t: &[Pair; 8], b: &[Pair; 16], beside: usize, k: usize) -> Pair
    requires { (beside < 4) × (k < 16) }
    ensures { result ≡ never_pair t.now b.now beside k }
{
    let p = state_at(t, 1, 1, k % 2);
    p.before(b[beside + k / 4 * 4])
}

fn never_group(t: &[Pair; 8], b: &[Pair; 16], beside: usize) -> Table<16>
    requires { beside < 4 }
    ensures { Grouped 16 (never_pair t.now b.now beside) result }
{
    Table::of(|k| never_entry(t, b, beside, k))
}

// AP, bits 1 and 0 of `k`, with the limits and the steps that read rights.
fn limits_entry(c: Control, k: usize) -> Pair
    requires { k < 64 }
    ensures { result ≡ limits_pair c k }
{
    let first = descriptor_words(c.two)[k % 4];
    let second = limits_words(c.two)[limits_if(c.unlimited, (k / 4) as u8)];
    let last = last_words()[last_index(c.wxn, c.pan, first.keeps & second.keeps)];
    first.before(second.before(last))
}

fn limits_group(c: Control) -> Table<64>
    ensures { Grouped 64 (limits_pair c) result }
{
    Table::of(|k| limits_entry(c, k))
}

// The base codes of both levels that the descriptor of entry `k` picks.
fn codes_entry(s: Setup, k: usize) -> Pair
    requires { k < 32 }
    ensures { result ≡ codes_pair s k }
{
    let i = PIIndex::of(codes_descriptor(k));
    let p = (i.code(s.pir.privileged) % 16) as usize;
    let u = code_if(s.control.two, i.code(s.pir.unprivileged));
    privileged_code_words()[p].before(unprivileged_code_words()[u])
}

fn codes_group(s: Setup) -> Table<32>
    ensures { Grouped 32 (codes_pair s) result }
{
    Table::of(|k| codes_entry(s, k))
}

// The slots of both levels that the descriptor of entry `k` picks, where bits 4 and 5 of `k`, the part, say whether overlays apply.
fn slots_entry(s: Setup, k: usize) -> Pair
    requires { k < 64 }
    ensures { result ≡ slots_pair s k }
{
    let i = POIndex::of(slots_descriptor(k));
    let on = s.control.overlay;
    let p = slot_if(on.privileged & (k / 16 % 2 == 1), i.slot(s.por.privileged));
    let u = slot_if(on.unprivileged & (k / 32 == 1), i.slot(s.por.unprivileged));
    privileged_slot_words()[p].before(unprivileged_slot_words()[u])
}

fn slots_table(s: Setup) -> Table<64>
    ensures { Grouped 64 (slots_pair s) result }
{
    Table::of(|k| slots_entry(s, k))
}

// The table of slots, with a part for each choice of the base codes to which overlays apply, where an overlay is on.
fn slots_group(s: Setup) -> Option<Table<64>>
    ensures { SlotsGrouped s result }
{
    let on = s.control.overlay;
    if on.privileged | on.unprivileged {
        return Some(slots_table(s));
    }
    None
}

// The part of the table of slots, by the base codes to which overlays apply: 16 for the privileged one, 32 for the unprivileged one.
fn applies_entry(s: Setup, k: usize) -> u8
    requires { k < 32 }
    ensures { result ≡ applies_at s k }
{
    let i = PIIndex::of(codes_descriptor(k));
    let p = i.code(s.pir.privileged) % 16;
    let u = i.code(s.pir.unprivileged);
    u8::from(p < 8) * 16 + u8::from(u < 8) * 32
}

fn applies_group(s: Setup) -> [u8; 32]
    ensures { (k : ℕ) → k < 32 → get_or result k 0 ≡ applies_at s k }
{
    table_of(|k| applies_entry(s, k))
}

// The word of S2AP, the last field.
fn s2ap_word(k: usize) -> u64
    requires { k < 4 }
    ensures { result ≡ s2ap_word k }
{
    permissions2_words()[k].join(WHOLE)
}

// The slots, where an overlay is on, of a descriptor at place `d` in a part of the table.
fn slots_grouped(slots: &Option<Table<64>>, d: SlotsPlace, part: u8, w: u64) -> u64
    ensures { result ≡ slots_grouped slots.now d part w }
{
    match slots {
        Some(t) => {
            let p = Pair {
                keeps: d.pick(&t.keeps, part),
                takes: d.pick(&t.takes, part),
            };
            p.join(w)
        }
        None => w,
    }
}

impl Stage2Groups {
    // The tables, where `m` has what is refused of stage 2's memory.
    pub fn of(m: &ByMemory) -> Stage2Groups
        ensures { IsStage2 m.now result }
    {
        let t = state2_words();
        Stage2Groups {
            low: low_group(t, m, levels_mask(true)),
            flags: flag_group(t, m),
            never: never_group(t, permissions2_words(), READ_WRITE),
            s2ap: table_of(|k| s2ap_word(k)),
        }
    }
}

impl Stage2 for Stage2Groups {
    ghost number = { stage2_at };

    #[tactic(auto, unfolding(crate::specs::Mirror::Groups::stage2_at))]
    fn word(&self, e: Places) -> u64 {
        let left = self.never.join(e.never % 16, self.s2ap[e.ap % 4]);
        self.low
            .join(e.low2 % 64, self.flags.join(e.flags % 8, left))
    }
}

// The tables of stage 2, where it is on.
pub fn stage2_groups(on: bool, m: &ByMemory) -> Option<Stage2Groups>
    ensures { IsStage2If m.now on result }
{
    if on {
        return Some(Stage2Groups::of(m));
    }
    None
}

// Nothing is taken away where it is off.
impl Stage2 for Option<Stage2Groups> {
    ghost number = { stage2_grouped };

    fn word(&self, e: Places) -> u64 {
        match self {
            Some(on) => on.word(e),
            None => WHOLE,
        }
    }
}

impl DirectGroups {
    // The tables of a setup, where `m` has what is refused of stage 1's memory.
    pub fn of(s: Setup, m: &ByMemory) -> DirectGroups
        ensures { IsDirect s m.now result }
    {
        let t = state1_words();
        let two = s.control.two;
        DirectGroups {
            low: low_group(t, m, levels_mask(two)),
            flags: flag_group(t, m),
            never: never_group(t, descriptor_words(two), AP_01),
            limits: limits_group(s.control),
            slots: slots_group(s),
        }
    }
}

impl Stage1Groups for DirectGroups {
    ghost number = { direct_grouped };

    #[tactic(auto, unfolding(crate::specs::Mirror::Groups::direct_grouped))]
    fn word(&self, d: Places, l: u8, w: u64) -> u64 {
        let overlaid = slots_grouped(&self.slots, d.slots, BOTH_LEVELS, w);
        let left = self.limits.join(d.ap % 4 + (l % 16) as usize * 4, overlaid);
        let kept = self
            .flags
            .join(d.flags % 8, self.never.join(d.never % 16, left));
        self.low.join(d.low1 % 64, kept)
    }
}

impl IndirectGroups {
    // The tables of a setup, where `m` has what is refused of stage 1's memory.
    pub fn of(s: Setup, m: &ByMemory) -> IndirectGroups
        ensures { IsIndirect s m.now result }
    {
        IndirectGroups {
            low: low_group(state1_words(), m, levels_mask(s.control.two)),
            state: state_group(m),
            codes: codes_group(s),
            applies: applies_group(s),
            slots: slots_group(s),
        }
    }
}

impl Stage1Groups for IndirectGroups {
    ghost number = { indirect_grouped };

    #[tactic(auto, unfolding(crate::specs::Mirror::Groups::indirect_grouped))]
    fn word(&self, d: Places, _: u8, w: u64) -> u64 {
        let c = d.codes;
        let overlaid = slots_grouped(&self.slots, d.slots, c.pick(&self.applies), w);
        let codes = Pair {
            keeps: c.pick(&self.codes.keeps),
            takes: c.pick(&self.codes.takes),
        };
        let left = self.state.join(d.state % 16, codes.join(overlaid));
        self.low.join(d.low1 % 64, left)
    }
}

impl OffGroups {
    // With two levels, or with one.
    pub fn of(two: bool) -> OffGroups
        ensures { result.two ≡ two }
    {
        OffGroups { two }
    }
}

impl Stage1Groups for OffGroups {
    ghost number = { off_grouped };

    fn word(&self, _: Places, _: u8, w: u64) -> u64 {
        levels_word(self.two, off_word(w))
    }
}
