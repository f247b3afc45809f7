// All accesses of a leaf at once, rights and causes, by words (words/tables.rt). Each field of a leaf keeps some accesses of those that the fields after it
// leave, in the order of the causes, last first: one word comes out that has in byte a the cause of access a, in bits 48 to 53 the accesses that are open, in
// bits 56 to 61 the accesses that are good, and in bits 54, 55 and 62 what refuses a pair of base codes. An access is refused where it is open and not good. No
// public function has a `requires`.
ghost use Rattle.std.specs.Prelude.{◌≡◌, ◌<◌};
ghost use Rattle.rights.specs.Mirror.Parts.{slot_if, limits_if, last_index, code_if, stage2_number, overlaid_number, slots_number, direct_number, indirect_number, stage1_number, off_number, one_number, levels_number, unknown_number, known_number, leaf_number};

pub mod groups;
pub mod pair;
mod tables;

use crate::words::tables::{
    descriptor_words, last_words, limits_words, permissions2_words, privileged_code_words,
    privileged_slot_words, state1_words, state2_words, unprivileged_code_words,
    unprivileged_slot_words,
};
use records::descriptor::fields::{indirect_state, permissions, state};
use records::descriptor::index::{PIIndex, POIndex};
use records::leaf::Leaf;
use records::setup::{Control, Setup};

// No access is taken away.
pub(crate) const WHOLE: u64 = 0x7FFF_0000_0000_0000;

// Masks: all that a word has; what is judged with one level; and a word of memory that is not known, of which no access is good.
pub(crate) const MASK_ALL: u64 = 0x7FFF_FFFF_FFFF_FFFF;

pub(crate) const MASK_ONE_LEVEL: u64 = 0x47C7_0000_00FF_FFFF;

pub(crate) const MASK_UNKNOWN: u64 = 0x40FF_FFFF_FFFF_FFFF;

// Stage 2: S2AP and XN, after valid, AF and dirty state.
fn stage2_word(on: bool, e: u64) -> u64
    ensures { result ≡ stage2_number on e }
{
    if on {
        let left = permissions2_words()[permissions(e)].join(WHOLE);
        return state2_words()[state(e)].join(left);
    }
    WHOLE
}

// The slot that counts: 7, which stops nothing, where no overlay applies. This, `limits_if` and `code_if` are each named by what counts; one function with the
// other value as a parameter would be no plainer.
pub(crate) fn slot_if(on: bool, v: u8) -> usize
    ensures { (result ≡ slot_if on v) × (result < 16) }
{
    if on {
        return (v % 16) as usize;
    }
    7
}

// The slots of both levels.
fn overlaid_word(p: usize, u: usize, w: u64) -> u64
    requires { (p < 16) × (u < 16) }
    ensures { result ≡ overlaid_number p u w }
{
    let left = unprivileged_slot_words()[u].join(w);
    privileged_slot_words()[p].join(left)
}

// The overlay, where `p` and `u` are whether it applies to the base rights of either level.
fn slots_word(s: Setup, d: u64, p: bool, u: bool, w: u64) -> u64
    ensures { result ≡ slots_number s d p u w }
{
    let on = s.control.overlay;
    if on.privileged | on.unprivileged {
        let i = POIndex::of(d);
        let privileged = slot_if(on.privileged & p, i.slot(s.por.privileged));
        let unprivileged = slot_if(on.unprivileged & u, i.slot(s.por.unprivileged));
        return overlaid_word(privileged, unprivileged, w);
    }
    w
}

// Limits, unless disabled.
pub(crate) fn limits_if(unlimited: bool, t: u8) -> usize
    ensures { (result ≡ limits_if unlimited t) × (result < 16) }
{
    if unlimited {
        return 0;
    }
    (t % 16) as usize
}

// What the last steps of Direct read, where the rights that the fields before them keep are bits 48 to 53 of `m`: pw, WXN, ur and PAN. uw holds where pw and
// ur do.
pub(crate) fn last_index(wxn: bool, pan: bool, m: u64) -> usize
    ensures { (result ≡ last_index wxn pan m) × (result < 16) }
{
    let read = ((m >> 49) % 2 + (m >> 51) % 2 * 4) as usize;
    read + (usize::from(wxn) * 2 + usize::from(pan) * 8)
}

// Direct: AP, PXN and UXN, then the limits, then the steps that read rights.
#[tactic(auto, unfolding(crate::specs::Mirror::Parts::direct_number))]
fn direct_word(c: Control, d: u64, limits: u8, w: u64) -> u64
    ensures { result ≡ direct_number c d limits w }
{
    let first = descriptor_words(c.two)[permissions(d)];
    let second = limits_words(c.two)[limits_if(c.unlimited, limits)];
    let last = last_words()[last_index(c.wxn, c.pan, first.keeps & second.keeps)];
    first.join(second.join(last.join(w)))
}

// The unprivileged code, which is not read with one level.
pub(crate) fn code_if(two: bool, u: u8) -> usize
    ensures { (result ≡ code_if two u) × (result < 16) }
{
    if two {
        return (u % 16) as usize;
    }
    0
}

// Indirect: the base codes, then the overlay, which applies to codes 0 to 7.
#[tactic(auto, unfolding(crate::specs::Mirror::Parts::indirect_number))]
fn indirect_word(s: Setup, d: u64, w: u64) -> u64
    ensures { result ≡ indirect_number s d w }
{
    let i = PIIndex::of(d);
    let p = (i.code(s.pir.privileged) % 16) as usize;
    let code = i.code(s.pir.unprivileged);
    let u = code_if(s.control.two, code);
    let overlaid = slots_word(s, d, p < 8, code < 8, w);
    let left = unprivileged_code_words()[u].join(overlaid);
    privileged_code_words()[p].join(left)
}

// Stage 1: valid, AF and dirty state, then base rights and overlay.
#[tactic(auto, unfolding(crate::specs::Mirror::Parts::stage1_number))]
fn stage1_word(s: Setup, f: Leaf, w: u64) -> u64
    ensures { result ≡ stage1_number s f w }
{
    let d = f.stage1;
    if s.control.indirect {
        return state1_words()[indirect_state(d)].join(indirect_word(s, d, w));
    }
    let left = direct_word(s.control, d, f.limits, slots_word(s, d, true, true, w));
    state1_words()[state(d)].join(left)
}

// Stage 1 off: no base code is read.
#[tactic(auto, unfolding(crate::specs::Mirror::Parts::off_number))]
pub(crate) fn off_word(w: u64) -> u64
    ensures { result ≡ off_number w }
{
    0x3F3F_FFFF_FFFF_FFFF & w
}

// One level: the unprivileged accesses are not judged.
#[tactic(auto, unfolding(crate::specs::Mirror::Parts::one_number))]
fn one_word(w: u64) -> u64
    ensures { result ≡ one_number w }
{
    MASK_ONE_LEVEL & w
}

pub(crate) fn levels_word(two: bool, w: u64) -> u64
    ensures { result ≡ levels_number two w }
{
    if two {
        return w;
    }
    one_word(w)
}

// The word of a leaf.
#[tactic(auto, unfolding(crate::specs::Mirror::Parts::leaf_number))]
pub fn leaf_word(s: Setup, f: Leaf) -> u64
    ensures { result ≡ leaf_number s f }
{
    let w = stage2_word(s.control.stage2, f.stage2);
    if s.control.stage1 {
        return levels_word(s.control.two, stage1_word(s, f, w));
    }
    levels_word(s.control.two, off_word(w))
}

// Memory that is not known: no access is good.
#[tactic(auto, unfolding(crate::specs::Mirror::Parts::unknown_number))]
fn unknown_word(w: u64) -> u64
    ensures { result ≡ unknown_number w }
{
    MASK_UNKNOWN & w
}

// The word of a leaf whose memory is known or not.
pub fn known_word(known: bool, w: u64) -> u64
    ensures { result ≡ known_number known w }
{
    if known {
        return w;
    }
    unknown_word(w)
}
