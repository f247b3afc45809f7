// The attribute steps, the last of 'The order a judgement is made in': 8 at stage 1, 8 at stage 2, 9, and then the byte and SH. Part of the
// attribute layer. `d` is the stage 1 descriptor, `e` the stage 2 descriptor.
ghost use Rattle.std.specs.Prelude.{◌≡◌};
ghost use Rattle.records.specs.Values.{check_if};
ghost use Rattle.records.specs.declared.refusal.Refusal.TheVariants.{MemoryCode, ReservedSh};
ghost use Rattle.attributes.specs.Mair.{reserved_byte};
ghost use Rattle.attributes.specs.StageTwoType.{reserved_mem_attr};
ghost use Rattle.attributes.specs.Shareability.{reserved_sh};
ghost use Rattle.attributes.specs.Order.{check_of, memory_of, attributes_of};

use crate::Memory;
use crate::combine::result_byte;
use crate::mair::{mair_byte, stage1_byte, valid_byte};
use crate::shareability::{combined_sh, reserved_sh};
use crate::stage2::{mem_attr, reserved_code};
use records::descriptor::{Stage1, Stage2};
use records::refusal::{Refusal, check_if};
use records::setup::Setup;

// 8 at stage 1: it is on, and its byte is reserved or needs an extension.
#[tactic(auto, unfolding(crate::specs::Mair::mair_byte, crate::specs::Mair::reserved_byte))]
fn check_byte(s: Setup, d: Stage1) -> Result<(), Refusal>
    ensures { result ≡ check_if (reserved_byte s d) MemoryCode }
{
    let b = mair_byte(s.control.aie, s.mair, s.mair2, d.attrindx, d.attrindx3);
    check_if(s.control.stage1 & !valid_byte(b), Refusal::MemoryCode)
}

// 8 at stage 2: it is on, and its MemAttr is reserved or needs an extension.
#[tactic(auto, unfolding(crate::specs::StageTwoType::reserved_mem_attr))]
fn check_memattr(s: Setup, e: Stage2) -> Result<(), Refusal>
    ensures { result ≡ check_if (reserved_mem_attr s e) MemoryCode }
{
    let reserved = reserved_code(s.control.fwb, mem_attr(e));
    check_if(s.control.stage2 & reserved, Refusal::MemoryCode)
}

// 9: SH is 01 in a stage that is on.
fn check_sh(s: Setup, d: Stage1, e: Stage2) -> Result<(), Refusal>
    ensures { result ≡ check_if (reserved_sh s d e) ReservedSh }
{
    check_if(reserved_sh(s, d, e), Refusal::ReservedSh)
}

// The refusal that the attribute steps of any access of a leaf meet, the same for data and fetches.
#[tactic(auto, unfolding(crate::specs::Order::check_of))]
pub fn check_attributes(s: Setup, d: Stage1, e: Stage2) -> Result<(), Refusal>
    ensures { result ≡ check_of s d e }
{
    check_byte(s, d)?;
    check_memattr(s, e)?;
    check_sh(s, d, e)
}

// The byte and SH of an access that none of the steps refuses.
#[tactic(auto, unfolding(crate::specs::Combine::result_byte, crate::specs::Shareability::result_sh, crate::specs::Order::memory_of))]
fn memory_of(s: Setup, d: Stage1, e: Stage2, fetch: bool) -> Memory
    ensures { result ≡ memory_of s d e fetch }
{
    let b = stage1_byte(s, d, fetch);
    let byte = result_byte(s, b, mem_attr(e));
    Memory {
        byte,
        sh: combined_sh(s, d, e, b, byte),
    }
}

// The attribute steps of one access, where `fetch` is whether it executes.
#[tactic(auto, unfolding(crate::specs::Order::attributes_of))]
pub fn access_attributes(s: Setup, d: Stage1, e: Stage2, fetch: bool) -> Result<Memory, Refusal>
    ensures { result ≡ attributes_of s d e fetch }
{
    check_attributes(s, d, e)?;
    Ok(memory_of(s, d, e, fetch))
}
