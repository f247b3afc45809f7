// What a setup decides once of stage 1. No public function has a `requires`.
ghost use Rattle.std.specs.Prelude.{◌≡◌, ◌<◌};
ghost use Rattle.records.specs.Bits.{bit};
ghost use Rattle.rights.specs.Mirror.Table.{pair_at, DirectTableOf, TableOf, ModeTableOf};

use crate::pass::direct::{descriptor_left, limits_left};
use crate::pass::indirect::indirect_mask;
use records::refusal::Refusal;
use records::table::table_of;

// The tables of a setup.
#[derive(Clone, Copy)]
pub struct BaseTable {
    // Under Indirect: the answer of the codes at each place of both PIRs.
    pub codes: [Result<u8, Refusal>; 16],
    // Under Direct: what AP[2:1], PXN and UXN leave, by their four bits.
    pub descriptor: [u8; 16],
    // Under Direct: what the limits leave.
    pub limits: [u8; 16],
}

// The answer of the codes at place `k`.
fn pair_at(w: u32, p: u64, u: u64, k: usize) -> Result<u8, Refusal>
    requires { k < 16 }
    ensures { result ≡ pair_at w p u k }
{
    let privileged = ((p >> (4 * k)) % 16) as u8;
    let unprivileged = ((u >> (4 * k)) % 16) as u8;
    indirect_mask((w >> 0) % 2 == 1, privileged, unprivileged)
}

// The tables of a setup with control word `w` under Direct, where no codes are read.
fn direct_table(w: u32) -> BaseTable
    ensures { DirectTableOf w result }
{
    let two = (w >> 0) % 2 == 1;
    let unlimited = (w >> 8) % 2 == 1;
    BaseTable {
        codes: [Err(Refusal::Unjudged); 16],
        descriptor: table_of(|k| descriptor_left(two, k)),
        limits: table_of(|k| limits_left(two, unlimited, k)),
    }
}

// The tables of a setup with control word `w` and PIRs `p` and `u`, whatever its mode.
pub fn base_table(w: u32, p: u64, u: u64) -> BaseTable
    ensures { TableOf w p u result }
{
    BaseTable {
        codes: table_of(|k| pair_at(w, p, u, k)),
        ..direct_table(w)
    }
}

// The tables that are read in the setup's mode: under Direct making those of the codes would take longer than to plan for a leaf or two.
pub fn mode_table(w: u32, p: u64, u: u64) -> BaseTable
    ensures { ModeTableOf w p u result }
{
    if (w >> 3) % 2 == 1 {
        return base_table(w, p, u);
    }
    direct_table(w)
}
