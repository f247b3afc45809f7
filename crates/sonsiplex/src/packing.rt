// Answers packed into 64 bits. What a field of the packing holds is bounded by the types of the parameters.
ghost use Rattle.std.specs.Prelude.{◌≡◌, ◌+◌, ◌*◌, ◌^◌};
ghost use Rattle.records.specs.Bits.{field};
ghost use Rattle.rights.specs.Answers.{kind_number};
ghost use Rattle.judge.specs.Answers.{judgement_values};
ghost use Rattle.sonsiplex.specs.Packing.{pack_judgement, judgement_fields, pack_numbers};

use attributes::Memory;
use rights::answers::{Kind, Stop};

// The number that the C interface has for a kind.
fn kind_number(k: Kind) -> u8
    ensures { result ≡ kind_number k }
{
    match k {
        Kind::Translation => 1,
        Kind::AccessFlag => 2,
        Kind::Permission => 3,
        Kind::Overlay => 4,
    }
}

fn pack_values(number: u8, stage: u8, kind: u8, byte: u8, sh: u8, cause: u8) -> u64
    ensures packed { result ≡ number + 2 ^ 8 * stage + 2 ^ 16 * kind + 2 ^ 24 * byte + 2 ^ 32 * sh + 2 ^ 40 * cause }
    ensures low { (field result 0 8 ≡ number) × (field result 8 8 ≡ stage) × (field result 16 8 ≡ kind) }
    ensures high { (field result 24 8 ≡ byte) × (field result 32 8 ≡ sh) × (field result 40 8 ≡ cause) }
{
    u64::from(number)
        + 0x100 * u64::from(stage)
        + 0x10000 * u64::from(kind)
        + 0x1000000 * u64::from(byte)
        + 0x100000000 * u64::from(sh)
        + 0x10000000000 * u64::from(cause)
}

// A judgement.
pub(crate) fn pack_judgement(j: Result<Memory, Stop>) -> u64
    ensures packed { result ≡ pack_judgement (judgement_values j) }
    ensures fields { judgement_fields result ≡ judgement_values j }
{
    match j {
        Ok(m) => pack_values(0, 0, 0, m.byte, m.sh, 0),
        Err(Stop::Faulted(f)) => pack_values(
            0,
            f.stage.number(),
            kind_number(f.kind),
            0,
            0,
            f.cause,
        ),
        Err(Stop::Refused(r)) => pack_values(r.number(), 0, 0, 0, 0, 0),
    }
}

// What the list and the planner answer: a refusal's number, a leaf's index, and a value.
pub(crate) fn pack_numbers(number: u8, leaf: u16, value: u32) -> u64
    ensures packed { result ≡ pack_numbers number leaf value }
    ensures fields { (field result 0 8 ≡ number) × (field result 16 16 ≡ leaf) × (field result 32 32 ≡ value) }
{
    u64::from(number) + 0x10000 * u64::from(leaf) + 0x100000000 * u64::from(value)
}
