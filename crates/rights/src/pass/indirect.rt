// The answer of a pair of base codes for all accesses of a leaf at once: rights are bits 0 to 5 of a number, by access number.
ghost use Rattle.std.specs.Prelude.{◌≡◌};
ghost use Rattle.rights.specs.Indirect.{code_of};
ghost use Rattle.rights.specs.Mirror.Base.{indirect_step};
ghost use Rattle.rights.specs.Mirror.BaseMasks.{base_mask, upper_bits, pair_mask};

use crate::indirect::code_bits;
use records::refusal::Refusal;

// The bits of the unprivileged code; with one level its rights are off and it is not refused.
fn upper_bits(two: bool, u: u8) -> u8
    ensures { result ≡ upper_bits two u }
{
    if two {
        return u;
    }
    u & 8
}

// The answer of two codes' bits: 6 for a reserved one, then 7 for a form that is not judged, then the rights.
fn pair_mask(p: u8, u: u8) -> Result<u8, Refusal>
    ensures { result ≡ pair_mask p u }
{
    if 16 <= p | u {
        if ((p >> 4) % 2 == 1) | ((u >> 4) % 2 == 1) {
            return Err(Refusal::ReservedCode);
        }
        return Err(Refusal::Unjudged);
    }
    if ((p >> 2) % 2 == 1) & ((u >> 1) % 2 == 1) {
        return Err(Refusal::Unjudged);
    }
    Ok(p % 8 + u % 8 * 8 + (p >> 3) % 2 * 64 + (u >> 3) % 2 * 128)
}

// The answer of base codes `p` and `u` under Indirect. Bits 6 and 7 of the rights tell the levels where overlays apply.
pub(crate) fn indirect_mask(two: bool, p: u8, u: u8) -> Result<u8, Refusal>
    ensures { result ≡ base_mask (indirect_step two (code_of p) (code_of u)) }
{
    pair_mask(code_bits(p), upper_bits(two, code_bits(u)))
}
