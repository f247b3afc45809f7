// Stage 2 for all accesses of a leaf, as bits of a number. The public function has no `requires`.
ghost use Rattle.std.specs.Prelude.{◌≡◌};
ghost use Rattle.records.specs.Bits.{bit};
ghost use Rattle.records.specs.Descriptor.{stage2_of};
ghost use Rattle.rights.specs.Mirror.Masks.{stage2_mask};
ghost use Rattle.rights.specs.Mirror.Pass.{stage2_pass};

use records::refusal::Refusal;

// Stage 2's rights by S2AP and XN.
const STAGE2: [u8; 16] = [36, 45, 54, 63, 32, 41, 50, 59, 0, 9, 18, 27, 4, 13, 22, 31];

// Stage 2: `w` is the control word, `e` is the descriptor.
#[tactic(auto, unfolding(records::specs::Descriptor::stage2_of, crate::specs::Mirror::Pass::stage2_pass))]
pub(crate) fn stage2_mask(w: u32, e: u64) -> Result<u8, Refusal>
    ensures { result ≡ stage2_mask (stage2_pass (bit w 2) (stage2_of e)) }
{
    if (w >> 2) % 2 == 1 {
        if ((e >> 0) % 2 == 1) & ((e >> 10) % 2 == 1) {
            if (e >> 51) % 2 == 1 {
                return Err(Refusal::Unjudged);
            }
            let i = ((e >> 6) % 4 + (e >> 53) % 4 * 4) as usize;
            return Ok(STAGE2[i]);
        }
        return Ok(0);
    }
    Ok(63)
}
