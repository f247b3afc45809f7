// Stage 1 of a leaf by the tables of its setup (`BaseTable`), up to the overlay. No public function has a `requires`. Words of a setup and descriptors go in as they stand.
ghost use Rattle.std.specs.Prelude.{◌≡◌};
ghost use Rattle.rights.specs.Mirror.Table.{direct_by, stage1_by};

use crate::pass::direct::removed;
use crate::pass::table::BaseTable;
use records::descriptor::index::PIIndex;
use records::refusal::Refusal;

// Direct rights of descriptor `d` and limits `t`; overlays apply at both levels.
fn direct_mask(base: &BaseTable, w: u32, d: u64, t: u8) -> u8
    ensures { result ≡ direct_by base.now w d t }
{
    let i = ((d >> 6) % 4 + (d >> 53) % 4 * 4) as usize;
    let j = (t % 16) as usize;
    removed(w, base.descriptor[i] & base.limits[j]) | 192
}

// Stage 1 up to the overlay by a setup's tables: `w` is the control word, `d` is the descriptor and `t` the limits.
#[tactic(auto, unfolding(crate::specs::Mirror::Table::stage1_by))]
pub(crate) fn stage1_mask(base: &BaseTable, w: u32, d: u64, t: u8) -> Result<u8, Refusal>
    ensures { result ≡ stage1_by base.now w d t }
{
    if (w >> 1) % 2 == 1 {
        if ((d >> 0) % 2 == 1) & ((d >> 10) % 2 == 1) {
            if (w >> 3) % 2 == 1 {
                if (d >> 7) % 2 == 1 {
                    return Err(Refusal::Unjudged);
                }
                return PIIndex::of(d).pick(&base.codes);
            }
            if (d >> 51) % 2 == 1 {
                return Err(Refusal::Unjudged);
            }
            return Ok(direct_mask(base, w, d, t));
        }
        return Ok(0);
    }
    Ok(63)
}
