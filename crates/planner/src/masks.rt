// Slot masks: three bits each, bit 0 R, bit 1 X, bit 2 W.
ghost use Rattle.std.specs.Prelude.{◌≡◌, ℕ, ◌<◌, get_or};
ghost use Rattle.planner.specs.Mirror.Masks.{first_of};
ghost use Rattle.planner.specs.Register.{cut_mask, pack_from};

// The mask without the bits taken.
pub(crate) fn cut_mask(mask: u8, taken: u8) -> u8
    ensures { result ≡ cut_mask mask taken }
{
    mask - (mask & taken)
}

// The first leaf that no register cures, where `first` is the one found before leaf i.
pub(crate) fn first_of(first: Option<usize>, i: usize, uncured: bool) -> Option<usize>
    ensures { result ≡ first_of first i uncured }
{
    first.or(uncured.then_some(i))
}

// The register with mask k in slot k.
#[tactic(auto, unfolding(crate::specs::Register::pack_from))]
pub(crate) fn pack(masks: [u8; 8]) -> u64
    requires { (s : ℕ) → get_or masks s 0 < 8 }
    ensures { result ≡ pack_from masks 8 0 }
{
    let mut r: u64 = 0;
    for s in (0..8).rev() {
        r = r * 16 + u64::from(masks[s]);
    }
    r
}
