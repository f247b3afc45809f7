// All rights of a level, as bits of a number: from those of both stages, with the level's overlay. No public function has a `requires`.
ghost use Rattle.std.specs.Prelude.{◌≡◌, ◌<◌};
ghost use Rattle.rights.specs.Mirror.Masks.{applies_in, grants, stage2_left, slot_left, mask_with};

use records::access::{Level, level_bits};
use records::refusal::Refusal;

// What slots 0 to 7 grant: their bits are R, X, W.
const SLOTS: [u8; 8] = [0, 1, 4, 5, 2, 3, 6, 7];

// Overlays apply to the rights of a level.
fn applies_in(m: u8, l: Level) -> bool
    ensures { result ≡ applies_in m l }
{
    match l {
        Level::Privileged => (m >> 6) % 2 == 1,
        Level::Unprivileged => (m >> 7) % 2 == 1,
    }
}

// The rights that stage 2 leaves.
fn stage2_left(r: u8, t: Result<u8, Refusal>, l: Level) -> Result<u8, Refusal>
    ensures { result ≡ stage2_left r t l }
{
    match t {
        Ok(g) => Ok(r & level_bits(g, l)),
        Err(_) if r == 0 => Ok(0),
        Err(n) => Err(n),
    }
}

// What slot `v` grants; everything where no overlay applies.
pub(crate) fn slot_bits(on: bool, v: u8) -> u8
    ensures { (result ≡ grants on v) × (result < 8) }
{
    let i = (v % 8) as usize;
    if on {
        return SLOTS[i];
    }
    7
}

fn slot_left(r: u8, on: bool, v: u8, t: Result<u8, Refusal>, l: Level) -> Result<u8, Refusal>
    ensures { result ≡ slot_left r on v t l }
{
    if on & (8 <= v) & (r != 0) {
        return Err(Refusal::ReservedCode);
    }
    stage2_left(r & slot_bits(on, v), t, l)
}

// The level's rights with slot `v`, from both stages; `on` is whether that level's overlay is.
pub(crate) fn level_mask(
    on: bool,
    first: Result<u8, Refusal>,
    v: u8,
    t: Result<u8, Refusal>,
    l: Level,
) -> Result<u8, Refusal>
    ensures { result ≡ mask_with on first v t l }
{
    let m = first?;
    slot_left(level_bits(m, l), on & applies_in(m, l), v, t, l)
}
