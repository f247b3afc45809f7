// The tables and steps of Direct permissions for all accesses of a leaf at once: rights are bits 0 to 5 of a number, by access number. No public
// function has a `requires`.
ghost use Rattle.std.specs.Prelude.{◌≡◌, ◌<◌};
ghost use Rattle.records.specs.Bits.{bit};
ghost use Rattle.rights.specs.Mirror.BaseMasks.{keep, level_place, level_part, descriptor_left, limits_left, removed};

// The rights that AP[2:1], PXN and UXN leave, by AP[1], AP[2], PXN, UXN.
const DESCRIPTOR: [u8; 16] = [39, 63, 37, 45, 35, 59, 33, 41, 7, 31, 5, 13, 3, 27, 1, 9];

// The rights that APTable, PXNTable and UXNTable leave, by the limits.
const LIMITS: [u8; 16] = [63, 39, 45, 37, 59, 35, 41, 33, 31, 7, 13, 5, 27, 3, 9, 1];

fn keep(removes: bool, m: u8) -> u8
    ensures { result ≡ keep removes m }
{
    if removes {
        return m;
    }
    63
}

// The entry of a table of sixteen that counts: with one level XN stands where PXN does with two.
fn level_place(two: bool, k: usize) -> usize
    ensures { (result ≡ level_place two k) × (result < 16) }
{
    if two {
        return k % 16;
    }
    (k >> 1) % 2 * 2 + (k >> 3) % 2 * 4
}

// With one level no unprivileged right is left.
fn level_part(two: bool, m: u8) -> u8
    ensures { result ≡ level_part two m }
{
    if two {
        return m;
    }
    m % 8
}

// What AP[1], AP[2], PXN and UXN leave, which are bits 0 to 3 of `k`.
pub(crate) fn descriptor_left(two: bool, k: usize) -> u8
    ensures { result ≡ descriptor_left two k }
{
    let i = level_place(two, k);
    level_part(two, DESCRIPTOR[i])
}

// What limits `k` leave.
pub(crate) fn limits_left(two: bool, unlimited: bool, k: usize) -> u8
    ensures { result ≡ limits_left two unlimited k }
{
    let i = level_place(two, k);
    level_part(two, keep(!unlimited, LIMITS[i]))
}

// Removals by unprivileged write, WXN and PAN, where `w` is the control word.
pub(crate) fn removed(w: u32, m: u8) -> u8
    ensures { result ≡ removed (bit w 6) (bit w 7) m }
{
    let wxn = (w >> 6) % 2 == 1;
    let pan = (w >> 7) % 2 == 1;
    let pw = (m >> 1) % 2 == 1;
    let ur = (m >> 3) % 2 == 1;
    let uw = (m >> 4) % 2 == 1;
    if wxn | pan {
        return m & keep(uw | wxn & pw, 59) & keep(wxn & uw, 31) & keep(pan & (ur | uw), 60);
    }
    m & keep(uw, 59) & 63
}
