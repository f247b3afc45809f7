// Where the descriptors of a leaf stand in tables that have an entry for each value of some of their bits. The bits are read from single bytes, which the
// compiler turns into loads of a byte, but for `state`, whose bits lie in two. Bits 1 and 52, which are read with their neighbours, are no field. No public
// function but `leaf_places` has a `requires`.
ghost use Rattle.std.specs.Prelude.{◌≡◌, ◌+◌, ◌*◌, ◌≤◌, length, get_or};
ghost use Rattle.records.specs.Bytes.{le64};
ghost use Rattle.records.specs.Leaf.{leaf_at};
ghost use Rattle.records.specs.Mirror.Places.{places_of, leaf_places, codes_descriptor, slots_descriptor, codes_index, slots_index};

use crate::number::short;

// Bits 54 to 51, and bit 6 above them: the PIIndex is among them. Like an index, a place is made by decoding alone and gives no number away.
#[derive(Clone, Copy)]
pub struct CodesPlace(usize);

// Bits 62 to 59: the POIndex, and AttrIndx[3] below it.
#[derive(Clone, Copy)]
pub struct SlotsPlace(usize);

// Of one descriptor: `low1` is stage 1's bits 4:0 and bit 59 above them, `low2` stage 2's bits 5:0, `ap` is 7:6 (AP or S2AP), `flags` 10:8, `state` 10:7, `never` 54:51.
#[derive(Clone, Copy)]
pub struct Places {
    pub low1: usize,
    pub low2: usize,
    pub ap: usize,
    pub flags: usize,
    pub state: usize,
    pub never: usize,
    pub codes: CodesPlace,
    pub slots: SlotsPlace,
}

#[derive(Clone, Copy)]
pub struct LeafPlaces {
    pub stage1: Places,
    pub stage2: Places,
    pub limits: u8,
    pub forbidden: u8,
}

// The places of the descriptor whose eight bytes begin at index `at`.
fn places_at(b: &[u8], at: usize) -> Places
    requires { at + 8 ≤ length b.now }
    ensures { result ≡ places_of (le64 b.now at) }
{
    let x = b[at];
    let y = b[at + 6];
    let z = b[at + 7];
    Places {
        low1: (x % 32 + (z >> 3) % 2 * 32) as usize,
        low2: (x % 64) as usize,
        ap: ((x >> 6) % 4) as usize,
        flags: (b[at + 1] % 8) as usize,
        state: ((short(b, at) >> 7) % 16) as usize,
        never: ((y >> 3) % 16) as usize,
        codes: CodesPlace(((y >> 3) % 16 + (x >> 6) % 2 * 16) as usize),
        slots: SlotsPlace(((z >> 3) % 16) as usize),
    }
}

// The places of leaf `i` of a list.
pub fn leaf_places(leaves: &[u8], i: usize) -> LeafPlaces
    requires { i * 18 + 18 ≤ length leaves.now }
    ensures { result ≡ leaf_places (leaf_at leaves.now i) }
{
    let at = i * 18;
    LeafPlaces {
        stage1: places_at(leaves, at),
        stage2: places_at(leaves, at + 8),
        limits: leaves[at + 16],
        forbidden: leaves[at + 17],
    }
}

// A descriptor that stands at entry `k` of a table of base codes, and one at entry `k` of a table of slots: what such an entry is made for.
pub fn codes_descriptor(k: usize) -> u64
    ensures { result ≡ codes_descriptor k }
{
    (k % 16) as u64 * 0x8_0000_0000_0000 + (k / 16 % 2) as u64 * 64
}

pub fn slots_descriptor(k: usize) -> u64
    ensures { result ≡ slots_descriptor k }
{
    (k % 16) as u64 * 0x800_0000_0000_0000
}

impl CodesPlace {
    // The entry at this place.
    pub fn pick<T: Copy>(self, table: &[T; 32]) -> T
        ensures { (d : T) → result ≡ get_or table.now (codes_index self) d }
    {
        let i = self.0;
        table[i % 32]
    }
}

impl SlotsPlace {
    // The entry at this place in a part of four with 16 entries each. The parts are 0, 16, 32 and 48.
    pub fn pick<T: Copy>(self, table: &[T; 64], part: u8) -> T
        ensures { (d : T) → result ≡ get_or table.now (slots_index self part) d }
    {
        let i = self.0;
        table[i % 16 + (part % 64 / 16 * 16) as usize]
    }
}
