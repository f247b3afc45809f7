// PIIndex picks a base code and POIndex picks an overlay slot. Their fields are private and descriptor decoding alone
// makes them, so that neither can stand where the other belongs.
ghost use Rattle.std.specs.Prelude.{◌≡◌};
ghost use Rattle.records.specs.Descriptor.{pi_index, po_index, code_at, entry_of, place_of, slot_at};

#[derive(Clone, Copy)]
pub struct PIIndex(u8);

#[derive(Clone, Copy)]
pub struct POIndex(u8);

impl PIIndex {
    // The PIIndex of a stage 1 descriptor.
    pub fn of(d: u64) -> PIIndex
        ensures { result ≡ pi_index d }
    {
        PIIndex(((d >> 54) % 2 * 8 + (d >> 53) % 2 * 4 + (d >> 51) % 2 * 2 + (d >> 6) % 2) as u8)
    }

    // The base code at this index of a PIR.
    pub fn code(self, pir: u64) -> u8
        ensures { result ≡ code_at pir self }
    {
        let i = self.0;
        ((pir >> (4 * (i % 16))) % 16) as u8
    }

    // The entry at this index of a table that has one for each place of the PIRs.
    pub fn pick<T: Copy>(self, table: &[T; 16]) -> T
        ensures { (other : T) → result ≡ entry_of other table.now self }
    {
        let k = self.0;
        let i = (k % 16) as usize;
        table[i]
    }
}

impl POIndex {
    // The POIndex of a stage 1 descriptor.
    pub fn of(d: u64) -> POIndex
        ensures { result ≡ po_index d }
    {
        POIndex(((d >> 60) % 8) as u8)
    }

    // The overlay slot at this index of a POR.
    pub fn slot(self, por: u64) -> u8
        ensures { result ≡ slot_at por self }
    {
        let i = self.0;
        ((por >> (4 * (i % 8))) % 16) as u8
    }

    // The place of that slot, 0 to 7.
    pub fn place(self) -> usize
        ensures { result ≡ place_of self }
    {
        let i = self.0;
        (i % 8) as usize
    }
}
