// The numbers of a case, and records made of them.

pub(crate) type Case = [u64; 21];

// As long as a map file with 2,049 leaves.
pub(crate) type Buffer = [u8; 43084];

// How many bytes each number of a setup has: control, MAIR, MAIR2, PIRs and PORs.
pub(crate) const SETUP: [usize; 7] = [4, 8, 8, 8, 8, 8, 8];

// Those of a leaf: both descriptors, limits and forbidden.
pub(crate) const LEAF: [usize; 4] = [8, 8, 1, 1];

// Those of two leaves. The last number is put whole, so that what of it is above a byte falls on the next leaf.
pub(crate) const LEAVES: [usize; 8] = [8, 8, 1, 1, 8, 8, 1, 8];

// The last sixteen of a text's hexadecimal digits as a number. What is no digit is passed over, and a capital is none.
fn number(t: &[u8]) -> u64 {
    t.iter()
        .filter(|c| !c.is_ascii_uppercase())
        .filter_map(|c| char::from(*c).to_digit(16))
        .fold(0, |v, digit| (v << 4) | u64::from(digit))
}

// The first 21 numbers of a line; where it has fewer, 0 for the others.
pub(crate) fn words(t: &[u8]) -> Case {
    let mut w = [0; 21];
    for (place, word) in w.iter_mut().zip(t.split(|c| *c == b' ')) {
        *place = number(word);
    }
    w
}

// A record of the numbers, the lowest byte first, each of as many bytes as `sizes` says, with zeros after the last one.
pub(crate) fn record(sizes: &[usize], numbers: &[u64]) -> Buffer {
    let mut buf = [0; 43084];
    let bytes = numbers
        .iter()
        .zip(sizes)
        .flat_map(|(x, size)| x.to_le_bytes().into_iter().take(*size));
    for (place, byte) in buf.iter_mut().zip(bytes) {
        *place = byte;
    }
    buf
}

// The first `n` bytes, or none where there are fewer.
pub(crate) fn front(s: &[u8], n: u64) -> &[u8] {
    s.get(..n as usize).unwrap_or(&[])
}

// The setup of a case that has one, whose length is the case's number 1.
pub(crate) fn setup(w: &Case) -> Buffer {
    record(&SETUP, &w[2..])
}
