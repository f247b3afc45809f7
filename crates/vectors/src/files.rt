// Prints what the record layer reads of document 01's example as a map file, cut, made longer or with a byte changed, and how many lent
// bytes changed.
use crate::table::{Buffer, Case, front, record};
use records::mapfile::{read_file, setup_bytes};
use std::io;

// Reads a map file, with `leaves` lent for the leaves, and prints the answer and how many bytes the setup has; 0 for a refused file.
fn print_read(rt: &impl Print, file: &[u8], leaves: &mut [u8]) -> io::Result<()> {
    match read_file(file, leaves) {
        Ok(n) => print!(rt; " map {n} setup bytes {}", setup_bytes(file).len()),
        Err(refusal) => print!(rt; " refused {refusal} setup bytes 0"),
    }
}

// The same with the first `room` bytes of a fresh buffer, and prints how many of its bytes changed.
fn print_changed(rt: &impl Print, file: &[u8], room: u64) -> io::Result<()> {
    let mut leaves = [170u8; 36866];
    if let Some(lent) = leaves.get_mut(..room as usize) {
        print_read(rt, file, lent)?;
    }
    let changed = leaves.iter().filter(|b| **b != 170).count();
    println!(rt; " leaf bytes changed {changed}")
}

// The example's setup and two leaves, each after the header of its field, then 2,047 leaves of zeros.
fn example() -> Buffer {
    let sizes = [3, 4, 8, 8, 8, 8, 8, 8, 3, 8, 8, 1, 1, 3, 8, 8, 1, 1];
    let numbers = [
        0x3401, 0x2b, 0, 0, 0x11, 0x58, 0, 7, 0x1202, 0x747, 0, 0, 0x10, 0x1202, 0x707, 0, 0, 0x10,
    ];
    let mut file = record(&sizes, &numbers);
    let mut leaf = [0; 21];
    leaf[..3].copy_from_slice(&[2, 18, 0]);
    let (leaves, _) = file[97..].as_chunks_mut::<21>();
    leaves.fill(leaf);
    file
}

pub(crate) fn print_file(rt: &impl Print, w: &Case) -> io::Result<()> {
    let mut file = example();
    let Some(byte) = file.get_mut(w[3] as usize) else {
        return Ok(());
    };
    *byte = (w[4] & 0xff) as u8;
    print_changed(rt, front(&file, w[1]), w[2])
}
