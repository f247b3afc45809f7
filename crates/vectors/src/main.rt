// Runs each layer on the numbers of document 01 and on edges, and prints what it answers. The cases are in `stdin`, one to a line, and the
// expected output is `stdout`. A line has hexadecimal numbers with a space between two; a number that is left out at the end is 0. A colon
// may follow, then a space and the case's name, which is printed first. The first number is the kind. In the list of kinds a setup is its
// length in bytes, control, MAIR, MAIR2, PIRs and PORs; a leaf is both descriptors, limits and forbidden; a length is in bytes.
// 0 reads a setup: the setup.
// 1 reads a leaf: its length, the leaf, then a PIR and a POR for the indices of its stage 1 descriptor.
// 2 reads a stage 1 descriptor: the descriptor, a PIR and a POR.
// 3 reads a stage 2 descriptor: the descriptor.
// 4 reads a control word: the word.
// 5 reads an access number: the number.
// 6 reads document 01's example as a map file: the file's length, the room for leaves, an index and the byte to put there (2B is at 3).
// 7 judges an access: a setup, the access, a leaf.
// 8 lists rights: a setup, the list's length, the output's, an index (output bytes 0, that one and the next are printed), two leaves, the length of the causes.
// 9 plans a level: a setup, the list's length, the level, two leaves.
// What of a list lies past its two leaves is zeros.
#![tactic(auto)]

use crate::table::Case;
use std::io;

mod decoding;
mod files;
mod input;
mod judgements;
mod lists;
mod output;
mod table;

// An enum of the kinds would be made by a match on the number and taken apart by a second one: this one is plainer.
fn print_answer(rt: &impl Print, w: &Case) -> io::Result<()> {
    match w[0] {
        0 => decoding::print_setup(rt, w),
        1 => decoding::print_leaf(rt, w),
        2 => decoding::print_stage1(rt, w[1], w[2], w[3]),
        3 => decoding::print_stage2(rt, w[1]),
        4 => decoding::print_control_word(rt, w[1]),
        5 => decoding::print_access(rt, w[1]),
        6 => files::print_file(rt, w),
        7 => judgements::print_judgement(rt, w),
        8 => lists::print_list(rt, w),
        9 => lists::print_plan(rt, w),
        _ => println!(rt; "unknown kind"),
    }
}

fn print_case(rt: &impl Print, line: &[u8]) -> io::Result<()> {
    let mut parts = line.splitn(2, |c| *c == b':');
    let numbers = parts.next().unwrap_or(&[]);
    let name = parts.next().unwrap_or(&[]);
    rt.write_all(name.get(1..).unwrap_or(&[]))?;
    print_answer(rt, &table::words(numbers))
}

// Of the input the first 65,536 bytes are read.
fn main(rt: HostRuntime) -> io::Result<()> {
    let mut table = [0u8; 65536];
    let n = input::read_full(&mut rt.stdin(), &mut table)?;
    for line in table[..n].split_inclusive(|c| *c == b'\n') {
        print_case(&rt, line.strip_suffix(b"\n").unwrap_or(line))?;
    }
    Ok(())
}
