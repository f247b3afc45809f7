// Prints the judgement of one access.
use crate::table::{Case, LEAF, front, record, setup};
use attributes::Memory;
use rights::answers::{Fault, Kind, Stop};
use std::io;

// In place of Display, which the crate of the enum alone can give it.
fn letter(k: Kind) -> char {
    match k {
        Kind::Translation => 'T',
        Kind::AccessFlag => 'A',
        Kind::Permission => 'P',
        Kind::Overlay => 'O',
    }
}

fn print_fault(rt: &impl Print, f: Fault) -> io::Result<()> {
    println!(rt; " fault {} {} cause {}", f.stage, letter(f.kind), f.cause)
}

fn print_verdict(rt: &impl Print, j: Result<Memory, Stop>) -> io::Result<()> {
    match j {
        Ok(m) => println!(rt; " allowed {} {}", m.byte, m.sh),
        Err(Stop::Faulted(f)) => print_fault(rt, f),
        Err(Stop::Refused(refusal)) => println!(rt; " refused {refusal}"),
    }
}

pub(crate) fn print_judgement(rt: &impl Print, w: &Case) -> io::Result<()> {
    let s = setup(w);
    let l = record(&LEAF, &w[10..]);
    print_verdict(
        rt,
        judge::access::judge_access(front(&s, w[1]), front(&l, 18), w[9]),
    )
}
