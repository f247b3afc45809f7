// Prints what a list of leaves is answered: its rights by the list, and the register of a level by the planner.
use crate::output::Bytes;
use crate::table::{Case, LEAVES, front, record, setup};
use records::refusal::LeafRefusal;
use std::io;

fn print_listed(rt: &impl Print, answer: Result<usize, LeafRefusal>) -> io::Result<()> {
    match answer {
        Ok(n) => print!(rt; " done {n}"),
        Err(refusal) => print!(rt; " refused {refusal}"),
    }
}

// With fresh buffers. Of the output three bytes are printed, the first and two neighbours; of the causes the same three leaves', as if each had them.
pub(crate) fn print_list(rt: &impl Print, w: &Case) -> io::Result<()> {
    let mut out = [170u8; 2050];
    let mut causes = [170u8; 12300];
    let s = setup(w);
    let l = record(&LEAVES, &w[12..]);
    if let (Some(room), Some(space)) = (
        out.get_mut(..w[10] as usize),
        causes.get_mut(..w[20] as usize),
    ) {
        let s = front(&s, w[1]);
        let l = front(&l, w[9]);
        print_listed(rt, judge::list::list_rights(s, l, room, space))?;
    }
    let at = (w[11] % 2048) as usize;
    let first = Bytes(&causes[..6]);
    let both = Bytes(&causes[6 * at..6 * at + 12]);
    println!(rt;
        " bytes {} {} {} causes{first}{both}",
        out[0],
        out[at],
        out[at + 1]
    )
}

pub(crate) fn print_plan(rt: &impl Print, w: &Case) -> io::Result<()> {
    let s = setup(w);
    let l = record(&LEAVES, &w[11..]);
    match planner::plan_level(front(&s, w[1]), w[10], front(&l, w[9])) {
        Ok(register) => println!(rt; " {register:016x}"),
        Err(refusal) => println!(rt; " refused {refusal}"),
    }
}
