// Prints what the record layer reads of a setup, a leaf, a descriptor, a control word and an access number.
use crate::output::Flags;
use crate::table::{Case, LEAF, front, record, setup};
use records::access::read_access;
use records::leaf::read_leaf;
use records::setup::{Control, Setup, read_control, read_setup};
use std::io;

fn print_control(rt: &impl Print, c: Control) -> io::Result<()> {
    let on = [
        ("two", c.two),
        ("stage1", c.stage1),
        ("stage2", c.stage2),
        ("indirect", c.indirect),
        ("overlay-privileged", c.overlay.privileged),
        ("overlay-unprivileged", c.overlay.unprivileged),
        ("wxn", c.wxn),
        ("pan", c.pan),
        ("unlimited", c.unlimited),
        ("fwb", c.fwb),
        ("dc", c.dc),
        ("icacheable", c.icacheable),
        ("aie", c.aie),
        ("above", c.above),
    ];
    println!(rt; "control{}", Flags(&on))
}

pub(crate) fn print_control_word(rt: &impl Print, x: u64) -> io::Result<()> {
    print_control(rt, read_control((x & 0xffffffff) as u32))
}

fn print_registers(rt: &impl Print, s: Setup) -> io::Result<()> {
    println!(rt; "mair {:016x} mair2 {:016x}", s.mair, s.mair2)?;
    println!(rt; "pir {:016x} {:016x}", s.pir.privileged, s.pir.unprivileged)?;
    println!(rt; "por {:016x} {:016x}", s.por.privileged, s.por.unprivileged)
}

pub(crate) fn print_setup(rt: &impl Print, w: &Case) -> io::Result<()> {
    let b = setup(w);
    match read_setup(front(&b, w[1])) {
        Ok(s) => {
            print_control(rt, s.control)?;
            print_registers(rt, s)
        }
        Err(refusal) => println!(rt; "setup refused {refusal}"),
    }
}

pub(crate) fn print_stage1(rt: &impl Print, d: u64, pir: u64, por: u64) -> io::Result<()> {
    let f = records::descriptor::read_stage1(d);
    let on = [
        ("valid", f.valid),
        ("ap1", f.ap1),
        ("ap2", f.ap2),
        ("af", f.af),
        ("pxn", f.pxn),
        ("uxn", f.uxn),
        ("attrindx3", f.attrindx3),
        ("bit7", f.bit7),
        ("bit51", f.bit51),
    ];
    let code = f.piindex.code(pir);
    let slot = f.poindex.slot(por);
    println!(rt;
        "stage1{} attrindx {} sh {} code {code} slot {slot}",
        Flags(&on),
        f.attrindx,
        f.sh
    )
}

pub(crate) fn print_stage2(rt: &impl Print, d: u64) -> io::Result<()> {
    let f = records::descriptor::read_stage2(d);
    let on = [
        ("valid", f.valid),
        ("read", f.read),
        ("write", f.write),
        ("af", f.af),
        ("bit51", f.bit51),
    ];
    println!(rt;
        "stage2{} memattr {} sh {} xn {}",
        Flags(&on),
        f.memattr,
        f.sh,
        f.xn
    )
}

fn print_limits(rt: &impl Print, l: u8, forbidden: u8) -> io::Result<()> {
    let t = records::descriptor::read_limits(l);
    let on = [
        ("aptable0", t.aptable0),
        ("aptable1", t.aptable1),
        ("pxntable", t.pxntable),
        ("uxntable", t.uxntable),
    ];
    println!(rt; "limits{} forbidden {forbidden}", Flags(&on))
}

pub(crate) fn print_leaf(rt: &impl Print, w: &Case) -> io::Result<()> {
    let b = record(&LEAF, &w[2..]);
    match read_leaf(front(&b, w[1])) {
        Ok(l) => {
            print_stage1(rt, l.stage1, w[6], w[7])?;
            print_stage2(rt, l.stage2)?;
            print_limits(rt, l.limits, l.forbidden)
        }
        Err(refusal) => println!(rt; "leaf refused {refusal}"),
    }
}

pub(crate) fn print_access(rt: &impl Print, n: u64) -> io::Result<()> {
    match read_access(n) {
        Some(a) => println!(rt; "access {n} {} {}", a.level, a.right),
        None => println!(rt; "access {n} unknown"),
    }
}
