// The cases of one gate: written into a table, and evaluated on plain numbers.
use crate::printing::{changed, print_evaluated, print_gates};
use crate::tables::JUNK;
use circuits::{evaluate_gate, write_gate};
use std::io;

// Gate k written into a table of two records and three bytes more: both records, and how many bytes lost the junk.
fn write(rt: &impl Print, k: usize) -> io::Result<()> {
    print!(rt; "write {k}")?;
    let mut table = [JUNK; 19];
    write_gate(&mut table, k, 2, 65281, 65534);
    print_gates(rt, &table, 2)?;
    println!(rt; " changed {}", changed(&table))
}

// Eight times the fourth k is 0 in a usize.
fn writes(rt: &impl Print) -> io::Result<()> {
    write(rt, 0)?;
    write(rt, 1)?;
    write(rt, 2)?;
    write(rt, 1 << 61)?;
    write(rt, usize::MAX)
}

// Gate k behind four references, false, true, false and true, so that its own is 4: its numbers and k, then number, place and value.
fn gate(rt: &impl Print, kind: usize, left: usize, right: usize, k: usize) -> io::Result<()> {
    print!(rt; "gate {kind} {left} {right} {k}")?;
    print_evaluated(
        rt,
        evaluate_gate(kind, left, right, k, &[0, 1, 254, 255]).into(),
    )
}

// In the third both the kind and an input are refused, and in the fourth and fifth an input is the gate itself.
fn refused(rt: &impl Print) -> io::Result<()> {
    gate(rt, 3, 0, 0, 7)?;
    gate(rt, 257, 1, 1, 0)?;
    gate(rt, 0, 4, 1, 2)?;
    gate(rt, 1, 4, 1, 2)?;
    gate(rt, 2, 1, 4, 2)?;
    gate(rt, 1, 3, 5, 1)
}

fn valued(rt: &impl Print) -> io::Result<()> {
    gate(rt, 1, 2, 3, 9)?;
    gate(rt, 2, 2, 3, 9)?;
    gate(rt, 1, 3, 1, 9)?;
    gate(rt, 2, 2, 0, 9)
}

// Inputs and k are as large as a usize gets.
fn largest(rt: &impl Print) -> io::Result<()> {
    gate(rt, 3, 0, 0, usize::MAX)?;
    gate(rt, 2, usize::MAX, 1, usize::MAX)?;
    gate(rt, 1, 1, usize::MAX, usize::MAX)?;
    gate(rt, 1, 1, 3, usize::MAX)
}

// Behind 0 references there is no input.
fn alone(rt: &impl Print) -> io::Result<()> {
    print!(rt; "alone 0")?;
    print_evaluated(rt, evaluate_gate(1, 0, 0, 0, &[]).into())
}

pub(crate) fn all(rt: &impl Print) -> io::Result<()> {
    writes(rt)?;
    refused(rt)?;
    valued(rt)?;
    largest(rt)?;
    alone(rt)
}
