// Document 01's cases of the step layer, run on real tables; the file stdout has what the document expects.
//
// A line is the case's name, number and place. Some lines go on with literals of work records, and with the count of work bytes
// that lost the junk put there before the call.
#![tactic(auto)]

mod printing;
mod tables;

use crate::printing::{Clause, print_changed, print_results};
use crate::tables::{JUNK, NOT_X0, X0, clause, p1_a, p1_b, p1_steps, step};
use records::{derive, record};
use std::io;

// Derives and prints the start of the case's line.
fn run(
    rt: &impl Print,
    name: &str,
    a: &[u8],
    b: &[u8],
    steps: &[u8],
    work: &mut [u8],
) -> io::Result<()> {
    match derive(a, b, steps, work) {
        Ok(root) => print!(rt; "{name} 0 {root}"),
        Err(refusal) => print!(rt; "{name} {} {}", refusal.number(), refusal.place()),
    }
}

// The same with P1's clauses.
fn run_p1(rt: &impl Print, name: &str, steps: &[[u8; 8]; 3], work: &mut [u8]) -> io::Result<()> {
    run(
        rt,
        name,
        p1_a().as_flattened(),
        p1_b().as_flattened(),
        steps.as_flattened(),
        work,
    )
}

// Derives with a work table that no result goes to, and prints the case's line.
fn run_line(rt: &impl Print, name: &str, a: &[u8], b: &[u8], steps: &[u8]) -> io::Result<()> {
    run(rt, name, a, b, steps, &mut [JUNK; 71])?;
    println!(rt)
}

// P1, with more room than its three results take.
fn p1(rt: &impl Print) -> io::Result<()> {
    let mut work = [JUNK; 263];
    run_p1(rt, "P1", &p1_steps(), &mut work)?;
    print_results(rt, &work, 3)
}

// P2 to P4: a root among the input clauses, or none.
fn p2_to_p4(rt: &impl Print) -> io::Result<()> {
    run_line(rt, "P2", &[], &[], &[])?;
    run_line(rt, "P3", &[0; 64], &[], &[])?;
    run_line(rt, "P4", &[], &[0; 64], &[])
}

// P9: left and right are one clause with both signs of the pivot, and each side loses its own sign only. Its step (0, 0, 0) is
// eight zero bytes.
fn p9(rt: &impl Print) -> io::Result<()> {
    let mut work = [JUNK; 100];
    run(rt, "P9", &clause(&[X0, NOT_X0]), &[], &[0; 8], &mut work)?;
    println!(rt; " {}", Clause(record(&work, 0)))
}

// P1 with another first step, which is refused: no byte of the work table may change.
fn p1_first_step(rt: &impl Print, name: &str, first: [u8; 8]) -> io::Result<()> {
    let mut steps = p1_steps();
    steps[0] = first;
    let mut work = [JUNK; 200];
    run_p1(rt, name, &steps, &mut work)?;
    print_changed(rt, "changed", &work)
}

// P1 whose third step is refused: the first two results stay, and the third record is not begun.
fn p1_third_step(rt: &impl Print) -> io::Result<()> {
    let mut steps = p1_steps();
    steps[2] = step(4, 5, 2, 0);
    let mut work = [JUNK; 256];
    run_p1(rt, "third", &steps, &mut work)?;
    print_results(rt, &work, 2)
}

// A step after the root is checked too: P5, and a second step whose left lacks x5.
fn after_root(rt: &impl Print) -> io::Result<()> {
    let steps = [step(0, 1, 0, 0), step(2, 0, 5, 0)];
    let mut work = [JUNK; 130];
    run(
        rt,
        "after-root",
        &clause(&[X0]),
        &clause(&[NOT_X0]),
        steps.as_flattened(),
        &mut work,
    )?;
    print_results(rt, &work, 1)
}

// Zero bytes of the work table behind the results are no clause.
fn behind(rt: &impl Print) -> io::Result<()> {
    run(rt, "behind", &clause(&[X0]), &[], &[], &mut [0; 64])?;
    println!(rt)
}

// Lengths that are no multiple of a record's: the first of them in the order A, B, steps gives the number.
fn lengths(rt: &impl Print) -> io::Result<()> {
    run_line(rt, "lengths", &[0; 63], &[0; 65], &[])?;
    run_line(rt, "length-b", &[], &[0; 65], &[])?;
    run_line(rt, "length-steps", &[], &[], &[0; 7])
}

// The largest number of clauses, and one more. Bytes of 1 make every clause hold literals.
fn clauses(rt: &impl Print) -> io::Result<()> {
    let most = [1; 65536];
    run_line(rt, "clauses-1024", &most, &[], &[])?;
    run_line(rt, "clauses-1025", &most, &[1; 64], &[])
}

// Room for three results, and a byte less.
fn room(rt: &impl Print) -> io::Result<()> {
    let steps = p1_steps();
    run_p1(rt, "room-192", &steps, &mut [JUNK; 192])?;
    println!(rt)?;
    let mut short = [JUNK; 191];
    run_p1(rt, "room-191", &steps, &mut short)?;
    print_changed(rt, "changed", &short)
}

// A record of P1's A handed back: the length of the part, and its literals where it is not empty.
fn handed_back(rt: &impl Print) -> io::Result<()> {
    let a = p1_a();
    let beyond = record(a.as_flattened(), usize::MAX);
    println!(rt; "record-largest {}", beyond.len())?;
    let second = record(a.as_flattened(), 1);
    println!(rt; "record-1 {} {}", second.len(), Clause(second))
}

fn main(rt: HostRuntime) -> io::Result<()> {
    p1(&rt)?;
    p2_to_p4(&rt)?;
    p9(&rt)?;
    p1_first_step(&rt, "P10", step(1, 0, 0, 0))?;
    p1_first_step(&rt, "P11", step(0, 2, 0, 0))?;
    p1_first_step(&rt, "P12", step(4, 1, 0, 0))?;
    p1_first_step(&rt, "P12-spare", step(4, 1, 0, 1))?;
    lengths(&rt)?;
    clauses(&rt)?;
    room(&rt)?;
    behind(&rt)?;
    after_root(&rt)?;
    p1_third_step(&rt)?;
    handed_back(&rt)
}
