// The cases of the check. A line: the case's own numbers, then number, place, root and count, and the gates (kind, left, right). At its
// end is how many bytes of the work table and of the gate table lost the junk put there before the call.
ghost use Rattle.std.specs.Prelude.{◌≤◌};

use crate::evaluations::value;
use crate::printing::{changed, print_gates};
use crate::tables::{JUNK, check_p1, clause, p1_steps, step};
use circuits::{Answer, check};
use std::io;

fn print_answer(rt: &impl Print, answer: &Answer) -> io::Result<()> {
    print!(rt;
        ": {} {} {} {}",
        answer.number, answer.place, answer.root, answer.count
    )
}

// The end of a line: the answer, its gates, and the counts of changed bytes.
fn print_checked(rt: &impl Print, answer: &Answer, work: &[u8], gates: &[u8]) -> io::Result<()> {
    print_answer(rt, answer)?;
    print_gates(rt, gates, answer.count)?;
    println!(rt; " changed {} {}", changed(work), changed(gates))
}

// P1 with so many bytes of work room, of gate room and of its step table, and with another second step.
fn p1(rt: &impl Print, work: usize, gates: usize, bytes: usize, second: [u8; 8]) -> io::Result<()>
    requires work { work ≤ 259 }
    requires gates { gates ≤ 101 }
    requires bytes { bytes ≤ 24 }
{
    let [left, _, right, _, _, spare, _, _] = second;
    print!(rt; "P1 {work} {gates} {bytes} {left} {right} {spare}")?;
    let steps = p1_steps(second);
    let mut of_work = [JUNK; 259];
    let mut of_gates = [JUNK; 101];
    let of_work = &mut of_work[..work];
    let of_gates = &mut of_gates[..gates];
    let answer = check_p1(&steps.as_flattened()[..bytes], of_work, of_gates);
    print_checked(rt, &answer, of_work, of_gates)
}

// A byte too little for three steps in both tables, in one, and in none; then more than is asked for, and no multiple of a gate's bytes.
fn rooms(rt: &impl Print) -> io::Result<()> {
    let second = step(2, 3, 2, 0);
    p1(rt, 191, 71, 24, second)?;
    p1(rt, 191, 72, 24, second)?;
    p1(rt, 192, 71, 24, second)?;
    p1(rt, 192, 72, 24, second)?;
    p1(rt, 259, 101, 24, second)
}

// A second step that is refused leaves the first one's result and no gate; too little gate room comes before it. Last, two steps without
// a root.
fn refused_steps(rt: &impl Print) -> io::Result<()> {
    p1(rt, 192, 71, 24, step(2, 3, 2, 1))?;
    p1(rt, 192, 72, 24, step(5, 2, 2, 1))?;
    p1(rt, 192, 72, 24, step(5, 2, 2, 0))?;
    p1(rt, 192, 72, 24, step(3, 2, 2, 0))?;
    p1(rt, 192, 72, 24, step(2, 2, 2, 0))?;
    p1(rt, 192, 72, 16, step(2, 3, 2, 0))
}

// So many bytes of {x0, not x0} as A, and of zeros as B and as steps, each (0, 0, 0).
fn check_signs(a: usize, b: usize, steps: usize, work: &mut [u8], gates: &mut [u8]) -> Answer
    requires a { a ≤ 64 }
    requires b { b ≤ 65 }
    requires steps { steps ≤ 65 }
{
    let zeros = [0; 65];
    check(
        &clause(1, 1)[..a],
        &zeros[..b],
        &zeros[..steps],
        work,
        gates,
    )
    .into()
}

fn signs(rt: &impl Print, a: usize, b: usize, steps: usize) -> io::Result<()>
    requires a { a ≤ 64 }
    requires b { b ≤ 65 }
    requires steps { steps ≤ 65 }
{
    print!(rt; "signs {a} {b} {steps}")?;
    let mut work = [JUNK; 100];
    let mut gates = [JUNK; 31];
    let answer = check_signs(a, b, steps, &mut work, &mut gates);
    print_checked(rt, &answer, &work, &gates)
}

// The fourth is P9. In the last the empty clause of B is the root, and the step has its gate all the same.
fn lengths(rt: &impl Print) -> io::Result<()> {
    signs(rt, 63, 65, 0)?;
    signs(rt, 64, 65, 7)?;
    signs(rt, 64, 64, 7)?;
    signs(rt, 64, 0, 8)?;
    signs(rt, 64, 64, 8)
}

// So many bytes of steps (0, 0, 0) behind {x0, not x0} in A, and {x0} and the empty clause in B, with work room for 1,021 of them.
fn check_many(bytes: usize, gates: &mut [u8]) -> Answer
    requires { bytes ≤ 8176 }
{
    let b = [clause(1, 0), clause(0, 0)];
    let steps = [0; 8176];
    let mut work = [JUNK; 65344];
    check(
        &clause(1, 1),
        b.as_flattened(),
        &steps[..bytes],
        &mut work,
        gates,
    )
    .into()
}

// With gate room for 1,021 too, three gates each: the last gate, then number, place and value of gate 3,060 with all variables true.
fn many(rt: &impl Print, bytes: usize) -> io::Result<()>
    requires { bytes ≤ 8176 }
{
    print!(rt; "many {bytes}")?;
    let mut gates = [JUNK; 24504];
    print_answer(rt, &check_many(bytes, &mut gates))?;
    print_gates(rt, &gates[24496..], 1)?;
    value(rt, &[0xFF; 32], &gates, 3574)
}

pub(crate) fn all(rt: &impl Print) -> io::Result<()> {
    rooms(rt)?;
    refused_steps(rt)?;
    lengths(rt)?;
    many(rt, 8168)?;
    many(rt, 8176)
}
