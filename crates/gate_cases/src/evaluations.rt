// The cases of evaluating a gate table. A line: the case's own numbers, then number, place and value.
ghost use Rattle.std.specs.Prelude.{◌<◌, ◌≤◌};

use crate::printing::{Gate, print_evaluated};
use crate::tables::{JUNK, assignment, check_p1, p1_steps, step};
use circuits::{evaluate, write_gate};
use std::io;

pub(crate) fn value(rt: &impl Print, bits: &[u8], table: &[u8], root: usize) -> io::Result<()> {
    print_evaluated(rt, evaluate(bits, table, root).into())
}

// Puts P1's circuit into the table, by the check.
fn put_circuit(gates: &mut [u8]) {
    let steps = p1_steps(step(2, 3, 2, 0));
    check_p1(steps.as_flattened(), &mut [JUNK; 192], gates);
}

// So many bytes of that circuit, where the variable differs from all others.
fn circuit(rt: &impl Print, bytes: usize, variable: u8, truth: bool, root: usize) -> io::Result<()>
    requires { bytes ≤ 72 }
{
    print!(rt; "circuit {bytes} {variable} {} {root}", u8::from(truth))?;
    let mut gates = [JUNK; 72];
    put_circuit(&mut gates);
    value(rt, &assignment(variable, truth), &gates[..bytes], root)
}

// No gates. The sixth to the eighth root are past any gate, and low in their last two or four bytes.
fn no_gates(rt: &impl Print) -> io::Result<()> {
    circuit(rt, 0, 255, true, 513)?;
    circuit(rt, 0, 255, true, 512)?;
    circuit(rt, 0, 255, false, 513)?;
    circuit(rt, 0, 255, false, 512)?;
    circuit(rt, 0, 255, false, 514)?;
    circuit(rt, 0, 255, false, 65536)?;
    circuit(rt, 0, 255, false, 66049)?;
    circuit(rt, 0, 255, false, 4294967809)?;
    circuit(rt, 0, 255, false, usize::MAX)
}

// All five gates.
fn five_gates(rt: &impl Print) -> io::Result<()> {
    circuit(rt, 40, 1, true, 518)?;
    circuit(rt, 40, 1, false, 518)?;
    circuit(rt, 40, 1, true, 519)?;
    circuit(rt, 40, 1, true, 65536)?;
    circuit(rt, 40, 1, true, 66054)?;
    circuit(rt, 40, 1, true, 4294967814)?;
    circuit(rt, 40, 1, true, usize::MAX)
}

// AND(1, 1) with another byte, all variables false.
fn byte(rt: &impl Print, at: usize, byte: u8) -> io::Result<()>
    requires { at < 8 }
{
    print!(rt; "byte {at} {byte}")?;
    let mut table = [1, 0, 1, 0, 1, 0, 0, 0];
    table[at] = byte;
    value(rt, &[0; 32], &table, 514)
}

// The third makes the left input 513, and the fourth 65,281.
fn bytes(rt: &impl Print) -> io::Result<()> {
    byte(rt, 0, 1)?;
    byte(rt, 0, 2)?;
    byte(rt, 3, 2)?;
    byte(rt, 3, 255)?;
    byte(rt, 0, 0)?;
    byte(rt, 0, 3)?;
    byte(rt, 1, 1)?;
    byte(rt, 6, 128)?;
    byte(rt, 7, 1)
}

// Two gates over junk at the second one, all variables false.
fn two(rt: &impl Print, first: Gate, second: Gate) -> io::Result<()> {
    print!(rt; "two {first} {second}")?;
    let mut table = [JUNK; 16];
    write_gate(&mut table, 0, first.kind, first.left, first.right);
    write_gate(&mut table, 1, second.kind, second.left, second.right);
    value(rt, &[0; 32], &table, 515)
}

// The first gate that fails is named, by the first test that it fails.
fn twos(rt: &impl Print) -> io::Result<()> {
    two(rt, Gate::new(1, 514, 1), Gate::new(1, 1, 1))?;
    two(rt, Gate::new(1, 1, 514), Gate::new(1, 1, 1))?;
    two(rt, Gate::new(0, 0, 0), Gate::new(1, 1, 1))?;
    two(rt, Gate::new(1, 514, 1), Gate::new(0, 0, 0))?;
    two(rt, Gate::new(1, 1, 1), Gate::new(3, 65535, 1))?;
    two(rt, Gate::new(1, 1, 1), Gate::new(2, 515, 0))?;
    two(rt, Gate::new(1, 1, 1), Gate::new(2, 514, 0))?;
    two(rt, Gate::new(1, 513, 1), Gate::new(1, 514, 3))
}

// So many zero bytes of an assignment and of a table.
fn zeros(rt: &impl Print, bits: usize, bytes: usize, root: usize) -> io::Result<()>
    requires bits { bits ≤ 33 }
    requires bytes { bytes ≤ 8 }
{
    print!(rt; "zeros {bits} {bytes} {root}")?;
    value(rt, &[0; 33][..bits], &[0; 8][..bytes], root)
}

// The assignment's length comes before all else, then the table's, then its gate, and last the root.
fn lengths(rt: &impl Print) -> io::Result<()> {
    zeros(rt, 31, 0, 1)?;
    zeros(rt, 33, 0, 1)?;
    zeros(rt, 31, 8, 514)?;
    zeros(rt, 33, 7, usize::MAX)?;
    zeros(rt, 32, 7, usize::MAX)?;
    zeros(rt, 32, 8, usize::MAX)?;
    zeros(rt, 32, 0, 1)
}

// 3,072 gates, each with the value of the one before it, and the first with that of not x255.
fn put_chain(table: &mut [u8]) {
    for k in 0..3072u16 {
        write_gate(table, usize::from(k), 1, 513 + k, 1);
    }
}

// So many bytes of them, and of a zero record behind them.
fn chain(rt: &impl Print, bytes: usize, root: usize) -> io::Result<()>
    requires { bytes ≤ 24584 }
{
    print!(rt; "chain {bytes} {root}")?;
    let mut table = [0; 24584];
    put_chain(&mut table);
    value(rt, &[0; 32], &table[..bytes], root)
}

// The first two end at the gates whose left inputs are 1,024 and 2,048. Then the longest table that is taken, and a record more.
fn chains(rt: &impl Print) -> io::Result<()> {
    chain(rt, 4096, 1025)?;
    chain(rt, 12288, 2049)?;
    chain(rt, 24576, 3585)?;
    chain(rt, 24576, 3586)?;
    chain(rt, 24584, 3585)
}

pub(crate) fn all(rt: &impl Print) -> io::Result<()> {
    no_gates(rt)?;
    five_gates(rt)?;
    bytes(rt)?;
    twos(rt)?;
    lengths(rt)?;
    chains(rt)
}
