// The tables that several cases use: P1's clauses, steps and check, and assignments. This program makes its tables on its own, as
// step_cases does: a library for both would need public contracts and edits for a few lines.
use circuits::{Answer, check};

// What a lent table is filled with before a call. No byte that a case counts as written is this one.
pub(crate) const JUNK: u8 = 0xA5;

// A clause's record, by the first byte of its positive and of its negative literals; bit v of each is variable v.
pub(crate) fn clause(positive: u8, negative: u8) -> [u8; 64] {
    let mut record = [0u8; 64];
    record[0] = positive;
    record[32] = negative;
    record
}

// A step's record. Clause numbers here fit one byte; the spare byte is the first of three.
pub(crate) fn step(left: u8, right: u8, pivot: u8, spare: u8) -> [u8; 8] {
    [left, 0, right, 0, pivot, spare, 0, 0]
}

// (0, 1, 0), the second step, then (4, 5, 1). P1 has (2, 3, 2) as its second.
pub(crate) fn p1_steps(second: [u8; 8]) -> [[u8; 8]; 3] {
    [step(0, 1, 0, 0), second, step(4, 5, 1, 0)]
}

// The check of P1's clauses: {x0}, {not x0, x1} and {not x1, x2}, {not x2}.
pub(crate) fn check_p1(steps: &[u8], work: &mut [u8], gates: &mut [u8]) -> Answer {
    let a = [clause(0b001, 0), clause(0b010, 0b001)];
    let b = [clause(0b100, 0b010), clause(0, 0b100)];
    check(a.as_flattened(), b.as_flattened(), steps, work, gates).into()
}

// The variable has that truth, and all others the other.
pub(crate) fn assignment(variable: u8, truth: bool) -> [u8; 32] {
    let others = if truth { 0 } else { 0xFF };
    let mut bits = [others; 32];
    bits[usize::from(variable) / 8] ^= 1 << (variable % 8);
    bits
}
