// Making tables: clauses by their literals, steps, and P1's three tables. This program makes its tables on its own, as gate_cases does: a
// library for both would need public contracts and edits for a few lines.
ghost use Rattle.std.specs.Prelude.{◌<◌};

use std::fmt;

// What the work table is filled with before a call. No result here has such a byte, so each byte written shows.
pub(crate) const JUNK: u8 = 0xA5;

// A variable, or its negation.
#[derive(Clone, Copy)]
pub(crate) enum Literal {
    Positive(u8),
    Negative(u8),
}

pub(crate) const X0: Literal = Literal::Positive(0);

const X1: Literal = Literal::Positive(1);

const X2: Literal = Literal::Positive(2);

pub(crate) const NOT_X0: Literal = Literal::Negative(0);

const NOT_X1: Literal = Literal::Negative(1);

const NOT_X2: Literal = Literal::Negative(2);

impl Literal {
    // The literal's bit in a record: v for a variable, 256 + v for its negation.
    pub(crate) fn bit(self) -> usize
        ensures { result < 512 }
    {
        match self {
            Literal::Positive(v) => usize::from(v),
            Literal::Negative(v) => 256 + usize::from(v),
        }
    }
}

impl fmt::Display for Literal {
    fn fmt<W: fmt::Write>(&self, f: &mut fmt::Formatter<W>) -> fmt::Result {
        match self {
            Literal::Positive(v) => write!(f, "x{v}"),
            Literal::Negative(v) => write!(f, "-x{v}"),
        }
    }
}

// The record of a clause.
pub(crate) fn clause(literals: &[Literal]) -> [u8; 64] {
    let mut record = [0u8; 64];
    for literal in literals {
        let bit = literal.bit();
        record[bit / 8] |= 1 << (bit % 8);
    }
    record
}

// A step's record. Clause numbers here fit one byte; the spare byte is the first of three.
pub(crate) fn step(left: u8, right: u8, pivot: u8, spare: u8) -> [u8; 8] {
    [left, 0, right, 0, pivot, spare, 0, 0]
}

// {x0}, {not x0, x1}.
pub(crate) fn p1_a() -> [[u8; 64]; 2] {
    [clause(&[X0]), clause(&[NOT_X0, X1])]
}

// {not x1, x2}, {not x2}.
pub(crate) fn p1_b() -> [[u8; 64]; 2] {
    [clause(&[NOT_X1, X2]), clause(&[NOT_X2])]
}

pub(crate) fn p1_steps() -> [[u8; 8]; 3] {
    [step(0, 1, 0, 0), step(2, 3, 2, 0), step(4, 5, 1, 0)]
}
