// Printing a case's line: what an evaluation answered, gates, and how many bytes of a lent table changed.
use crate::tables::JUNK;
use circuits::Evaluated;
use std::{fmt, io};

// A gate as its record says it, well formed or not.
#[derive(Clone, Copy)]
pub(crate) struct Gate {
    pub kind: u8,
    pub left: u16,
    pub right: u16,
}

impl Gate {
    pub(crate) fn new(kind: u8, left: u16, right: u16) -> Gate {
        Gate { kind, left, right }
    }

    // The cases read the bytes here on their own, without the crate that they try.
    fn read(record: &[u8; 8]) -> Gate {
        let [kind, _, left, left_high, right, right_high, _, _] = *record;
        Gate::new(
            kind,
            u16::from_le_bytes([left, left_high]),
            u16::from_le_bytes([right, right_high]),
        )
    }
}

impl fmt::Display for Gate {
    fn fmt<W: fmt::Write>(&self, f: &mut fmt::Formatter<W>) -> fmt::Result {
        let Gate { kind, left, right } = *self;
        write!(f, "{kind} {left} {right}")
    }
}

// Number, place and value end a line.
pub(crate) fn print_evaluated(rt: &impl Print, got: Evaluated) -> io::Result<()> {
    println!(rt; ": {} {} {}", got.number, got.place, got.value)
}

// How many bytes of the table are not the junk.
pub(crate) fn changed(table: &[u8]) -> usize {
    table.iter().filter(|byte| **byte != JUNK).count()
}

// The first gates, as many as there are said to be.
pub(crate) fn print_gates(rt: &impl Print, gates: &[u8], count: usize) -> io::Result<()> {
    let (records, _) = gates.as_chunks::<8>();
    for record in records.iter().take(count) {
        print!(rt; ", {}", Gate::read(record))?;
    }
    Ok(())
}
