// Printing a case's line: the literals of a clause, and how many bytes of the work table changed.
ghost use Rattle.std.specs.Prelude.{◌*◌, ◌≤◌, length};

use crate::tables::{JUNK, Literal};
use records::{has_literal, record};
use std::{fmt, io};

// A clause, printed as its literals, variable by variable.
#[derive(Drop)]
pub(crate) struct Clause<'a>(pub &'a [u8]);

impl fmt::Display for Clause<'_> {
    fn fmt<W: fmt::Write>(&self, f: &mut fmt::Formatter<W>) -> fmt::Result {
        let mut space = "";
        for v in 0..=255u8 {
            for literal in [Literal::Positive(v), Literal::Negative(v)] {
                if has_literal(self.0, literal.bit()) {
                    write!(f, "{space}{literal}")?;
                    space = " ";
                }
            }
        }
        Ok(())
    }
}

// Ends a line with the count of bytes that are not the junk.
pub(crate) fn print_changed(rt: &impl Print, word: &str, table: &[u8]) -> io::Result<()> {
    let changed = table.iter().filter(|byte| **byte != JUNK).count();
    println!(rt; " {word} {changed}")
}

// Ends a line with the first results in the work table, as sets of literals, and the count behind them.
pub(crate) fn print_results(rt: &impl Print, work: &[u8], results: usize) -> io::Result<()>
    requires { 64 * results ≤ length work.now }
{
    for r in 0..results {
        print!(rt; " {{{}}}", Clause(record(work, r)))?;
    }
    print_changed(rt, "changed-behind", &work[64 * results..])
}
