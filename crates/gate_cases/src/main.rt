// Document 01's cases of the gate layer, run on real tables; the file stdout has what the document expects.
#![tactic(auto)]

mod checks;
mod evaluations;
mod printing;
mod single;
mod tables;

use std::io;

fn main(rt: HostRuntime) -> io::Result<()> {
    checks::all(&rt)?;
    evaluations::all(&rt)?;
    single::all(&rt)
}
