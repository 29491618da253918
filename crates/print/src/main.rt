// The printing program: it reads a.rec, b.rec and steps.rec from the working directory, and writes their report.
//
// No contract of std says which bytes a file gives or a write takes. That these are the files' bytes, and that the report's bytes come
// out, is left to std; what is decided between the two stands in `files::file_size`, `files::read_open`, `files::read_handed` and
// `report::report`.
#![tactic(auto)]

mod files;
mod report;
mod text;

use crate::files::read_file;
use crate::report::{STEPS_LIMIT, TABLE_LIMIT, report};
use std::io;

// Each buffer has room for one byte more than its file's limit, so that a file that can't be read or is longer is handed on as all of it: the
// report has the same line for both. The text is written as it is, in one piece.
fn main(rt: HostRuntime) -> io::Result<()> {
    let mut a = [0u8; TABLE_LIMIT + 1];
    let in_a = read_file(&rt, "a.rec", TABLE_LIMIT, &mut a);
    let mut b = [0u8; TABLE_LIMIT + 1];
    let in_b = read_file(&rt, "b.rec", TABLE_LIMIT, &mut b);
    let mut steps = [0u8; STEPS_LIMIT + 1];
    let in_steps = read_file(&rt, "steps.rec", STEPS_LIMIT, &mut steps);
    let text = report(&a[..in_a], &b[..in_b], &steps[..in_steps]);
    rt.write_all(text.as_bytes())
}
