// The report: which file is refused, and else the outcome of the check, as the whole text that the program writes.
ghost use Rattle.std.specs.Prelude.{◌≡◌, ◌+◌, ◌*◌, ◌≤◌, ◌++◌, length, replicate};
ghost use Rattle.arrayvec.specs.ArrayString.{array_string_len};
ghost use Rattle.records.specs.Tests.{first_failed, Says};
ghost use Rattle.print.specs.Line.{printed, printed_by};
ghost use Rattle.print.specs.Report.{file_place, file_verdict, file_tests, files_checked, report_text};

use crate::text::{Text, write_answer, write_gates};

// "At most 16,384, 16,384 and 2,048 bytes."
pub(crate) const TABLE_LIMIT: usize = 16384;

pub(crate) const STEPS_LIMIT: usize = 2048;

// The number of a file's refusal.
const FILE_REFUSED: usize = 30;

// A file that can't be read or is longer.
#[derive(Clone, Copy, Debug, PartialEq, Eq, Hash)]
pub(crate) enum File {
    A,
    B,
    Steps,
}

impl File {
    // The f of its line.
    fn place(self) -> usize
        ensures { result ≡ file_place self }
    {
        match self {
            File::A => 1,
            File::B => 2,
            File::Steps => 3,
        }
    }
}

// Zeros, made by a function of its own, so that no goal of its callers holds thousands of them.
fn zeros<const N: usize>() -> [u8; N]
    ensures { result ≡ replicate N 0 }
{
    [0; N]
}

// "The first one, in that order, that can't be read or is longer gives the one line `30 f 0 0`, f = 1, 2 or 3."
fn test_files(a: &[u8], b: &[u8], steps: &[u8]) -> Result<(), File>
    ensures { Says (first_failed (file_tests a.now b.now steps.now)) (file_verdict result) }
{
    if TABLE_LIMIT < a.len() {
        return Err(File::A);
    }
    if TABLE_LIMIT < b.len() {
        return Err(File::B);
    }
    if STEPS_LIMIT < steps.len() {
        return Err(File::Steps);
    }
    Ok(())
}

// The outcome of a check, with its gates on acceptance. Its four numbers are printed in either case, and `printed_by` asks the first of them: by
// a `match` on the check's result the line would be written twice.
fn write_outcome(text: &mut Text, answer: circuits::Answer, gates: &[u8])
    requires fits { answer.number ≡ 0 → (answer.count ≤ 768) × (8 * answer.count ≤ length gates.now) }
    requires empty { array_string_len text.old ≡ 0 }
    ensures { text.new.bytes ≡ text.old.bytes ++ printed_by answer.number answer.place answer.root answer.count gates.now }
{
    write_answer(text, answer.number, answer.place, answer.root, answer.count);
    if answer.number == 0 {
        write_gates(text, gates, answer.count);
    }
}

// The check over tables within their limits, with the program's "own work and gate tables".
fn write_checked(text: &mut Text, a: &[u8], b: &[u8], steps: &[u8])
    requires within { length steps.now ≤ 2048 }
    requires empty { array_string_len text.old ≡ 0 }
    ensures { text.new.bytes ≡ text.old.bytes ++ printed (files_checked a.now b.now steps.now) }
{
    let mut work: [u8; 16384] = zeros();
    let mut gates: [u8; 6144] = zeros();
    let answer = circuits::check(a, b, steps, &mut work, &mut gates).into();
    write_outcome(text, answer, &gates);
}

// All that the program writes, by what was read of the three files.
pub(crate) fn report(a: &[u8], b: &[u8], steps: &[u8]) -> Text
    ensures { result.bytes ≡ report_text a.now b.now steps.now }
{
    let mut text = Text::new();
    match test_files(a, b, steps) {
        Ok(()) => write_checked(&mut text, a, b, steps),
        Err(file) => write_answer(&mut text, FILE_REFUSED, file.place(), 0, 0),
    }
    text
}
