// The boundary to C: check, evaluate and record under names of their own, thin over the two layers, with the promises carried over whole.
//
// An exported function can't return a reference, so `privetcomb_record` answers where the record stands in the caller's table.
#![tactic(auto)]

ghost use Rattle.privetcomb.specs.Part.{PartOf};
ghost use Rattle.circuits.specs.Check.{plain_checked, Checks};
ghost use Rattle.circuits.specs.Evaluate.{evaluated, Evaluates};

#[unsafe(no_mangle)]
pub extern "C" fn privetcomb_check(
    a: &[u8],
    b: &[u8],
    steps: &[u8],
    work: &mut [u8],
    gates: &mut [u8],
) -> circuits::Answer
    ensures { Checks (plain_checked 32 1024 a.now b.now steps.now work.old gates.old) result work.new gates.new }
{
    circuits::check(a, b, steps, work, gates).into()
}

#[unsafe(no_mangle)]
pub extern "C" fn privetcomb_evaluate(
    assignment: &[u8],
    table: &[u8],
    root: usize,
) -> circuits::Evaluated
    ensures { Evaluates (evaluated 32 3072 assignment.now table.now root) result }
{
    circuits::evaluate(assignment, table, root).into()
}

// Where a record stands in a table: at a start, so many bytes.
#[repr(C)]
#[derive(Clone, Copy, Debug, PartialEq, Eq, Hash)]
pub struct Part {
    pub start: usize,
    pub length: usize,
}

#[unsafe(no_mangle)]
pub extern "C" fn privetcomb_record(table: &[u8], r: usize) -> Part
    ensures { PartOf table.now r result }
{
    if table.len() / 64 <= r {
        return Part {
            start: 0,
            length: 0,
        };
    }
    Part {
        start: 64 * r,
        length: 64,
    }
}
