// Evaluating: one gate on plain numbers, and a gate table under an assignment. It writes nothing but the values it keeps: of a table a
// byte a reference, so that an input's value is one lookup, whatever the input is.
//
// The pieces take the half and the slice of values; `evaluate_in` fixes them.
ghost use Rattle.std.specs.Prelude.{◌≡◌, ◌+◌, ◌*◌, ◌/◌, ◌<◌, ◌≤◌, length};
ghost use Rattle.records.specs.Tests.{first_failed};
ghost use Rattle.circuits.specs.Malformed.{evaluated_of};
ghost use Rattle.circuits.specs.Evaluate.{length_tests, gate_evaluated, evaluated, Evaluates};
ghost use Rattle.circuits.specs.EvaluateInside.{refusal_verdict, kind_of, GateTested, Joined, GateRead, RowFilled, Filled, Room, Ran, evaluated_within};

use crate::kinds::Kind;
use crate::refusals::{GateFault, Malformed};

// A refusal's number and place with value 0, or 0, 0 and the value, 0 or 1.
#[repr(C)]
#[derive(Clone, Copy, Debug, PartialEq, Eq, Hash)]
pub struct Evaluated {
    pub number: usize,
    pub place: usize,
    pub value: usize,
}

impl From<Result<bool, Malformed>> for Evaluated {
    ghost from_gives = { λ answer e. e ≡ evaluated_of answer };

    fn from(answer: Result<bool, Malformed>) -> Evaluated {
        match answer {
            Ok(value) => Evaluated {
                number: 0,
                place: 0,
                value: usize::from(value),
            },
            Err(malformed) => Evaluated {
                number: malformed.number(),
                place: malformed.place(),
                value: 0,
            },
        }
    }
}

// A gate's bytes as four numbers of two bytes each, read once and let go: any bytes, so that the kind is a number here. Where byte 1 is set the
// kind is 256 or more, so the test of the kind is that of byte 1 too.
#[derive(Drop)]
struct GateRecord {
    kind: usize,
    left: usize,
    right: usize,
    tail: usize,
}

// A `match` would be a jump on the kind, guessed wrong half of the time. One less than the kind, where 0 wraps to the largest number, is 0 of
// AND and 1 of OR, so that one test refuses any other kind, and what is left is the kind as it is kept.
impl TryFrom<usize> for Kind {
    type Error = GateFault;

    ghost try_from_gives = { λ number kind. kind ≡ kind_of number };

    fn try_from(number: usize) -> Result<Kind, GateFault> {
        let or = number.wrapping_sub(1);
        if 1 < or {
            return Err(GateFault::Form);
        }
        Ok(if or == 0 { Kind::And } else { Kind::Or })
    }
}

// Tests 22 and 23 of gate k, whose own reference is given: its kind where it passes.
fn test_gate(
    kind: usize,
    left: usize,
    right: usize,
    own: usize,
    k: usize,
) -> Result<Kind, Malformed>
    ensures { GateTested kind left right own k result }
{
    let kind = Kind::try_from(kind).map_err(|fault| Malformed::AtGate(fault, k))?;
    if own <= left {
        return Err(Malformed::AtGate(GateFault::InputNotEarlier, k));
    }
    if own <= right {
        return Err(Malformed::AtGate(GateFault::InputNotEarlier, k));
    }
    Ok(kind)
}

// The value of a gate from those of its inputs, each 0 or 1. A branch on the kind would be guessed wrong half of the time: half of the sum
// is the AND, and half of one more is the OR.
fn gate_value(kind: Kind, first: u8, second: u8) -> u8
    requires { (first ≤ 1) × (second ≤ 1) }
    ensures { Joined kind first second result }
{
    (first + second + (u8::from(kind) - 1)) / 2
}

// One gate on plain numbers, gate k, behind the references whose values are given, a byte each, of which the lowest bit counts: the gate's
// own reference is their number. Its fault, or its value.
pub fn evaluate_gate(
    kind: usize,
    left: usize,
    right: usize,
    k: usize,
    values: &[u8],
) -> Result<bool, Malformed>
    ensures { Evaluates (gate_evaluated values.now k (record { kind = kind; left = left; right = right })) (evaluated_of result) }
{
    let kind = test_gate(kind, left, right, values.len(), k)?;
    Ok(gate_value(kind, values[left] % 2, values[right] % 2) == 1)
}

// Gate k of a table that has it.
fn read_gate(table: &[u8], k: usize) -> GateRecord
    requires { 8 * k + 8 ≤ length table.now }
    ensures { GateRead table.now k result }
{
    let at = 8 * k;
    GateRecord {
        kind: usize::from(u16::from_le_bytes([table[at], table[at + 1]])),
        left: usize::from(u16::from_le_bytes([table[at + 2], table[at + 3]])),
        right: usize::from(u16::from_le_bytes([table[at + 4], table[at + 5]])),
        tail: usize::from(u16::from_le_bytes([table[at + 6], table[at + 7]])),
    }
}

// The values of the two literals of each of four variables, a row for each way their bits can be.
static ROWS: [[u8; 8]; 16] = [
    [0, 1, 0, 1, 0, 1, 0, 1],
    [1, 0, 0, 1, 0, 1, 0, 1],
    [0, 1, 1, 0, 0, 1, 0, 1],
    [1, 0, 1, 0, 0, 1, 0, 1],
    [0, 1, 0, 1, 1, 0, 0, 1],
    [1, 0, 0, 1, 1, 0, 0, 1],
    [0, 1, 1, 0, 1, 0, 0, 1],
    [1, 0, 1, 0, 1, 0, 0, 1],
    [0, 1, 0, 1, 0, 1, 1, 0],
    [1, 0, 0, 1, 0, 1, 1, 0],
    [0, 1, 1, 0, 0, 1, 1, 0],
    [1, 0, 1, 0, 0, 1, 1, 0],
    [0, 1, 0, 1, 1, 0, 1, 0],
    [1, 0, 0, 1, 1, 0, 1, 0],
    [0, 1, 1, 0, 1, 0, 1, 0],
    [1, 0, 1, 0, 1, 0, 1, 0],
];

// The eight values from `at` on, by row n. `copy_from_slice` would ask at each row whether the two parts overlap, thirteen instructions a byte of the
// assignment.
fn fill_row(n: usize, values: &mut [u8], at: usize)
    requires { (n < 16) × (at + 8 ≤ length values.old) }
    ensures { RowFilled n at values.old values.new }
{
    for i in 0..8 {
        values[at + i] = ROWS[n][i];
    }
}

// The values of the literals of byte j of the assignment, behind those of the bytes before it: a row for each half of the byte.
fn fill_byte(assignment: &[u8], j: usize, values: &mut [u8])
    requires inside { (j < length assignment.now) × (j < 64) × (2 + 16 * (j + 1) ≤ length values.old) }
    requires before { Filled (8 * j) assignment.now (8 * j) values.old }
    ensures { Filled (8 * (j + 1)) assignment.now (8 * (j + 1)) values.new }
{
    let byte = usize::from(assignment[j]);
    let at = 2 + 16 * j;
    fill_row(byte % 16, values, at);
    fill_row(byte / 16, values, at + 8);
}

// The values of the constants and of all literals.
fn fill_literals(half: usize, assignment: &[u8], values: &mut [u8])
    requires { (half ≤ 64) × (half ≤ length assignment.now) × (2 + 16 * half ≤ length values.old) }
    ensures { Filled (8 * half) assignment.now (8 * half) values.new }
{
    values[0] = 0;
    values[1] = 1;
    for j in 0..half {
        fill_byte(assignment, j, values);
    }
}

// All gates of a table in order, up to the first that is refused; each value is kept. What is kept is 0 or 1, so that no lowest bit is
// taken here. Never inlined: within its caller each gate would first set the parts of a refusal, three instructions more.
#[inline(never)]
fn evaluate_gates(
    half: usize,
    assignment: &[u8],
    table: &[u8],
    values: &mut [u8],
) -> Result<(), Malformed>
    requires { Room half assignment.now table.now values.old }
    ensures { Ran (8 * half) assignment.now table.now values.new result }
{
    fill_literals(half, assignment, values);
    let first = 2 + 2 * (8 * half);
    for k in 0..table.len() / 8 {
        let own = first + k;
        let gate = read_gate(table, k);
        // The two spare bytes behind the inputs, as one number.
        if gate.tail != 0 {
            return Err(Malformed::AtGate(GateFault::Form, k));
        }
        let kind = test_gate(gate.kind, gate.left, gate.right, own, k)?;
        values[own] = gate_value(kind, values[gate.left], values[gate.right]);
    }
    Ok(())
}

// Tests 20 and 21.
fn test_lengths(half: usize, most: usize, assignment: &[u8], table: &[u8]) -> Result<(), Malformed>
    ensures { refusal_verdict result ≡ first_failed (length_tests half most assignment.now table.now) }
{
    if assignment.len() != half {
        return Err(Malformed::LengthOfAssignment);
    }
    if table.len() % 8 != 0 {
        return Err(Malformed::LengthOfGates);
    }
    if most < table.len() / 8 {
        return Err(Malformed::LengthOfGates);
    }
    Ok(())
}

// Behind the tests of the lengths: the gates, and the root.
fn evaluate_halves(
    half: usize,
    assignment: &[u8],
    table: &[u8],
    root: usize,
    values: &mut [u8],
) -> Result<bool, Malformed>
    requires { Room half assignment.now table.now values.old }
    ensures { Evaluates (evaluated_within half assignment.now table.now root) (evaluated_of result) }
{
    evaluate_gates(half, assignment, table, values)?;
    if 2 + 2 * (8 * half) + table.len() / 8 <= root {
        return Err(Malformed::RootNotThere);
    }
    Ok(values[root] == 1)
}

// Behind the tests of the lengths, with room for so many values. The array is cleared before it is used, so a small circuit takes a small one;
// each size is a function of its own, so that the arrays share their place on the stack.
fn evaluate_in<const VALUES: usize>(
    assignment: &[u8],
    table: &[u8],
    root: usize,
) -> Result<bool, Malformed>
    requires { (length assignment.now ≡ 32) × (514 + length table.now / 8 ≤ VALUES) × (VALUES ≤ 3586) }
    ensures { Evaluates (evaluated_within 32 assignment.now table.now root) (evaluated_of result) }
{
    let mut values = [0u8; VALUES];
    evaluate_halves(32, assignment, table, root, &mut values)
}

// A gate table of at most 3,072 gates at a root reference, under an assignment of 32 bytes: what is malformed first, by the lengths, gate by gate
// and last the root, or the root's value. The root may be as large as a usize gets. A table of at most a page, 4,096 bytes or 512 gates, takes the
// smaller array.
pub fn evaluate(assignment: &[u8], table: &[u8], root: usize) -> Result<bool, Malformed>
    ensures { Evaluates (evaluated 32 3072 assignment.now table.now root) (evaluated_of result) }
{
    test_lengths(32, 3072, assignment, table)?;
    if table.len() <= 4096 {
        return evaluate_in::<1026>(assignment, table, root);
    }
    evaluate_in::<3586>(assignment, table, root)
}
