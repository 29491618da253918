// Gates: the only place that knows how a gate's eight bytes are written.
ghost use Rattle.std.specs.Prelude.{◌≡◌, ◌+◌, ◌*◌, ◌≤◌, [], ◌∷◌, length};
ghost use Rattle.std.specs.Int.{w32, to_le_bytes};
ghost use Rattle.circuits.specs.Gate.{over, with_gates, gate_written};

// A number's four bytes, little endian, written from `at` on, where they have room. The compiler makes one store of the four;
// `copy_from_slice` asks first whether the two lie over each other, a quarter more instructions in a whole check.
fn put_four(table: &mut [u8], at: usize, number: u32)
    requires { at + 4 ≤ length table.old }
    ensures { table.new ≡ over table.old at (to_le_bytes w32 number) }
{
    let [first, second, third, fourth] = number.to_le_bytes();
    table[at] = first;
    table[at + 1] = second;
    table[at + 2] = third;
    table[at + 3] = fourth;
}

// Gate record k of a table, which has it, written: its first four bytes, kind and left input, and its last four, the right input.
pub(crate) fn put_gate(gates: &mut [u8], k: usize, kind: u8, left: u16, right: u16)
    requires { 8 * k + 8 ≤ length gates.old }
    ensures { gates.new ≡ with_gates gates.old k (record { kind = kind; left = left; right = right } ∷ []) }
{
    let at = 8 * k;
    put_four(gates, at, u32::from(kind) + 65536 * u32::from(left));
    put_four(gates, at + 4, u32::from(right));
}

// Gate record k of a table, written, of any kind that a byte has: a table may be malformed. Where the table has no record k nothing changes; k may be as large as a usize gets.
pub fn write_gate(gates: &mut [u8], k: usize, kind: u8, left: u16, right: u16)
    ensures { gates.new ≡ gate_written gates.old k (record { kind = kind; left = left; right = right }) }
{
    if gates.len() / 8 <= k {
        return;
    }
    put_gate(gates, k, kind, left, right);
}
