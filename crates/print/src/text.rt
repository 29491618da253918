// The text: numbers, fields, the answer's line and the gates' lines, each appended to a string of fixed room.
//
// No line has more than 84 bytes: four fields of at most 20 bytes, as many as the largest usize has digits, and a byte behind each.
ghost use Rattle.std.specs.Prelude.{◌≡◌, ◌+◌, ◌*◌, ◌≤◌, ◌<◌, ◌++◌, length};
ghost use Rattle.arrayvec.specs.ArrayString.{array_string_len};
ghost use Rattle.circuits.specs.Gate.{gate_at};
ghost use Rattle.print.specs.Decimal.{decimal};
ghost use Rattle.print.specs.Line.{ended, line, kind_word, answer_line, gate_line, gate_lines};

use arrayvec::ArrayString;
use itoa::Buffer;

// 769 lines of 84 bytes: line one, and three gates for each of 256 steps.
const ROOM: usize = 64596;

pub(crate) type Text = ArrayString<ROOM>;

// The digits of n.
#[tactic(auto, using(crate::proofs::DecimalLaws::decimal_is))]
fn write_number(text: &mut Text, n: usize)
    requires { array_string_len text.old + 20 ≤ ROOM }
    ensures bytes { text.new.bytes ≡ text.old.bytes ++ decimal n }
    ensures short { array_string_len text.new ≤ array_string_len text.old + 20 }
{
    let mut digits = Buffer::new();
    text.push_str(digits.format(n));
}

// A number, and the byte that ends its field.
fn write_field(text: &mut Text, n: usize, end: char)
    requires room { array_string_len text.old + 21 ≤ ROOM }
    requires ascii { end < 128 }
    ensures bytes { text.new.bytes ≡ text.old.bytes ++ ended (decimal n) end }
    ensures short { array_string_len text.new ≤ array_string_len text.old + 21 }
{
    write_number(text, n);
    text.push(end);
}

// "Line one is number, place, root reference, gate count."
pub(crate) fn write_answer(text: &mut Text, number: usize, place: usize, root: usize, count: usize)
    requires { array_string_len text.old + 84 ≤ ROOM }
    ensures bytes { text.new.bytes ≡ text.old.bytes ++ answer_line number place root count }
    ensures short { array_string_len text.new ≤ array_string_len text.old + 84 }
{
    write_field(text, number, ' ');
    write_field(text, place, ' ');
    write_field(text, root, ' ');
    write_field(text, count, '\n');
}

// `and` or `or`, by a gate's byte 0. The byte is no enum here, since the definition too has a word for each byte.
fn kind_word(kind: u8) -> &'static str
    ensures word { result.now ≡ kind_word kind }
    ensures short { length result.now ≤ 3 }
{
    if kind == 1 { "and" } else { "or" }
}

// The word, and the space behind it.
fn write_kind(text: &mut Text, kind: u8)
    requires { array_string_len text.old + 4 ≤ ROOM }
    ensures bytes { text.new.bytes ≡ text.old.bytes ++ ended (kind_word kind) 32 }
    ensures short { array_string_len text.new ≤ array_string_len text.old + 4 }
{
    text.push_str(kind_word(kind));
    text.push(' ');
}

// The four fields of a gate's line.
fn write_fields(text: &mut Text, reference: usize, kind: u8, left: usize, right: usize)
    requires { array_string_len text.old + 84 ≤ ROOM }
    ensures bytes { text.new.bytes ≡ text.old.bytes ++ line (decimal reference) (kind_word kind) (decimal left) (decimal right) }
    ensures short { array_string_len text.new ≤ array_string_len text.old + 84 }
{
    write_field(text, reference, ' ');
    write_kind(text, kind);
    write_field(text, left, ' ');
    write_field(text, right, '\n');
}

// Gate k of a table that has it.
fn write_gate(text: &mut Text, table: &[u8], k: usize)
    requires within { 8 * k + 8 ≤ length table.now }
    requires room { array_string_len text.old + 84 ≤ ROOM }
    ensures bytes { text.new.bytes ≡ text.old.bytes ++ gate_line k (gate_at table.now k) }
    ensures short { array_string_len text.new ≤ array_string_len text.old + 84 }
{
    let start = 8 * k;
    let kind = table[start];
    let left = u16::from_le_bytes([table[start + 2], table[start + 3]]);
    let right = u16::from_le_bytes([table[start + 4], table[start + 5]]);
    write_fields(text, 514 + k, kind, usize::from(left), usize::from(right));
}

// The first gates of a table, as many as the count.
pub(crate) fn write_gates(text: &mut Text, table: &[u8], count: usize)
    requires within { 8 * count ≤ length table.now }
    requires room { array_string_len text.old + 84 * count ≤ ROOM }
    ensures { text.new.bytes ≡ text.old.bytes ++ gate_lines table.now count }
{
    for k in 0..count {
        write_gate(text, table, k);
    }
}
