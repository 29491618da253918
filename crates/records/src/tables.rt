// Tables of records: handing one back, the first that is empty, and all literals of a table.
ghost use Rattle.std.specs.Prelude.{◌≡◌, ◌+◌, ◌*◌, ◌/◌, ◌<◌, ◌≤◌, length, take, false};
ghost use Rattle.records.specs.Lists.{found};
ghost use Rattle.records.specs.Clause.{bytes_of};
ghost use Rattle.records.specs.Table.{record_at, records, first_empty, literals_of};
ghost use Rattle.records.specs.Inside.{joined};

// Record r, which the table has: the bytes from size * r.
pub(crate) fn part_of(table: &[u8], size: usize, r: usize) -> &[u8]
    requires { (0 < size) × (r < records size table.now) }
    ensures { result.now ≡ record_at size table.now r }
{
    let start = size * r;
    &table[start..start + size]
}

// Record r of a table of records of `size` bytes: the caller's own bytes from size * r, or the empty part where they are not all there.
pub(crate) fn record_of(table: &[u8], size: usize, r: usize) -> &[u8]
    requires { 0 < size }
    ensures { result.now ≡ record_at size table.now r }
{
    if r < table.len() / size {
        part_of(table, size, r)
    } else {
        &table[..0]
    }
}

// Record r of a clause table: the caller's own 64 bytes from 64 * r, or the empty part. r may be as large as a usize gets.
pub fn record(table: &[u8], r: usize) -> &[u8]
    ensures { result.now ≡ record_at 64 table.now r }
{
    record_of(table, 64, r)
}

// A copy of record r, which the table has, to the front of a part. The loop is compiled to wide moves, the library's `copy_from_slice` to one
// move a byte.
pub(crate) fn copy_record(table: &[u8], size: usize, r: usize, part: &mut [u8; 128])
    requires { (0 < size) × (size ≤ 128) × (r < records size table.now) }
    ensures { take size part.new ≡ record_at size table.now r }
{
    let start = size * r;
    for i in 0..size {
        part[i] = table[start + i];
    }
}

// The literals of a record added to those of another of the same length. Over `iter_mut().zip(..)` no more is known of the bytes behind the
// loop, so that it goes by the index.
fn join(from: &[u8], to: &mut [u8])
    requires { length to.old ≡ length from.now }
    ensures { to.new ≡ joined from.now to.old }
{
    for (i, byte) in from.iter().enumerate() {
        to[i] |= *byte;
    }
}

// All literals of a table whose records have half bytes for each sign, put together in a record that starts empty.
fn join_all(half: usize, table: &[u8], all: &mut [u8])
    requires { (0 < half) × (half ≤ 64) × (all.old ≡ bytes_of (2 * half) (λ l. false)) }
    ensures { all.new ≡ literals_of half table.now }
{
    let size = 2 * half;
    for r in 0..table.len() / size {
        join(part_of(table, size, r), all);
    }
}

// The first of n records all of whose bytes are zero. A record's bytes are joined and not left at the first that is not zero: so the
// compiler takes sixteen at a time, and the processor need not guess where it is.
pub(crate) fn first_empty_of(table: &[u8], size: usize, n: usize) -> Option<usize>
    requires { (0 < size) × (n ≤ records size table.now) }
    ensures { result ≡ found n (first_empty size table.now n) }
{
    let mut first = None;
    'records: for r in 0..n {
        let mut all: u8 = 0;
        for byte in part_of(table, size, r) {
            all |= *byte;
        }
        if all == 0 {
            first = Some(r);
            break 'records;
        }
    }
    first
}

// The number of the first record all of whose 64 bytes are zero.
pub fn first_empty(table: &[u8]) -> Option<usize>
    ensures { result ≡ found (records 64 table.now) (first_empty 64 table.now (records 64 table.now)) }
{
    first_empty_of(table, 64, table.len() / 64)
}

// The record of all literals of a table: what occurs in it.
pub fn literals_of(table: &[u8]) -> [u8; 64]
    ensures { result ≡ literals_of 32 table.now }
{
    let mut all = [0u8; 64];
    join_all(32, table, &mut all);
    all
}
