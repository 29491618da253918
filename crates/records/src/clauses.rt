// Clause records: the bit test, and the resolvent of two of them.
ghost use Rattle.std.specs.Prelude.{◌≡◌, ◌*◌, ◌^◌, ◌<◌, ◌≤◌, length};
ghost use Rattle.records.specs.Clause.{has, resolvent, resolved_into};
ghost use Rattle.records.specs.Inside.{Masks, mask_start};

// The byte that has bit k and no other, in eight cases.
pub(crate) fn mask_of(k: usize) -> u8
    requires { k < 8 }
    ensures { result ≡ 2 ^ k }
{
    match k {
        0 => 1,
        1 => 2,
        2 => 4,
        3 => 8,
        4 => 16,
        5 => 32,
        6 => 64,
        _ => 128,
    }
}

// Bit `literal` of a record: of a clause of 64 bytes v is the literal xv, and 256 + v is not xv. It tests a literal of a clause and a
// variable's colour alike; past the end there is none.
pub fn has_literal(clause: &[u8], literal: usize) -> bool
    ensures { result ≡ has clause.now literal }
{
    let at = literal / 8;
    if clause.len() <= at {
        return false;
    }
    let mask = mask_of(literal % 8);
    clause[at] & mask != 0
}

// The masks of all literals of a half, in one strip: from byte 32 * k on, byte 31 has every bit but k, and all others have all bits. The mask
// that takes bit k out of byte `at` is the 32 bytes from 32 * k + 31 - at on, so that none of its bytes is computed in a step.
pub(crate) fn all_masks() -> [u8; 288]
    ensures { Masks 32 result }
{
    let mut masks = [255u8; 288];
    masks[31] = 254;
    masks[63] = 253;
    masks[95] = 251;
    masks[127] = 247;
    masks[159] = 239;
    masks[191] = 223;
    masks[223] = 191;
    masks[255] = 127;
    masks
}

// Where in the strip the mask starts that takes the pivot's bit out.
fn mask_start(half: usize, pivot: usize) -> usize
    requires { (half ≤ 64) × (pivot < 8 * half) }
    ensures { result ≡ mask_start half pivot }
{
    half * (pivot % 8) + (half - 1 - pivot / 8)
}

// The resolvent of two records with half bytes for each sign, which left and right begin with, written to the part: byte by byte, in both
// halves, the pivot's literal is masked out of the side that loses it, and the sides are joined. Each byte is written once: one that is
// mended after wide stores keeps the next step waiting for it.
pub(crate) fn resolve_halves(
    half: usize,
    left: &[u8],
    right: &[u8],
    pivot: usize,
    masks: &[u8],
    part: &mut [u8],
)
    requires masked { (half ≤ 64) × (pivot < 8 * half) × Masks half masks.now }
    requires sized { (2 * half ≤ length left.now) × (2 * half ≤ length right.now) × (length part.old ≡ 2 * half) }
    ensures { part.new ≡ resolvent half left.now right.now pivot }
{
    let from = mask_start(half, pivot);
    for i in 0..half {
        let mask = masks[from + i];
        part[i] = (left[i] & mask) | right[i];
        let j = half + i;
        part[j] = left[j] | (right[j] & mask);
    }
}

// The resolvent of left, which loses the pivot's positive literal, and right, which loses the negative one, written to a record
// in place. A part that is no record is left as it is.
pub fn resolve(left: &[u8; 64], right: &[u8; 64], pivot: u8, part: &mut [u8])
    ensures { part.new ≡ resolved_into 32 left.now right.now pivot part.old }
{
    if part.len() == 64 {
        let masks = all_masks();
        resolve_halves(32, left, right, usize::from(pivot), &masks, part);
    }
}
