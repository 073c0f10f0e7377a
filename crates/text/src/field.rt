// A number in decimal at a place of a lent part, and how many digits it has.
ghost use Rattle.std.specs.Prelude.{◌≡◌, ltb, length};
ghost use Rattle.text.specs.Decimal.{decimal_of};
ghost use Rattle.text.specs.Lines.{field, stored_at, stored_end};

use crate::put::put_field;

// How many digits a number has.
pub fn count_digits(n: u64) -> usize
    ensures { result ≡ length (decimal_of n) }
{
    match n.checked_ilog10() {
        Some(power) => power as usize + 1,
        None => 1,
    }
}

// Whether a number and one byte more fit. No number has more than 20 digits, so they are counted only where there is less room.
fn has_room(room: usize, n: u64) -> bool
    ensures { result ≡ ltb (length (decimal_of n)) room }
{
    21 <= room || count_digits(n) < room
}

// A number and what ends it, from a place on; the answer is the place behind both. Where they don't fit, the part stays as it was, and the
// answer is the place itself.
pub fn write_field(out: &mut [u8], at: usize, n: u64, end: u8) -> usize
    ensures { (result ≡ stored_end at (field n end) out.old) × (out.new ≡ stored_at at (field n end) out.old) }
{
    if at < out.len() && has_room(out.len() - at, n) {
        put_field(out, at, n, end)
    } else {
        at
    }
}
