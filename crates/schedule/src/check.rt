// What every block has: its check and its place.
ghost use Rattle.std.specs.Prelude.{◌≡◌, ◌≤◌, length};
ghost use Rattle.numbers.specs.Refusals.{number_in};
ghost use Rattle.schedule.specs.File.{weighed, check_of, block_number};

use crate::bytes::two;
use numbers::Refusal;

// The sum over the places of (i + 1) times byte i, with nothing taken off on the way: for 510 places it stays below 2^32.
#[tactic(auto, using(crate::proofs::Laws::weight_bound))]
fn weigh(b: &[u8]) -> u32
    requires { length b.now ≤ 510 }
    ensures { result ≡ weighed b.now (length b.now) }
{
    let mut sum = 0;
    for (i, &x) in b.iter().enumerate() {
        sum += (i + 1) as u32 * u32::from(x);
    }
    sum
}

// What `weigh` gives of 510 places, with both halves of them in one loop. A byte of the second half weighs 255 more than the one that stands
// at its place in the first: in the loop it gets that one's weight, and 255 times the bytes of the second half are added at the end. So
// each product fits 16 bits, and the compiler can make many at once. The weight is counted from 1 beside the place: made from the place, it
// would be cut down to 16 bits again in each turn, and reading would take a quarter longer.
fn weigh_halves(b: &[u8; 510]) -> u32
    ensures { result ≡ weighed b.now 510 }
{
    let mut sum = 0;
    let mut more = 0;
    let mut weight: u16 = 1;
    for i in 0..255 {
        let low = weight * u16::from(b[i]);
        let high = weight * u16::from(b[255 + i]);
        sum += u32::from(low) + u32::from(high);
        more += u32::from(b[255 + i]);
        weight += 1;
    }
    sum + 255 * more
}

// The check of a block. Where the slice is shorter than 510 bytes, the places that it lacks add nothing.
#[tactic(auto, unfolding(crate::specs::File::check_of))]
pub fn check_of(b: &[u8]) -> u32
    ensures { result ≡ check_of b.now }
{
    match b.first_chunk() {
        Some(whole) => weigh_halves(whole) % 65521,
        None => weigh(b) % 65521,
    }
}

// What refuses block k, its rest apart: its check, and then its place.
pub(crate) fn check_frame(b: &[u8; 512], k: usize) -> Result<(), Refusal>
    ensures { number_in result ≡ block_number b.now k 0 }
{
    if u32::from(two(b, 510)) != check_of(b) {
        return Err(Refusal::Check);
    }
    if usize::from(two(b, 0)) != k {
        return Err(Refusal::Place);
    }
    Ok(())
}
