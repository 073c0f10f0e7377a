// Block 0.
ghost use Rattle.std.specs.Prelude.{◌≡◌};
ghost use Rattle.numbers.specs.Refusals.{refusal_number, number_in};
ghost use Rattle.schedule.specs.File.{first_clear, first_rest, first_number, first_stray, place_with};
ghost use Rattle.schedule.specs.Direct.{first_of};
ghost use Rattle.schedule.specs.Told.{first_block_of};

use crate::bytes::{clear, eight, four, two};
use crate::check::check_frame;
use crate::{FirstRefusal, Start};
use numbers::{Refusal, Sequence, check_range};

// Whether block 0 has no stray byte.
fn first_clear(b: &[u8; 512]) -> bool
    ensures { result ≡ first_clear b.now }
{
    b[3] == 0 && clear(&b[18..510])
}

// What refuses block 0 of a file with `after` blocks behind it by N, S, the block count or a stray byte.
fn check_rest(b: &[u8; 512], after: usize) -> Result<(), Refusal>
    ensures { number_in result ≡ first_rest b.now after }
{
    check_range(usize::from(b[2]), Sequence(u64::from(four(b, 4))))?;
    if usize::from(two(b, 16)) != after {
        return Err(Refusal::BlockCount);
    }
    if !first_clear(b) {
        return Err(Refusal::StrayByte);
    }
    Ok(())
}

// What refuses block 0.
#[tactic(auto, unfolding(crate::specs::File::first_number))]
fn check_first(b: &[u8; 512], after: usize) -> Result<(), Refusal>
    ensures { number_in result ≡ first_number b.now after }
{
    check_frame(b, 0)?;
    check_rest(b, after)
}

// The place of the first stray byte of block 0, or 0.
fn first_stray(b: &[u8; 512]) -> usize
    ensures { result ≡ first_stray b.now }
{
    if b[3] != 0 {
        return 3;
    }
    match b[18..510].iter().position(|&x| x != 0) {
        Some(i) => 18 + i,
        None => 0,
    }
}

// The place that goes with a refusal of block 0. It is looked for where the refusal asks for it, and not in a block that is accepted.
fn place_with(refusal: Refusal, b: &[u8; 512]) -> usize
    ensures { result ≡ place_with (refusal_number refusal) b.now }
{
    match refusal {
        Refusal::StrayByte => first_stray(b),
        _ => 0,
    }
}

// Block 0, a whole one.
#[tactic(auto, unfolding(crate::specs::Direct::first_of))]
pub(crate) fn read_whole(b: &[u8; 512], after: usize) -> Result<Start, FirstRefusal>
    ensures { first_block_of result ≡ first_of b.now after }
{
    match check_first(b, after) {
        Ok(()) => Ok(Start {
            n: b[2],
            s: u64::from(four(b, 4)),
            v: eight(b, 8),
        }),
        Err(refusal) => Err(FirstRefusal {
            refusal,
            place: place_with(refusal, b),
        }),
    }
}

// Block 0 of a file with `after` blocks behind it.
#[tactic(auto, unfolding(crate::specs::Direct::first_of))]
pub fn read_first(b: &[u8], after: usize) -> Result<Start, FirstRefusal>
    ensures { first_block_of result ≡ first_of b.now after }
{
    match <&[u8; 512]>::try_from(b) {
        Ok(b) => read_whole(b, after),
        Err(_) => Err(FirstRefusal {
            refusal: Refusal::Length,
            place: 0,
        }),
    }
}
