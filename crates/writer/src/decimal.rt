// Numbers in decimal.
ghost use Rattle.std.specs.Prelude.{◌≡◌, ◌+◌, ◌*◌, ◌^◌, ◌<◌, cond, SomeIff};
ghost use Rattle.writer.specs.Form.{all_digits, front};
ghost use Rattle.writer.specs.Parts.{numeral_of, size_of};

use crate::NumeralError;

// At least one byte, and no 0 in front of another.
#[tactic(auto, unfolding(crate::specs::Form::front))]
fn front_fine(b: &[u8]) -> bool
    ensures { result ≡ front b.now }
{
    match b {
        [] => false,
        [_] => true,
        [first, ..] => *first != b'0',
    }
}

// One digit more, if that leaves a number below 2^64.
fn with_digit(value: u64, digit: u64) -> Option<u64>
    ensures { SomeIff result (value * 10 + digit < 2 ^ 64) (value * 10 + digit) }
{
    value.checked_mul(10)?.checked_add(digit)
}

// What keeps bytes from being a small number whose first digits say 2^64 or more.
fn larger(rest: &[u8]) -> NumeralError
    ensures { result ≡ cond (all_digits rest.now) NumeralError.TooLarge NumeralError.NoNumeral }
{
    if rest.iter().all(|x| x.is_ascii_digit()) {
        NumeralError::TooLarge
    } else {
        NumeralError::NoNumeral
    }
}

// What bytes say as a numeral. (Digits are tested and read in one pass: with two, 20 digits take half as long again.)
pub fn read_numeral(b: &[u8]) -> Result<u64, NumeralError>
    ensures { result ≡ numeral_of b.now }
{
    if !front_fine(b) {
        return Err(NumeralError::NoNumeral);
    }
    let mut value: u64 = 0;
    for (i, x) in b.iter().enumerate() {
        if !x.is_ascii_digit() {
            return Err(NumeralError::NoNumeral);
        }
        let Some(next) = with_digit(value, u64::from(*x - b'0')) else {
            return Err(larger(&b[i..]));
        };
        value = next;
    }
    Ok(value)
}

// What a numeral says for a size: one of 2^64 or more, which is out of every range, is given as 0, which is so too.
#[tactic(auto, unfolding(crate::specs::Parts::numeral_of, crate::specs::Parts::size_of))]
pub fn read_size(b: &[u8]) -> Option<u64>
    ensures { result ≡ size_of b.now }
{
    match read_numeral(b) {
        Ok(value) => Some(value),
        Err(NumeralError::TooLarge) => Some(0),
        Err(NumeralError::NoNumeral) => None,
    }
}
