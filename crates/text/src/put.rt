// Pieces of a line. Each is stored from a place of the lent part on, and answers with the place behind it. The place stands beside the part,
// as in the promise of `write_field`; a struct of both would be taken apart again at each piece.
ghost use Rattle.std.specs.Prelude.{◌≡◌, [], ◌∷◌, ◌+◌, ◌≤◌, ◌<◌, length};
ghost use Rattle.std.proofs.lemmas.List.Edits.{sets};
ghost use Rattle.text.specs.Decimal.{decimal_of};
ghost use Rattle.text.specs.Lines.{field};
ghost use Rattle.text.specs.Pieces.{text_of_piece};

use crate::Piece;

fn put_byte(out: &mut [u8], at: usize, b: u8) -> usize
    requires { at < length out.old }
    ensures { (result ≡ at + length (b ∷ [])) × (out.new ≡ sets out.old at (b ∷ [])) }
{
    out[at] = b;
    at + 1
}

// A text that is known beforehand.
fn put_word(out: &mut [u8], at: usize, word: &[u8]) -> usize
    requires { at + length word.now ≤ length out.old }
    ensures { (result ≡ at + length word.now) × (out.new ≡ sets out.old at word.now) }
{
    let end = at + word.len();
    out[at..end].copy_from_slice(word);
    end
}

// The digits before the last one are those of n / 10.
fn put_number(out: &mut [u8], at: usize, n: u64) -> usize
    requires { at + length (decimal_of n) ≤ length out.old }
    ensures { (result ≡ at + length (decimal_of n)) × (out.new ≡ sets out.old at (decimal_of n)) }
{
    let digit = b'0' + (n % 10) as u8;
    if n < 10 {
        put_byte(out, at, digit)
    } else {
        let next = put_number(out, at, n / 10);
        put_byte(out, next, digit)
    }
}

// A number and what ends it.
pub(crate) fn put_field(out: &mut [u8], at: usize, n: u64, end: u8) -> usize
    requires { at + length (field n end) ≤ length out.old }
    ensures { (result ≡ at + length (field n end)) × (out.new ≡ sets out.old at (field n end)) }
{
    let next = put_number(out, at, n);
    put_byte(out, next, end)
}

pub(crate) fn put_piece(out: &mut [u8], at: usize, piece: Piece) -> usize
    requires { at + length (text_of_piece piece) ≤ length out.old }
    ensures { (result ≡ at + length (text_of_piece piece)) × (out.new ≡ sets out.old at (text_of_piece piece)) }
{
    match piece {
        Piece::Word(word) => put_word(out, at, word),
        Piece::Number(n) => put_number(out, at, n),
        Piece::Field(n, end) => put_field(out, at, n, end),
    }
}
