// The lines that are printed. Each is written at the front of a lent part, and the answer is how many bytes it has; a part
// shorter than ROOM stays as it was, and the answer is 0, a count like any other (`printed_count`).
ghost use Rattle.std.specs.Prelude.{◌≡◌, ◌≤◌};
ghost use Rattle.run_log.specs.Found.{head_found, note_found};
ghost use Rattle.text.specs.Decimal.{decimal_of};
ghost use Rattle.text.specs.Lines.{head_line, line_of, refused_line, refused_text_line, head_text, line_text, printed, printed_count};
ghost use Rattle.text.specs.Pieces.{text_of_pieces, most_of_pieces};

use crate::Piece::{self, Field, Number, Word};
use crate::put::put_piece;
use run_log::read::{read_head, read_record};
use run_log::{Head, Note};

// Bytes that are enough for every line, whatever its numbers are.
pub const ROOM: usize = 128;

// The pieces of a line, one behind the other.
fn write_pieces(out: &mut [u8], pieces: &[Piece]) -> usize
    requires { most_of_pieces pieces.now ≤ 128 }
    ensures { (result ≡ printed_count (text_of_pieces pieces.now) out.old)
        × (out.new ≡ printed (text_of_pieces pieces.now) out.old) }
{
    let mut at = 0;
    if ROOM <= out.len() {
        for piece in pieces {
            at = put_piece(out, at, *piece);
        }
    }
    at
}

// A number in decimal.
pub fn write_number(out: &mut [u8], n: u64) -> usize
    ensures { (result ≡ printed_count (decimal_of n) out.old) × (out.new ≡ printed (decimal_of n) out.old) }
{
    write_pieces(out, &[Number(n)])
}

#[tactic(auto, using(crate::proofs::Rows::head_row))]
pub fn write_head_line(out: &mut [u8], head: Head) -> usize
    ensures { (result ≡ printed_count (head_line head.entries head.changes head.n) out.old)
        × (out.new ≡ printed (head_line head.entries head.changes head.n) out.old) }
{
    write_pieces(
        out,
        &[
            Word(b"entries "),
            Number(head.entries as u64),
            Word(b" changes "),
            Number(head.changes as u64),
            Word(b" processes "),
            Number(head.n as u64),
            Word(b"\n"),
        ],
    )
}

#[tactic(auto, using(crate::proofs::Rows::line_row))]
pub fn write_line(out: &mut [u8], place: u32, note: Note) -> usize
    ensures { (result ≡ printed_count (line_of place note) out.old)
        × (out.new ≡ printed (line_of place note) out.old) }
{
    write_pieces(
        out,
        &[
            Field(place as u64, b' '),
            Field(note.process as u64, b' '),
            Field(note.outcome as u64, b' '),
            Field(note.steps as u64, b' '),
            Field(note.mark as u64, b' '),
            Field(note.value, b'\n'),
        ],
    )
}

// The line of a refused file; 0 stands for no place. It is promised for any three numbers, so it takes numbers and no `Refusal`; so is that of
// a refused text.
#[tactic(auto, using(crate::proofs::Rows::refused_row, crate::proofs::Rows::refused_placed_row))]
pub fn write_refused_line(out: &mut [u8], number: usize, block: usize, place: usize) -> usize
    ensures { (result ≡ printed_count (refused_line number block place) out.old)
        × (out.new ≡ printed (refused_line number block place) out.old) }
{
    let what = Number(number as u64);
    let which = Number(block as u64);
    let stray = Number(place as u64);
    if place == 0 {
        write_pieces(
            out,
            &[
                Word(b"refused "),
                what,
                Word(b" block "),
                which,
                Word(b"\n"),
            ],
        )
    } else {
        write_pieces(
            out,
            &[
                Word(b"refused "),
                what,
                Word(b" block "),
                which,
                Word(b" place "),
                stray,
                Word(b"\n"),
            ],
        )
    }
}

#[tactic(auto, using(crate::proofs::Rows::refused_text_row, crate::proofs::Rows::refused_lineless_row))]
pub fn write_refused_text_line(out: &mut [u8], number: u32, line: u64) -> usize
    ensures { (result ≡ printed_count (refused_text_line number line) out.old)
        × (out.new ≡ printed (refused_text_line number line) out.old) }
{
    let what = Number(number as u64);
    if number == 25 {
        write_pieces(
            out,
            &[
                Word(b"refused "),
                what,
                Word(b" line "),
                Number(line),
                Word(b"\n"),
            ],
        )
    } else {
        write_pieces(out, &[Word(b"refused "), what, Word(b"\n")])
    }
}

// The head line of a log, from its bytes. A log that is shorter than a head has none.
pub fn write_head_of(out: &mut [u8], log: &[u8]) -> usize
    ensures { (result ≡ printed_count (head_text (head_found log.now)) out.old)
        × (out.new ≡ printed (head_text (head_found log.now)) out.old) }
{
    match read_head(log) {
        Some(head) => write_head_line(out, head),
        None => 0,
    }
}

// The line of an entry of a log, from its bytes. A log that ends before the entry's record has none.
pub fn write_line_of(out: &mut [u8], log: &[u8], place: u32) -> usize
    ensures { (result ≡ printed_count (line_text place (note_found log.now place)) out.old)
        × (out.new ≡ printed (line_text place (note_found log.now place)) out.old) }
{
    match read_record(log, place) {
        Some(note) => write_line(out, place, note),
        None => 0,
    }
}
