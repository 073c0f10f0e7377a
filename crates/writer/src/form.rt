// The lines of a text, without their newlines.
ghost use Rattle.std.specs.Prelude.{◌≡◌, ◌≢◌, ◌∷◌, IfNone, IfSome, slice_index};
ghost use Rattle.writer.specs.Parts.{letter_in, letter_of, process_of, plain_of, store_of, fields_of, line_of, opening_of};

use crate::Opening;
use crate::decimal::{read_numeral, read_size};
use crate::find::split_once;
use numbers::Process;
use step::{Entry, Kind, Request};

// The process number that bytes say, 0 to 255.
#[tactic(auto, unfolding(crate::specs::Parts::numeral_of, crate::specs::Parts::process_of))]
fn read_process(b: &[u8]) -> Option<Process>
    ensures { result ≡ process_of b.now }
{
    let value = read_numeral(b).ok()?;
    let process = u8::try_from(value).ok()?;
    Some(Process(usize::from(process)))
}

// `L p`, `V p` or `T p`, from behind its space.
fn read_plain(rest: &[u8], kind: Kind) -> Option<Entry>
    ensures { result ≡ plain_of rest.now kind }
{
    let process = read_process(rest)?;
    Some(Entry { process, kind })
}

// `S p value`, from behind its first space.
fn read_store(rest: &[u8]) -> Option<Entry>
    ensures { result ≡ store_of rest.now }
{
    let (process, value) = split_once(rest, b' ')?;
    let value = read_numeral(value).ok()?;
    read_plain(process, Kind::Ask(Request::Store(value)))
}

// A line's letter, and what stands behind the space that follows it.
#[tactic(auto, unfolding(crate::specs::Parts::letter_of))]
pub fn split_letter(line: &[u8]) -> Option<(u8, &[u8])>
    ensures { (letter_in result ≡ letter_of line.now)
        × (IfNone result (slice_index line.now 1 ≢ 32))
        × (IfSome result (λ r. line.now ≡ r.0 ∷ 32 ∷ r.1.now)) }
{
    match line {
        [letter, b' ', rest @ ..] => Some((*letter, rest)),
        _ => None,
    }
}

// A further line. It is taken into what calls it: called by itself, its answer goes through memory, and writing a text takes a quarter longer.
#[inline(always)]
pub fn read_line(line: &[u8]) -> Option<Entry>
    ensures { result ≡ line_of line.now }
{
    let (letter, rest) = split_letter(line)?;
    match letter {
        b'L' => read_plain(rest, Kind::Ask(Request::Load)),
        b'S' => read_store(rest),
        b'V' => read_plain(rest, Kind::Ask(Request::Check)),
        b'T' => read_plain(rest, Kind::Step),
        _ => None,
    }
}

// `H N S V`, from behind its first space.
fn read_fields(rest: &[u8]) -> Option<Opening>
    ensures { result ≡ fields_of rest.now }
{
    let (n, rest) = split_once(rest, b' ')?;
    let (s, v) = split_once(rest, b' ')?;
    let n = read_size(n)?;
    let s = read_size(s)?;
    let v = read_numeral(v).ok()?;
    Some(Opening { n, s, v })
}

// Line one.
pub(crate) fn read_start(line: &[u8]) -> Option<Opening>
    ensures { result ≡ opening_of line.now }
{
    let (letter, rest) = split_letter(line)?;
    if letter == b'H' {
        read_fields(rest)
    } else {
        None
    }
}
