// The lines of a text, without their newlines.
ghost use Rattle.std.specs.Prelude.{◌≡◌, cond};
ghost use Rattle.reused_text.specs.Form.{stores_bit, asks_bit, request_in, kind_in};
ghost use Rattle.reused_text.specs.Parts.{bit_line_of, fields_of, sizes_of};

use crate::Sizes;
use reused::{Entry, Kind, Request};
use writer::decimal::read_size;
use writer::find::split_once;
use writer::form::{read_line, split_letter};

// A request of numbers as one of bits, where it stores no other number than 0 or 1.
fn request_in(request: step::Request) -> Option<Request>
    ensures { result ≡ cond (stores_bit request) (Some (request_in request)) None }
{
    match request {
        step::Request::Load => Some(Request::Load),
        step::Request::Store(0) => Some(Request::Store(false)),
        step::Request::Store(1) => Some(Request::Store(true)),
        step::Request::Store(_) => None,
        step::Request::Check => Some(Request::Check),
    }
}

fn kind_in(kind: step::Kind) -> Option<Kind>
    ensures { result ≡ cond (asks_bit kind) (Some (kind_in kind)) None }
{
    match kind {
        step::Kind::Ask(request) => Some(Kind::Ask(request_in(request)?)),
        step::Kind::Step => Some(Kind::Step),
    }
}

// A further line.
#[tactic(auto, unfolding(crate::specs::Parts::bit_line_of, crate::specs::Form::line_fine, writer::specs::Parts::line_of))]
pub(crate) fn read_bit_line(line: &[u8]) -> Option<Entry>
    ensures { result ≡ bit_line_of line.now }
{
    let asked = read_line(line)?;
    Some(Entry {
        process: asked.process,
        kind: kind_in(asked.kind)?,
    })
}

// `H N M`, from behind its first space.
fn read_fields(rest: &[u8]) -> Option<Sizes>
    ensures { result ≡ fields_of rest.now }
{
    let (n, m) = split_once(rest, b' ')?;
    let n = read_size(n)?;
    let m = read_size(m)?;
    Some(Sizes { n: n as usize, m })
}

// Line one.
pub(crate) fn read_sizes(line: &[u8]) -> Option<Sizes>
    ensures { result ≡ sizes_of line.now }
{
    let (letter, rest) = split_letter(line)?;
    if letter == b'H' {
        read_fields(rest)
    } else {
        None
    }
}
