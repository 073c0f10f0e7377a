// An entry over small parts, for a direct call and for a loop that keeps the state itself: which record and which row the entry is given,
// and what it leaves of X and of these two. A direct call is asked by a `Kind`, the loop by `code`, the kind byte of a file's entry (1 LL,
// 2 SC, 3 VL, 4 step), and its value. Nothing here looks whether the state is sound.
ghost use Rattle.std.specs.Prelude.{◌≡◌};
ghost use Rattle.step.specs.Steps.{request_of};
ghost use Rattle.machine.specs.Entry.{row_given, with_parts, parts_after};
ghost use Rattle.machine.specs.Parts.{played_parts, request_by, kind_by, steps_ahead};

use numbers::{Process, Sequence};
use step::{Kind, Outcome, Parts, Place, Record, Request, Requested, Stepped};

// Whose row it is given in a direct call: a step's is the one that it reaches, a request's its own.
pub(crate) fn row_given(p: Process, own: Record, kind: Kind) -> Process
    ensures { result ≡ row_given p own kind }
{
    match kind {
        Kind::Ask(_) => p,
        Kind::Step => own.reached_row(p),
    }
}

fn ask_parts(s: Sequence, parts: Parts, wanted: Request) -> Stepped
    ensures { result ≡ with_parts parts.x parts.row (request_of s parts.own wanted) }
{
    let Requested { own, outcome } = parts.own.request(s, wanted);
    Parts { own, ..parts }.as_was(outcome)
}

// What an entry of p leaves of X, its record and the row that it is given.
pub(crate) fn parts_after(s: Sequence, p: Process, parts: Parts, kind: Kind) -> Stepped
    ensures { result ≡ parts_after s p parts.x parts.own parts.row kind }
{
    match kind {
        Kind::Ask(wanted) => ask_parts(s, parts, wanted),
        Kind::Step => parts.step(p),
    }
}

// What the kind byte of a request and its value ask.
fn request_by(code: u8, value: u64) -> Request
    ensures { result ≡ request_by code value }
{
    match code {
        1 => Request::Load,
        2 => Request::Store(value),
        _ => Request::Check,
    }
}

// What an entry of p leaves, asked as a file asks it. A step is told from a request by the byte, with no `Kind` in between, which would be a
// jump more at every entry (docs/SPEED.md).
fn parts_by(s: Sequence, p: Process, parts: Parts, code: u8, value: u64) -> Stepped
    ensures { result ≡ parts_after s p parts.x parts.own parts.row (kind_by code value) }
{
    if code == 4 {
        parts.step(p)
    } else {
        ask_parts(s, parts, request_by(code, value))
    }
}

// An entry of process p as a file asks it, given X, its record and its row.
#[tactic(auto, unfolding(crate::specs::Parts::played_parts))]
pub fn play_coded(n: usize, s: Sequence, p: Process, parts: Parts, code: u8, value: u64) -> Stepped
    ensures { result ≡ played_parts n s p parts.x parts.own parts.row (kind_by code value) }
{
    if p.0 < n {
        parts_by(s, p, parts, code, value)
    } else {
        parts.as_was(Outcome::NoProcess)
    }
}

// How many own steps the log says of an entry that is not turned away, by the place before it.
pub fn steps_ahead(place: Place, code: u8) -> u8
    ensures { result ≡ steps_ahead place code }
{
    if code == 4 { place.own_steps() } else { 0 }
}
