// Where a byte stands first.
ghost use Rattle.std.specs.Prelude.{◌≡◌, ◌+◌, ◌≤◌, ◌<◌, length, drop, IfNone, IfSome};
ghost use Rattle.writer.specs.Form.{place_of, before, behind};
ghost use Rattle.writer.specs.Parts.{halves_in, split_by};

// The place of the first such byte from a place on, or the end of the bytes; behind the end it is the place itself.
pub fn place_of(b: &[u8], at: usize, c: u8) -> usize
    ensures { result ≡ at + place_of c (drop at b.now) }
{
    let Some(rest) = b.get(at..) else {
        return at;
    };
    match rest.iter().position(|x| *x == c) {
        Some(place) => at + place,
        None => b.len(),
    }
}

// What stands before the first such byte, and what stands behind it.
#[tactic(auto, unfolding(crate::specs::Parts::split_by))]
pub fn split_once(b: &[u8], c: u8) -> Option<(&[u8], &[u8])>
    ensures { (halves_in result ≡ split_by c b.now)
        × (IfNone result (length b.now ≤ place_of c b.now))
        × (IfSome result (λ r. (place_of c b.now < length b.now) × (r.0.now ≡ before c b.now) × (r.1.now ≡ behind c b.now))) }
{
    let place = place_of(b, 0, c);
    if place < b.len() {
        Some((&b[..place], &b[place + 1..]))
    } else {
        None
    }
}
