// Many lines in one lent part.
ghost use Rattle.std.specs.Prelude.{◌≡◌};
ghost use Rattle.text.specs.Lines.{filled_of, filled_in};

use crate::Filled;
use crate::line::{ROOM, write_line_of};

// The lines of the entries of a log from `place` to before `end`, one behind the other, as far as there is room for them.
pub fn write_lines_of(out: &mut [u8], log: &[u8], place: u32, end: u32) -> Filled
    ensures { (result ≡ filled_of log.now place end out.old) × (out.new ≡ filled_in log.now place end out.old) }
{
    let mut at = 0;
    for next in place..end {
        if out.len() - at < ROOM {
            return Filled {
                bytes: at,
                place: next,
            };
        }
        at += write_line_of(&mut out[at..], log, next);
    }
    Filled {
        bytes: at,
        place: place.max(end),
    }
}
