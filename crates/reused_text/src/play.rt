// The entries of a text, played one after another on a state that the loop keeps itself.
ghost use Rattle.std.specs.Prelude.{◌≡◌, ◌*◌, ◌≤◌, length};
ghost use Rattle.reused.specs.Frame.{Ready};
ghost use Rattle.writer.specs.Parts.{InForm};
ghost use Rattle.reused_text.specs.Form.{line_fine};
ghost use Rattle.reused_text.specs.Parts.{bit_entries_left};
ghost use Rattle.reused_text.specs.Played.{changes_from, records_from};

use crate::entry::{count, next_entry, note_of};
use numbers::Version;
use reused::{Parts, State};
use run_log::write::write_record;

// Plays the entries that lines ask for, and writes their records into the front of the rest of the log.
pub(crate) fn play_lines(lines: &[u8], rest: &mut [u8], first: State, end: usize) -> Version
    requires ready { Ready first }
    requires form { InForm line_fine lines.now }
    requires count { end ≡ length (bit_entries_left lines.now) }
    requires room { 12 * end ≤ length rest.old }
    requires few { end ≤ 4294967295 }
    ensures { (result ≡ changes_from first (bit_entries_left lines.now)) × (rest.new ≡ records_from first (bit_entries_left lines.now) rest.old) }
{
    let State { n, m, .. } = first;
    let mut st = first;
    let mut changes = Version(0);
    let mut behind = lines;
    for j in 0..end {
        let (entry, next) = next_entry(behind);
        behind = next;
        let seat = entry.process.seat(n);
        let x = st.x;
        let own = st.rows[seat.0];
        let looked = st.rows[own.search.0].named;
        let parts = Parts { x, own, looked };
        let left = parts.play(n, m, entry.process, entry.kind);
        st.x = left.x;
        st.rows[seat.0] = left.own;
        let byte = entry.process.0 as u8;
        let note = note_of(byte, entry.kind, own.place, left.outcome);
        write_record(&mut rest[12 * j..], note);
        changes = count(changes, x, left.x);
    }
    changes
}
