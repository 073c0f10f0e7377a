// The entries of a file, block by block, played one after another on a state that the loop keeps itself.
ghost use Rattle.std.specs.Prelude.{◌≡◌, true, ◌+◌, ◌*◌, ◌≤◌, ◌<◌, length};
ghost use Rattle.machine.specs.Frame.{Ready};
ghost use Rattle.schedule.specs.File.{reading, file_entries};
ghost use Rattle.schedule.specs.Direct.{is_accepted};
ghost use Rattle.bench.specs.Play.{played_from, records_from};

use crate::Played;
use crate::note::{count, note_of};
use machine::State;
use machine::parts::{play_coded, steps_ahead};
use numbers::Process;
use run_log::write::write_record;
use schedule::{block_of, read_fields, used_entries};
use step::Parts;

// Plays all entries of an accepted file and writes their records into the front of the rest of the log. Both loops stand in one function,
// with the state taken apart into its own arrays and put together at the end: so it runs at C's pace (docs/SPEED.md). An entry is given
// the row that a step would reach, whatever it asks; a request hands it back as it was.
pub(crate) fn play_entries(file: &[u8], rest: &mut [u8], from: Played) -> Played
    requires { (is_accepted (reading file.now) ≡ true) × (Ready from.state) × (12 * length (file_entries file.now) ≤ length rest.old) × (from.changes.0 + length (file_entries file.now) < 4294967295) }
    ensures { (result ≡ played_from from (file_entries file.now)) × (rest.new ≡ records_from from (file_entries file.now) rest.old) }
{
    let Played { state, mut changes } = from;
    let State {
        n,
        s,
        mut x,
        mut rows,
        mut records,
    } = state;
    let mut i = 0;
    for k in 1..file.len() / 512 {
        for bytes in used_entries(block_of(file, k)).as_chunks().0 {
            let entry = read_fields(bytes);
            let process = Process(entry.process as usize);
            let seat = process.seat(n);
            let own = records[seat.0].fresh();
            let reached = own.reached_row(seat);
            // The own steps are counted before the step, by its place: behind it the count would be one more jump at every place.
            let ahead = steps_ahead(own.place, entry.kind);
            let row = rows[reached.0];
            let parts = Parts { x, own, row };
            let left = play_coded(n, s, process, parts, entry.kind, entry.value);
            rows[reached.0] = left.row;
            records[seat.0] = left.own;
            let note = note_of(entry.process, ahead, left.outcome, left.x, left.own.kept);
            write_record(&mut rest[12 * i..12 * i + 12], note);
            changes = count(changes, x, left.x);
            x = left.x;
            i += 1;
        }
    }
    Played {
        state: State {
            n,
            s,
            x,
            rows,
            records,
        },
        changes,
    }
}
