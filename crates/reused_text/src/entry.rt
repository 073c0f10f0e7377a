// One entry of a run: read from its line, given its row, and written as a record.
ghost use Rattle.std.specs.Prelude.{◌≡◌, ◌∷◌, ◌+◌, ◌<◌, cond, not, length};
ghost use Rattle.reused.specs.Steps.{same_triple, told_of};
ghost use Rattle.writer.specs.Parts.{InForm};
ghost use Rattle.reused_text.specs.Form.{line_fine};
ghost use Rattle.reused_text.specs.Parts.{bit_entries_left};
ghost use Rattle.reused_text.specs.Played.{bit_number, record_from};

use crate::form::read_bit_line;
use numbers::Version;
use reused::play::{steps_by, x_changed};
use reused::{Entry, Kind, Outcome, Place, Told, Triple};
use run_log::Note;
use writer::find::split_once;

// The entry that the next line asks for, and the lines behind it. (The writer has the same four lines: over any form of texts they would
// have to promise a list of that form's entries, and be no shorter.)
pub(crate) fn next_entry(lines: &[u8]) -> (Entry, &[u8])
    requires form { InForm line_fine lines.now }
    requires some { 0 < length (bit_entries_left lines.now) }
    ensures entry { bit_entries_left lines.now ≡ result.0 ∷ bit_entries_left result.1.now }
    ensures form { InForm line_fine result.1.now }
    ensures small { result.0.process.0 < 256 }
{
    let (line, behind) = split_once(lines, b'\n').unwrap();
    let entry = read_bit_line(line).unwrap();
    (entry, behind)
}

fn bit_number(bit: bool) -> u64
    ensures { result ≡ bit_number bit }
{
    u64::from(bit)
}

// The log's record of an entry whose process stood at `place` and that came to `outcome`.
pub(crate) fn note_of(process: u8, kind: Kind, place: Place, outcome: Outcome) -> Note
    requires { (told_of outcome).value.process.0 < 256 }
    ensures { result ≡ record_from process kind place outcome }
{
    let Told { number, value } = Told::from(outcome);
    Note {
        outcome: number,
        process,
        steps: steps_by(place, kind, outcome),
        mark: value.process.0 as u8,
        value: bit_number(value.bit),
    }
}

// The count of changes after an entry that found X as `before` and left it as `after`.
pub(crate) fn count(changes: Version, before: Triple, after: Triple) -> Version
    requires { changes.0 < 4294967295 }
    ensures { result.0 ≡ changes.0 + cond (not (same_triple before after)) 1 0 }
{
    if x_changed(before, after) {
        Version(changes.0 + 1)
    } else {
        changes
    }
}
