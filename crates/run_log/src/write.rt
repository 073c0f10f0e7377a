// The log's bytes, written into the part that is lent: the head at the front of the log, a record at the front of its rest.
ghost use Rattle.std.specs.Prelude.{◌≡◌};
ghost use Rattle.run_log.specs.Log.{laid, head_of, record_of};

use crate::Note;
use numbers::Version;

// The twelve bytes of a head.
#[tactic(auto, unfolding(crate::specs::Log::head_of))]
fn head_bytes(entries: u32, changes: Version, n: u8) -> [u8; 12]
    ensures { result ≡ head_of entries changes.0 n }
{
    let e = entries.to_le_bytes();
    let c = changes.0.to_le_bytes();
    [e[0], e[1], e[2], e[3], c[0], c[1], c[2], c[3], n, 0, 0, 0]
}

// The twelve bytes of a record.
fn record_bytes(note: Note) -> [u8; 12]
    ensures { result ≡ record_of note }
{
    let v = note.value.to_le_bytes();
    [
        note.outcome,
        note.process,
        note.steps,
        note.mark,
        v[0],
        v[1],
        v[2],
        v[3],
        v[4],
        v[5],
        v[6],
        v[7],
    ]
}

// Lays twelve bytes at the front of a part. A part that is too short for them stays as it was.
#[tactic(auto, unfolding(crate::specs::Log::laid))]
fn lay(part: &mut [u8], bytes: [u8; 12])
    ensures { part.new ≡ laid bytes part.old }
{
    if let Some(front) = part.first_chunk_mut::<12>() {
        *front = bytes;
    }
}

// Lays the head at the front of the log. A log shorter than a head stays as it was.
pub fn lay_head(log: &mut [u8], entries: u32, changes: Version, n: u8)
    ensures { log.new ≡ laid (head_of entries changes.0 n) log.old }
{
    lay(log, head_bytes(entries, changes, n));
}

// Writes a record at the front of the rest of the log. A rest shorter than a record stays as it was.
pub fn write_record(rest: &mut [u8], note: Note)
    ensures { rest.new ≡ laid (record_of note) rest.old }
{
    lay(rest, record_bytes(note));
}
