// The whole run of a file with a lent log.
ghost use Rattle.std.specs.Prelude.{◌≡◌, ◌+◌, ◌*◌, ◌≤◌, ◌<◌, length};
ghost use Rattle.numbers.specs.Refusals.{refusal_number};
ghost use Rattle.schedule.specs.File.{reading};
ghost use Rattle.schedule.specs.Told.{accepted_from};
ghost use Rattle.bench.specs.Told.{ran_as};
ghost use Rattle.bench.specs.Bench.{ran_not, notes_of, last_state, written, ran_by, log_by, ran_of, log_after};
ghost use Rattle.run_log.specs.Log.{log_length};

use crate::entries::play_entries;
use crate::{Played, Ran};
use machine::State;
use numbers::{Refusal, Sequence, Version};
use run_log::write::lay_head;
use schedule::{Accepted, FileRefusal, Start, read_file};

fn turn_away(e: FileRefusal) -> Ran
    ensures { ran_as result ≡ ran_not (refusal_number e.refusal) e.block e.place }
{
    Ran {
        refused: Err(e),
        state: State::zero(),
    }
}

// An accepted file with room for its log. The head is laid first, with no change counted yet; the records go into the rest behind it; and
// once the changes are known the head is laid with their count.
fn run_entries(file: &[u8], log: &mut [u8], start: Start, entries: usize) -> State
    requires { (reading file.now ≡ accepted_from start entries) × (log_length entries ≤ length log.old) }
    ensures { (result ≡ last_state file.now start.n start.s start.v)
        × (log.new ≡ written (notes_of file.now start.n start.s start.v) start.n log.old) }
{
    let started = State::start(usize::from(start.n), Sequence(start.s), start.v);
    let from = Played {
        state: started.state,
        changes: Version(0),
    };
    let count = entries as u32;
    lay_head(log, count, Version(0), start.n);
    let played = play_entries(file, &mut log[12..], from);
    lay_head(log, count, played.changes, start.n);
    played.state
}

fn run_accepted(file: &[u8], log: &mut [u8], accepted: Accepted) -> Ran
    requires { reading file.now ≡ accepted_from accepted.start accepted.entries }
    ensures { (ran_as result ≡ ran_by file.now log.old (accepted_from accepted.start accepted.entries))
        × (log.new ≡ log_by file.now log.old (accepted_from accepted.start accepted.entries)) }
{
    if log.len() < 12 + 12 * accepted.entries {
        return turn_away(FileRefusal {
            refusal: Refusal::LogRoom,
            block: 0,
            place: 0,
        });
    }
    Ran {
        refused: Ok(()),
        state: run_entries(file, log, accepted.start, accepted.entries),
    }
}

// A file and a lent log: what the run returns, with the state that it ends in.
#[tactic(auto, unfolding(crate::specs::Bench::ran_of, crate::specs::Bench::log_after))]
pub fn run(file: &[u8], log: &mut [u8]) -> Ran
    ensures { (ran_as result ≡ ran_of file.now log.old) × (log.new ≡ log_after file.now log.old) }
{
    match read_file(file) {
        Ok(accepted) => run_accepted(file, log, accepted),
        Err(e) => turn_away(e),
    }
}
