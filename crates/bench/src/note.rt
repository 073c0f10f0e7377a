// What came of an entry as a record of the log, and the count of changes.
ghost use Rattle.std.specs.Prelude.{◌≡◌, cond, not, ◌+◌, ◌<◌, leb};
ghost use Rattle.step.specs.Steps.{same_tag};
ghost use Rattle.machine.specs.Run.{mark_by};
ghost use Rattle.bench.specs.Play.{record_from};

use numbers::Version;
use run_log::Note;
use step::{Outcome, Tag, Told};

// The mark beside the number of an outcome: of an answered load, whether X is still the kept tag. Both are taken after the entry. It goes by
// the number and not by the outcome, so that an outcome is told once (docs/SPEED.md).
fn mark_by(number: u8, x: Tag, kept: Tag) -> u8
    ensures { result ≡ mark_by number x kept }
{
    if number != 2 {
        0
    } else if x == kept {
        1
    } else {
        2
    }
}

// The own steps that the log says: those that were counted before the entry, and none where it was turned away.
fn steps_told(number: u8, ahead: u8) -> u8
    ensures { result ≡ cond (leb 11 number) 0 ahead }
{
    if 11 <= number { 0 } else { ahead }
}

// The log's record of an entry that came to `outcome`, and after which X and the process's kept tag are these. `ahead` is the number of own
// steps that it has unless it was turned away (`steps_ahead`). The outcome is told once.
pub fn note_of(process: u8, ahead: u8, outcome: Outcome, x: Tag, kept: Tag) -> Note
    ensures { result ≡ record_from process ahead outcome x kept }
{
    let Told { number, value } = Told::from(outcome);
    Note {
        outcome: number,
        process,
        steps: steps_told(number, ahead),
        mark: mark_by(number, x, kept),
        value,
    }
}

// The count of changes after an entry that found X as `before` and left it as `after`. Crate `reused_text` has its own: a shared one would be
// public, and must ask that the count is small.
pub(crate) fn count(changes: Version, before: Tag, after: Tag) -> Version
    requires { changes.0 < 4294967295 }
    ensures { result.0 ≡ changes.0 + cond (not (same_tag before after)) 1 0 }
{
    Version(changes.0 + u64::from(before != after))
}
