// The start of a machine.
ghost use Rattle.std.specs.Prelude.{◌≡◌};
ghost use Rattle.numbers.specs.Refusals.{number_in};
ghost use Rattle.machine.specs.State.{first_row, first_record, first_state, zero_state, start_of, started_as};

use crate::{Started, State};
use numbers::{Process, Refusal, Sequence, check_range};
use step::{Place, Record, Row, Tag};

fn first_row(v: u64, old_number: i64) -> Row
    ensures { result ≡ first_row v old_number }
{
    Row {
        slots: [v, v],
        old_value: v,
        old_number,
    }
}

fn first_record(next: u64) -> Record
    ensures { result ≡ first_record next }
{
    Record {
        kept: Tag {
            process: Process(0),
            number: Sequence(0),
        },
        next: Sequence(next),
        place: Place::Idle,
    }
}

// The number that a start's answer tells: 0, or that of what refuses it.
pub fn start_number(start: Result<(), Refusal>) -> usize
    ensures { result ≡ number_in start }
{
    match start {
        Ok(()) => 0,
        Err(refusal) => usize::from(refusal.number()),
    }
}

impl State {
    fn first(n: usize, s: Sequence, v: u64) -> State
        ensures { result ≡ first_state n s v }
    {
        let mut rows = [first_row(v, -1); 16];
        rows[0] = first_row(v, 0);
        let mut records = [first_record(1); 16];
        records[0] = first_record(2);
        State {
            n,
            s,
            x: Tag {
                process: Process(0),
                number: Sequence(1),
            },
            rows,
            records,
        }
    }

    // Zeros, all idle.
    pub fn zero() -> State
        ensures { result ≡ zero_state }
    {
        State {
            n: 0,
            s: Sequence(0),
            x: Tag {
                process: Process(0),
                number: Sequence(0),
            },
            rows: [first_row(0, 0); 16],
            records: [first_record(0); 16],
        }
    }

    #[tactic(auto, unfolding(crate::specs::State::start_of))]
    pub fn start(n: usize, s: Sequence, v: u64) -> Started
        ensures { started_as result ≡ start_of n s v }
    {
        let start = check_range(n, s);
        let state = if start.is_ok() {
            State::first(n, s, v)
        } else {
            State::zero()
        };
        Started { state, start }
    }
}
