// The start of a machine.
ghost use Rattle.std.specs.Prelude.{◌≡◌, ◌≤◌};
ghost use Rattle.numbers.specs.Refusals.{number_in};
ghost use Rattle.reused.specs.Circle.{sizes_number};
ghost use Rattle.reused.specs.State.{first_row, first_triple, first_state, zero_state, start_of, started_as};

use crate::circle::{interval_of, m_in_range};
use crate::{Own, Place, Point, Started, State, Triple};
use numbers::{Process, Refusal, n_in_range};

// What refuses N and M, N first.
pub fn check_sizes(n: usize, m: u64) -> Result<(), Refusal>
    ensures { number_in result ≡ sizes_number n m }
{
    if !n_in_range(n) {
        return Err(Refusal::Processes);
    }
    if !m_in_range(n, m) {
        return Err(Refusal::CircleSize);
    }
    Ok(())
}

fn first_row(tag: u64, start: u64) -> Own
    ensures { result ≡ first_row tag start }
{
    Own {
        named: None,
        old: None,
        check: None,
        tag: Point(tag),
        start: Point(start),
        search: Process(0),
        place: Place::Idle,
    }
}

fn first_triple() -> Triple
    ensures { result ≡ first_triple }
{
    Triple {
        tag: Point(0),
        process: Process(0),
        bit: false,
    }
}

impl State {
    fn first(n: usize, m: u64) -> State
        requires { n ≤ 16 }
        ensures { result ≡ first_state n m }
    {
        let d = interval_of(n);
        let mut rows = [first_row(0, d); 16];
        rows[0] = first_row(1, d);
        State {
            n,
            m,
            x: first_triple(),
            rows,
        }
    }

    pub fn zero() -> State
        ensures { result ≡ zero_state }
    {
        State {
            n: 0,
            m: 0,
            x: first_triple(),
            rows: [first_row(0, 0); 16],
        }
    }

    #[tactic(auto, unfolding(crate::specs::State::start_of))]
    pub fn start(n: usize, m: u64) -> Started
        ensures { started_as result ≡ start_of n m }
    {
        let start = check_sizes(n, m);
        let state = if start.is_ok() {
            State::first(n, m)
        } else {
            State::zero()
        };
        Started { state, start }
    }
}
